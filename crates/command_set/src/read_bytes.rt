//! Voices and cartridges, read from their hex words. Memory is asked for only where a word is right.

ghost use Rattle.std.specs.Prelude.{List, ℕ, ◌≡◌, ◌≢◌, ◌≤◌, ◌↔◌, [], ◌∷◌, codes, false, length, IfOk, IsTrue};
ghost use Rattle.hex.specs.Hex.{IsBytes, encode_lower};
ghost use Rattle.voice_record.specs.Packing.{Packs};
ghost use Rattle.cartridge.specs.Cartridge.{PacksAll, slot_bytes, unpacked, voices_of};
ghost use Rattle.command_set.specs.Command.{content};
ghost use Rattle.command_set.specs.Words.{AreWordsOf, AreWordsOfNone, AreWordsOfSome};
ghost use Rattle.command_set.specs.declared.read.TextFault.TheVariants.{Memory, NotCommand};

use crate::command::Command;
use crate::read::TextFault;
use crate::text::push_hex;
use cartridge::Cartridge;
use plain_text::LineText;
use std::alloc::Global;
use voice_record::Voice;

/// `voice` and the 310 digits of its numbers.
pub fn read_voice(alloc: Global, word: &[u8]) -> Result<Command, TextFault>
    ensures read { IfOk result (λ c. AreWordsOf (codes "voice" ∷ word.now ∷ []) (content c)) }
    ensures refused { result ≡ Err NotCommand → AreWordsOfNone (codes "voice" ∷ word.now ∷ []) }
    ensures memory { result ≡ Err Memory → AreWordsOfSome (codes "voice" ∷ word.now ∷ []) }
{
    let mut bytes = [0; 155];
    if !decode_lower(word, &mut bytes) {
        return Err(TextFault::NotCommand);
    }
    let voice = Voice::from_bytes(&bytes);
    if voice.bytes() != bytes {
        return Err(TextFault::NotCommand);
    }
    match Box::new(alloc, voice) {
        Ok(voice) => Ok(Command::Voice(voice)),
        Err(_) => Err(TextFault::Memory),
    }
}

/// `cartridge` and the 8192 digits of its packed bytes.
pub fn read_cartridge(alloc: Global, word: &[u8]) -> Result<Command, TextFault>
    ensures read { IfOk result (λ c. AreWordsOf (codes "cartridge" ∷ word.now ∷ []) (content c)) }
    ensures refused { result ≡ Err NotCommand → AreWordsOfNone (codes "cartridge" ∷ word.now ∷ []) }
    ensures memory { result ≡ Err Memory → AreWordsOfSome (codes "cartridge" ∷ word.now ∷ []) }
{
    let mut bytes = [0; 4096];
    if !decode_lower(word, &mut bytes) {
        return Err(TextFault::NotCommand);
    }
    if !is_payload(&bytes) {
        return Err(TextFault::NotCommand);
    }
    let cartridge = match Cartridge::from_payload(alloc, &bytes) {
        Ok(cartridge) => cartridge,
        Err(_) => return Err(TextFault::Memory),
    };
    match Box::new(alloc, cartridge) {
        Ok(cartridge) => Ok(Command::Cartridge(cartridge)),
        Err(_) => Err(TextFault::Memory),
    }
}

/// Whether the word is hex digits in lower case that fill the bytes, which they then do.
fn decode_lower(word: &[u8], into: &mut [u8]) -> bool
    requires { length into.old ≤ 4096 }
    ensures decoded { IsTrue result → encode_lower into.new ≡ word.now }
    ensures only { IsTrue result → (bytes : List ℕ) → IsBytes bytes → encode_lower bytes ≡ word.now → bytes ≡ into.new }
    ensures refused { result ≡ false → (bytes : List ℕ) → IsBytes bytes → length bytes ≡ length into.old → encode_lower bytes ≢ word.now }
{
    match hex::decode_to_slice(word, into) {
        Ok(()) => has_digits(into, word),
        Err(_) => false,
    }
}

/// Whether the bytes have these digits.
fn has_digits(bytes: &[u8], word: &[u8]) -> bool
    requires { length bytes.now ≤ 4096 }
    ensures { IsTrue result ↔ (encode_lower bytes.now ≡ word.now) }
{
    let mut line = LineText::new();
    push_hex(&mut line, bytes);
    line.as_slice() == word
}

/// Whether the bytes are 32 packed voices: no unused bit is set, and no field is above its greatest.
fn is_payload(bytes: &[u8; 4096]) -> bool
    ensures { IsTrue result ↔ PacksAll (voices_of bytes.now) bytes.now }
{
    for slot in 0..32u8 {
        if !is_packed(&slot_of(bytes, slot)) {
            return false;
        }
    }
    true
}

/// The bytes of a slot.
fn slot_of(bytes: &[u8; 4096], slot: u8) -> [u8; 128]
    requires { slot ≤ 31 }
    ensures { result ≡ slot_bytes bytes.now slot }
{
    let start = 128 * slot as usize;
    let mut packed = [0; 128];
    packed.copy_from_slice(&bytes[start..start + 128]);
    packed
}

/// Whether the bytes are the packed form of a voice.
fn is_packed(bytes: &[u8; 128]) -> bool
    ensures { IsTrue result ↔ Packs (unpacked bytes.now) bytes.now }
{
    Voice::unpack(bytes).pack() == *bytes
}
