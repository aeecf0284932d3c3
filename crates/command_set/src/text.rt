//! The text of a command.

ghost use Rattle.std.specs.Prelude.{◌≡◌, ◌+◌, ◌*◌, ◌≤◌, ◌++◌, [], ◌∷◌, decimal, length};
ghost use Rattle.hex.specs.Hex.{encode_lower};
ghost use Rattle.plain_text.specs.Split.{spaced};

use crate::command::Command;
use plain_text::{LineText, push_number, push_text};

impl Command {
    ghost use Rattle.command_set.specs.Command.{IsInRange, content};
    ghost use Rattle.command_set.specs.Text.{text};

    /// Adds the command's text to a line that has 8202 places left, which is the length of a
    /// cartridge's text, the longest.
    #[tactic(auto, unfolding(crate::specs::Text::text), using(crate::proofs::Writing::payload_is))]
    pub fn write_text(&self, into: &mut LineText)
        requires range { IsInRange (content self.now) }
        requires room { length into.old.items ≤ 54 }
        ensures text { into.new.items ≡ into.old.items ++ text (content self.now) }
        ensures room { length into.new.items ≤ length into.old.items + 8202 }
    {
        match self {
            Command::NoteOn {
                channel,
                key,
                velocity,
            } => write_three(into, b"on", *channel, *key, *velocity),
            Command::NoteOff { channel, key } => {
                write_two(into, b"off", *channel, u16::from(*key));
            }
            Command::Bend { channel, value } => write_two(into, b"bend", *channel, *value),
            Command::Control {
                channel,
                number,
                value,
            } => write_three(into, b"control", *channel, *number, *value),
            Command::Program { channel, number } => {
                write_two(into, b"program", *channel, u16::from(*number));
            }
            Command::Param { number, value } => {
                write_two(into, b"param", *number, u16::from(*value));
            }
            Command::Store { slot } => write_one(into, b"store", *slot),
            Command::Voice(voice) => write_bytes(into, b"voice", &voice.bytes()),
            Command::Cartridge(cartridge) => write_bytes(into, b"cartridge", cartridge.payload()),
        }
    }
}

/// Adds a word and a number after it.
fn write_one(into: &mut LineText, kind: &[u8], number: u8)
    requires room { length into.old.items ≤ 54 }
    requires kind { length kind.now ≤ 9 }
    ensures text { into.new.items ≡ into.old.items ++ spaced kind.now (decimal number ∷ []) }
    ensures room { length into.new.items ≤ length into.old.items + 20 }
{
    push_text(into, kind);
    push_next(into, u32::from(number));
}

/// Adds a word and two numbers after it.
fn write_two(into: &mut LineText, kind: &[u8], first: u8, second: u16)
    requires room { length into.old.items ≤ 54 }
    requires kind { length kind.now ≤ 9 }
    ensures text { into.new.items ≡ into.old.items ++ spaced kind.now (decimal first ∷ decimal second ∷ []) }
    ensures room { length into.new.items ≤ length into.old.items + 31 }
{
    push_text(into, kind);
    push_next(into, u32::from(first));
    push_next(into, u32::from(second));
}

/// Adds a word and three numbers after it.
fn write_three(into: &mut LineText, kind: &[u8], first: u8, second: u8, third: u8)
    requires room { length into.old.items ≤ 54 }
    requires kind { length kind.now ≤ 9 }
    ensures text { into.new.items ≡ into.old.items ++ spaced kind.now (decimal first ∷ decimal second ∷ decimal third ∷ []) }
    ensures room { length into.new.items ≤ length into.old.items + 42 }
{
    push_text(into, kind);
    push_next(into, u32::from(first));
    push_next(into, u32::from(second));
    push_next(into, u32::from(third));
}

/// Adds a word and bytes in hex after it.
#[tactic(auto, using(crate::proofs::Writing::encode_count))]
fn write_bytes(into: &mut LineText, kind: &[u8], bytes: &[u8])
    requires room { length into.old.items ≤ 54 }
    requires kind { length kind.now ≤ 9 }
    requires bytes { length bytes.now ≤ 4096 }
    ensures text { into.new.items ≡ into.old.items ++ spaced kind.now (encode_lower bytes.now ∷ []) }
    ensures room { length into.new.items ≤ length into.old.items + 8202 }
{
    push_text(into, kind);
    push_text(into, b" ");
    push_hex(into, bytes);
}

/// Adds a space and a number.
fn push_next(into: &mut LineText, number: u32)
    requires { length into.old.items ≤ 8245 }
    ensures text { into.new.items ≡ into.old.items ++ 32 ∷ decimal number }
    ensures room { length into.new.items ≤ length into.old.items + 11 }
{
    push_text(into, b" ");
    push_number(into, number);
}

/// Adds bytes in hex.
pub(crate) fn push_hex(into: &mut LineText, bytes: &[u8])
    requires { length into.old.items + 2 * length bytes.now ≤ 8256 }
    ensures { into.new.items ≡ into.old.items ++ encode_lower bytes.now }
{
    for byte in bytes {
        push_hex_byte(into, *byte);
    }
}

/// Adds the two hex digits of a byte.
fn push_hex_byte(into: &mut LineText, byte: u8)
    requires { length into.old.items + 2 ≤ 8256 }
    ensures { into.new.items ≡ into.old.items ++ encode_lower (byte ∷ []) }
{
    let mut digits = [0; 2];
    let _ = hex::encode_to_slice([byte], &mut digits);
    push_text(into, &digits);
}
