//! The reader of a stream of MIDI bytes.

ghost use Rattle.std.specs.Prelude.{◌≡◌, true};
ghost use Rattle.midi_stream.specs.ParserState.{holds_data};

use crate::byte_effect::effect_of;
use crate::kept_bytes::{KeptBytes, keep};
use crate::message::MidiMessage;
use crate::state::ParserState;
use std::alloc::{AllocError, Global};

/// A reader of a stream of MIDI bytes: it is fed byte by byte, and answers each message as it ends.
#[derive(Drop)]
pub struct MidiReader {
    state: ParserState,
    kept: Box<KeptBytes>,
    ghost holds: { holds_data state ≡ true },
}

impl MidiReader {
    ghost use Rattle.std.specs.Prelude.{ℕ, List, [], ◌∷◌, ◌++◌, ◌≤◌, ◌↔◌, length, not, IfOk, IfSome};
    ghost use Rattle.midi_stream.specs.Messages.{messages, is_unfinished, last_sysex};
    ghost use Rattle.midi_stream.specs.declared.message.MidiMessage.{MidiMessage};
    ghost use Rattle.midi_stream.specs.Ranges.{InRange};
    ghost use Rattle.midi_stream.specs.FedStream.{Reads};
    ghost use Rattle.midi_stream.specs.Standing.{Answers, HasBytes};

    /// A reader of a new stream. It asks for all the memory that it needs, 5000 bytes in storage that can't grow.
    ///
    /// The one error is want of memory.
    pub fn new(alloc: Global) -> Result<MidiReader, AllocError>
        ensures { IfOk result (λ reader. Reads reader []) }
    {
        Ok(MidiReader {
            state: ParserState::Between,
            kept: Box::new(alloc, KeptBytes::new())?,
        })
    }

    /// Reads the next byte, and answers the message that ends with it.
    pub fn feed(&mut self, byte: u8) -> Option<MidiMessage>
        ensures stands { (stream : List ℕ) → Reads self.old stream → Reads self.new (stream ++ byte ∷ []) }
        ensures answer { (stream : List ℕ) → Reads self.old stream → Answers result (messages stream) (messages (stream ++ byte ∷ [])) }
        ensures none { (stream : List ℕ) → Reads self.old stream → (result ≡ None) ↔ (messages (stream ++ byte ∷ []) ≡ messages stream) }
        ensures some { (stream : List ℕ) (message : MidiMessage) →
            Reads self.old stream → (result ≡ Some message) ↔ (messages (stream ++ byte ∷ []) ≡ messages stream ++ message ∷ []) }
        ensures bytes { (stream : List ℕ) → Reads self.old stream → IfSome result (λ message. HasBytes message (last_sysex (stream ++ byte ∷ []))) }
        ensures range { IfSome result InRange }
    {
        if byte >= 0xF8 {
            return None;
        }
        let effect = effect_of(self.state, byte);
        keep(&mut self.kept, self.state, byte);
        self.state = effect.state;
        effect.message
    }

    /// The bytes of the SysEx message that the last status byte ended, from `F0` to `F7`, if
    /// they are at most 5000.
    pub fn sysex(&self) -> &[u8]
        ensures bytes { (stream : List ℕ) → Reads self.now stream → IfSome (last_sysex stream) (λ bytes. length bytes ≤ 5000 → result.now ≡ bytes) }
        ensures bound { length result.now ≤ 5000 }
    {
        self.kept.as_slice()
    }

    /// Whether no message has begun that isn't ended.
    pub fn at_rest(&self) -> bool
        ensures { (stream : List ℕ) → Reads self.now stream → result ≡ not (is_unfinished stream) }
    {
        self.state.is_at_rest()
    }
}
