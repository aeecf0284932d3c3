//! The bytes that are kept of a SysEx message, in storage that can't grow.

ghost use Rattle.std.specs.Prelude.{◌≡◌, ◌∷◌, ◌++◌, [], take};
ghost use Rattle.midi_stream.specs.Standing.{kept_in, kept_with};

use crate::state::ParserState;
use arrayvec::ArrayVec;

/// How many bytes of a SysEx message are kept.
const KEPT: usize = 5000;

/// The bytes that are kept. It has its room from the start and asks for no memory later.
pub(crate) type KeptBytes = ArrayVec<u8, KEPT>;

/// Puts a byte at the end, where there is room left.
fn push(kept: &mut KeptBytes, byte: u8)
    ensures { kept.new.items ≡ take 5000 (kept.old.items ++ byte ∷ []) }
{
    if kept.len() < KEPT {
        kept.push(byte);
    }
}

/// Keeps the next byte of a stream, if it belongs to a SysEx message.
pub(crate) fn keep(kept: &mut KeptBytes, state: ParserState, byte: u8)
    ensures { kept.new.items ≡ kept_with state kept.old.items byte }
{
    if byte == 0xF0 {
        kept.clear();
        push(kept, byte);
    } else {
        keep_inside(kept, state, byte);
    }
}

/// Keeps the next byte of a SysEx message that has begun.
fn keep_inside(kept: &mut KeptBytes, state: ParserState, byte: u8)
    ensures { kept.new.items ≡ kept_in state kept.old.items byte }
{
    match state {
        ParserState::InSysEx { .. } => push(kept, byte),
        ParserState::Between
        | ParserState::Begun { .. }
        | ParserState::Running { .. }
        | ParserState::Half { .. } => {}
    }
}
