//! Why a script is refused, and where.

use sysex_frame::FrameFault;
use thiserror::Error;

/// Where a script is refused: a line, counted from 1, or a byte, counted from 0.
#[derive(Clone, Copy, Debug, PartialEq, Eq)]
pub enum Place {
    Line(u32),
    Byte(u32),
}

/// Why a script is refused.
#[derive(Clone, Copy, Debug, PartialEq, Eq)]
pub enum ScriptKind {
    /// It begins as no kind of script does.
    Kind,
    /// A line isn't of the grammar, or a number is out of its range.
    Line,
    /// A line's block is below the block of a line before.
    Falls,
    /// The block of a line, or of an event of a MIDI file, is not one of the run's; or an event's is above 4294967295.
    Late,
    /// A system exclusive message is refused.
    Message(FrameFault),
    /// A system exclusive message has more than 5000 bytes.
    Long,
    /// The bytes end within a message; or a MIDI file ends within a chunk, or a track within an event.
    Cut,
    /// The value is above the greatest of its number.
    Value,
    /// There is nothing to undo.
    Undo,
    /// There is nothing to redo.
    Redo,
    /// The length of a MIDI file's header is below 6.
    Header,
    /// A MIDI file is of another format than 0 and 1.
    Format,
    /// A MIDI file's division is 0 or of another kind.
    Division,
    /// An event of a MIDI file is none.
    Event,
}

/// Why no script is answered.
#[derive(Clone, Copy, Debug, PartialEq, Eq, Error)]
pub enum ScriptFault {
    /// The first fault of the script.
    #[error("the script is refused")]
    Refused { place: Place, kind: ScriptKind },
    /// The script has more commands than there is room for.
    #[error("too many commands")]
    TooMany,
    /// There was no memory.
    #[error("out of memory")]
    Memory,
}
