//! What an editor refuses.

ghost use Rattle.std.specs.Prelude.{◌≡◌};

use std::alloc::{AllocError, AllocFailed};
use thiserror::Error;

/// Why an editor refuses. It is unchanged then.
#[derive(Clone, Copy, Debug, PartialEq, Eq, Error)]
pub enum EditFault {
    /// The value is above the greatest of its number.
    #[error("value {value} of number {number} is above {greatest}")]
    ValueHigh { number: u8, value: u8, greatest: u8 },
    /// The byte of a name at this place, 0 to 9, is above 127, and those before it are not.
    #[error("byte {place} of the name is above 127")]
    NameByte { place: u8 },
    /// Nothing is left in the past.
    #[error("nothing to undo")]
    NothingToUndo,
    /// Nothing is left in the future.
    #[error("nothing to redo")]
    NothingToRedo,
    /// Memory has run out.
    #[error("out of memory")]
    Memory,
}

impl From<voice_record::ValueHigh> for EditFault {
    ghost use Rattle.std.specs.Prelude.{◌≡◌};
    ghost use Rattle.editor.specs.declared.fault.EditFault.TheVariants.{ValueHigh};

    ghost from_gives = { λ high fault. fault ≡ ValueHigh high.number high.value high.greatest };

    fn from(high: voice_record::ValueHigh) -> EditFault {
        EditFault::ValueHigh {
            number: high.number,
            value: high.value,
            greatest: high.greatest,
        }
    }
}

impl From<AllocError> for EditFault {
    ghost use Rattle.std.specs.Prelude.{◌≡◌};
    ghost use Rattle.editor.specs.declared.fault.EditFault.TheVariants.{Memory};

    ghost from_gives = { λ _ fault. fault ≡ Memory };

    fn from(_error: AllocError) -> EditFault {
        EditFault::Memory
    }
}
