//! Why nothing is played.

use script_outcome::{Place, ScriptKind};

/// Why nothing is played and no file is touched.
#[derive(Clone, Copy, Debug, PartialEq, Eq)]
pub(crate) enum PlayRefusal {
    /// The script with this number was not read.
    Unread(u32),
    /// A script has more than 16,777,216 bytes.
    LongFile,
    /// All scripts together have more than 67,108,864 bytes.
    LongScripts,
    /// The script with this number has a fault.
    Fault {
        script: u32,
        place: Place,
        kind: ScriptKind,
    },
    /// All scripts together have more than 1,000,000 commands.
    ManyCommands,
    /// The last command is due too late for 1,048,576 blocks.
    ManyBlocks,
    /// There was no memory.
    Memory,
}
