//! Why a world refused a send.

use command_set::Command;

/// Why a send was refused. The command comes back.
#[derive(Drop)]
pub enum WorldRefusal {
    /// As many entries wait as there are places.
    Full(Command),
    /// Want of memory.
    Memory(Command),
}
