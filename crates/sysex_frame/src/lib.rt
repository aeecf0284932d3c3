//! SysEx messages of the DX7: the dump of one voice and of 32 voices, the change of a
//! parameter and the request for a dump, each from `F0` to `F7`.
#![tactic(auto)]

mod frame;
mod read;
mod sums;
mod write;

pub use frame::{Frame, FrameFault};
pub use read::read_frame;
pub use sums::checksum;
pub use write::{write_param, write_voice};

#[cfg(test)]
mod tests;
