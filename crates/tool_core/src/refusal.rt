//! Why a file is refused.

use sysex_frame::FrameFault;
use take_files::OrderKind;

/// Why a file is refused. An offset is that of the `F0` of a message, counted over all bytes from 0.
#[derive(Clone, Copy, Debug, PartialEq, Eq)]
pub enum Refusal {
    /// A SysEx message has more than 5000 bytes.
    TooLong { offset: u32 },
    /// A SysEx message of the DX7 has a fault.
    Fault { offset: u32, fault: FrameFault },
    /// The file ends within a message.
    Cut,
    /// It holds no voice.
    NoVoice,
    /// It holds no cartridge.
    NoCartridge,
    /// A line of an order, counted from 1, has this fault.
    Order { line: u32, kind: OrderKind },
}
