//! The text of what is wrong with a SysEx message.
#![tactic(auto)]

ghost use Rattle.std.specs.Prelude.{◌≡◌, ◌+◌, ◌≤◌, ◌++◌, length};
ghost use Rattle.fault_text.specs.Text.{frame_text};

use arrayvec::ArrayVec;
use plain_text::{push_one, push_text, push_two};
use sysex_frame::FrameFault;

/// Adds the text of a fault to a line that has 40 places left.
#[tactic(auto, unfolding(crate::specs::Text::frame_text))]
pub fn push_frame_text<const N: usize>(fault: &FrameFault, into: &mut ArrayVec<u8, N>)
    requires { length into.old.items + 40 ≤ N }
    ensures text { into.new.items ≡ into.old.items ++ frame_text fault.now }
    ensures room { length into.new.items ≤ length into.old.items + 40 }
{
    match *fault {
        FrameFault::NotFramed => push_text(into, b"not framed"),
        FrameFault::NotYamaha => push_text(into, b"not yamaha"),
        FrameFault::DataByte { place } => push_one(into, b"byte ", place),
        FrameFault::Short { length } => push_one(into, b"short ", length),
        FrameFault::UnknownSubstatus { found } => push_one(into, b"substatus ", u32::from(found)),
        FrameFault::UnknownFormat { found } => push_one(into, b"format ", u32::from(found)),
        FrameFault::CountBytes { high, low } => {
            push_two(into, b"count ", u32::from(high), b" ", u32::from(low));
        }
        FrameFault::Length { found, wanted } => {
            push_two(into, b"length ", found, b" wanted ", wanted);
        }
        FrameFault::Checksum { found, wanted } => {
            push_two(
                into,
                b"checksum ",
                u32::from(found),
                b" wanted ",
                u32::from(wanted),
            );
        }
        FrameFault::ParamValue { number, value } => {
            push_two(
                into,
                b"value ",
                u32::from(value),
                b" of ",
                u32::from(number),
            );
        }
    }
}

#[cfg(test)]
mod tests;
