//! A message, read from its bytes: what it holds, or its first fault.

ghost use Rattle.std.specs.Prelude.{ℕ, ◌≡◌, ◌+◌, ◌-◌, ◌%◌, ◌<◌, ◌≤◌, ◌↔◌, ◌&&◌, ◌==◌};
ghost use Rattle.std.specs.Prelude.{not, nat_le, length, slice_index, slice_range};
ghost use Rattle.std.specs.Prelude.{IsOk, IfOk, IfErr, OnOk, IsOkAnd};
ghost use Rattle.std.specs.Option.{option_or};
ghost use Rattle.std.specs.List.{position};
ghost use Rattle.sysex_frame.specs.Frame.{Content, IsFrame, content_of};
ghost use Rattle.sysex_frame.specs.FrameFault.{first_fault, has_count, high_value, not_framed, not_yamaha, payload};
ghost use Rattle.sysex_frame.specs.FrameFault.{substatus, unknown_format, where_true, wrong_checksum, wrong_count, wrong_length};
ghost use Rattle.sysex_frame.specs.Halves.{Answers, early_fault, later_fault};
ghost use Rattle.sysex_frame.specs.ParsedFrame.{change, dump, reading};

use crate::frame::{Frame, FrameFault};
use crate::sums::checksum;
use voice_record::greatest;

/// The first fault of a message's ends and of its manufacturer ID.
fn end_fault(bytes: &[u8]) -> Option<FrameFault>
    ensures { result ≡ option_or (not_framed bytes.now) (not_yamaha bytes.now) }
{
    if bytes.len() < 2 || bytes[0] != 0xf0 || bytes[bytes.len() - 1] != 0xf7 {
        return Some(FrameFault::NotFramed);
    }
    if bytes[1] != 0x43 {
        return Some(FrameFault::NotYamaha);
    }
    None
}

/// The first fault of the count bytes and of the length of a dump.
fn count_fault(bytes: &[u8], high: u8, low: u8, wanted: u32) -> Option<FrameFault>
    requires long { 5 ≤ length bytes.now }
    requires short { length bytes.now ≤ 536870912 }
    ensures { result
        ≡ option_or
        (where_true (nat_le 7 (length bytes.now) && not (has_count bytes.now high low))
        (FrameFault.CountBytes (slice_index bytes.now 4) (slice_index bytes.now 5)))
        (where_true (not (length bytes.now == wanted)) (FrameFault.Length (length bytes.now) wanted)) }
{
    if bytes.len() >= 7 && (bytes[4] != high || bytes[5] != low) {
        return Some(FrameFault::CountBytes {
            high: bytes[4],
            low: bytes[5],
        });
    }
    let found = bytes.len() as u32;
    if found != wanted {
        return Some(FrameFault::Length { found, wanted });
    }
    None
}

/// The first fault of the head of a dump.
fn head_fault(bytes: &[u8]) -> Option<FrameFault>
    requires long { 5 ≤ length bytes.now }
    requires short { length bytes.now ≤ 536870912 }
    requires dump { substatus bytes.now ≡ 0 }
    ensures { result ≡ option_or (unknown_format bytes.now) (option_or (wrong_count bytes.now) (wrong_length bytes.now)) }
{
    match bytes[3] {
        0 => count_fault(bytes, 0x01, 0x1b, 163),
        9 => count_fault(bytes, 0x20, 0x00, 4104),
        found => Some(FrameFault::UnknownFormat { found }),
    }
}

/// A dump.
fn read_dump(bytes: &[u8]) -> Result<Frame<'_>, FrameFault>
    requires long { 5 ≤ length bytes.now }
    requires short { length bytes.now ≤ 536870912 }
    requires dump { substatus bytes.now ≡ 0 }
    ensures { Answers result
        (option_or (unknown_format bytes.now)
        (option_or (wrong_count bytes.now) (option_or (wrong_length bytes.now) (wrong_checksum bytes.now))))
        (dump bytes.now) }
{
    if let Some(fault) = head_fault(bytes) {
        return Err(fault);
    }
    let end = bytes.len() - 2;
    let payload = &bytes[6..end];
    let found = bytes[end];
    let wanted = checksum(payload);
    if found != wanted {
        return Err(FrameFault::Checksum { found, wanted });
    }
    let device = bytes[2] % 16;
    Ok(if bytes[3] == 0 {
        Frame::Voice { device, payload }
    } else {
        Frame::Cartridge { device, payload }
    })
}

/// A parameter change.
fn read_change(bytes: &[u8]) -> Result<Frame<'_>, FrameFault>
    requires long { 5 ≤ length bytes.now }
    requires short { length bytes.now ≤ 536870912 }
    requires change { substatus bytes.now ≡ 1 }
    ensures { Answers result (option_or (wrong_length bytes.now) (high_value bytes.now)) (change bytes.now) }
{
    let device = bytes[2] % 16;
    let group = bytes[3] / 4 % 32;
    let number = u16::from(bytes[3] % 4) * 128 + u16::from(bytes[4]);
    let found = bytes.len() as u32;
    if found < 7 || (group == 0 && found != 7) {
        return Err(FrameFault::Length { found, wanted: 7 });
    }
    if group != 0 || number > 155 {
        return Ok(Frame::OtherParam {
            device,
            group,
            number,
        });
    }
    let number = number as u8;
    let value = bytes[5];
    if value > greatest(number) {
        return Err(FrameFault::ParamValue { number, value });
    }
    Ok(Frame::Param {
        device,
        number,
        value,
    })
}

/// A message whose framing is good, by its substatus.
fn read_kind(bytes: &[u8]) -> Result<Frame<'_>, FrameFault>
    requires long { 5 ≤ length bytes.now }
    requires short { length bytes.now ≤ 536870912 }
    ensures { Answers result (later_fault bytes.now) (reading bytes.now) }
{
    match bytes[2] / 16 {
        0 => read_dump(bytes),
        1 => read_change(bytes),
        2 => Ok(Frame::Request {
            device: bytes[2] % 16,
        }),
        found => Err(FrameFault::UnknownSubstatus { found }),
    }
}

/// Looks at the ends of a message, at its manufacturer ID, at its data bytes and at its least length.
fn check_framing(bytes: &[u8]) -> Result<(), FrameFault>
    requires { length bytes.now ≤ 536870912 }
    ensures fault { IfErr result (λ e. early_fault bytes.now ≡ Some e) }
    ensures good { OnOk result (early_fault bytes.now ≡ None) }
    ensures long { OnOk result (5 ≤ length bytes.now) }
{
    if let Some(fault) = end_fault(bytes) {
        return Err(fault);
    }
    match first_high_byte(&bytes[2..bytes.len() - 1]) {
        Some(place) => Err(FrameFault::DataByte {
            place: place as u32 + 2,
        }),
        None if bytes.len() < 5 => Err(FrameFault::Short {
            length: bytes.len() as u32,
        }),
        None => Ok(()),
    }
}

/// The first place of a byte that is no data byte: one of 128 or more.
fn first_high_byte(bytes: &[u8]) -> Option<usize>
    ensures { result ≡ position (λ b. nat_le 128 b) bytes.now }
{
    bytes.iter().position(|byte| *byte >= 128)
}

/// Reads one message from `F0` to `F7`. Where the bytes are none, their first fault is answered.
pub fn read_frame(bytes: &[u8]) -> Result<Frame<'_>, FrameFault>
    requires { length bytes.now ≤ 536870912 }
    ensures fault { IfErr result (λ fault. first_fault bytes.now ≡ Some fault) }
    ensures faultless { IsOk result ↔ (first_fault bytes.now ≡ None) }
    ensures frame { IfOk result (λ frame. IsFrame bytes.now (content_of frame)) }

    // A message of this content is read as it.
    ensures only { (content : Content) → IsFrame bytes.now content → IsOkAnd result (λ frame. content_of frame ≡ content) }
{
    check_framing(bytes)?;
    read_kind(bytes)
}
