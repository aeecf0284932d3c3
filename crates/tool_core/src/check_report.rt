//! The report of a check: a line for each message, and their number.

ghost use Rattle.std.specs.Prelude.{ℕ, ◌≡◌, ◌≤◌, ◌<◌, ◌+◌, List, Option, Some, None, false, length, slice_index, OnOk, OnErr};
ghost use Rattle.std.specs.Prelude.{IfOk, option_map, option_to_list};
ghost use Rattle.outside.specs.Faults.{HasCause};
ghost use Rattle.outside.specs.Files.{said};
ghost use Rattle.sysex_frame.specs.Frame.{content_of};
ghost use Rattle.tool_core.specs.SysEx.{SysExMessage, sysex_at, is_too_long};
ghost use Rattle.tool_core.specs.Lines as lines;
ghost use Rattle.tool_core.specs.Lines.{check_report, content_line, lines_before};
ghost use Rattle.tool_core.specs.Endings.{Puts};
ghost use Rattle.tool_core.specs.Pages.{FailsIn, Holds};
ghost use Rattle.tool_core.specs.Scans.{Follows, TellsOf};
ghost use Rattle.tool_core.specs.Scans.{HasSizes};

use crate::output_line::{OutputLine, line_of, push_name};
use crate::page::{Page, put_line, put_page};
use crate::scan::{EndedSysEx, Scanner, clamp};
use outside::{Failed, Out};
use plain_text::{push_number, push_text};
use sysex_frame::{Frame, read_frame};

/// Puts a line for each SysEx message of a file, and then their number.
fn put_messages<O: Out>(out: &mut O, mut scanner: Scanner, file: &[u8]) -> Result<(), Failed>
    requires short { length file.now ≤ 16777216 }
    requires begins { Follows scanner file.now 0 }
    ensures all { OnOk result (O.written out.new ≡ option_map (said (check_report file.now)) (O.written out.old)) }
    ensures some { OnErr result (FailsIn (check_report file.now) (O.written out.old) (O.written out.new)) }
    ensures cause { HasCause (O.faults out.old) (O.faults out.new) 0 0 ⊥ result }
{
    let mut page = Page::new();
    let mut count = 0u32;
    for (offset, byte) in file.iter().enumerate() {
        match put_byte(out, &mut page, &mut scanner, offset as u32, *byte) {
            Ok(more) => count += more,
            Err(failed) => return Err(failed),
        }
    }
    let line = count_line(count);
    match put_line(out, &mut page, line.as_slice()) {
        Ok(()) => put_page(out, &mut page),
        Err(failed) => Err(failed),
    }
}

/// Puts the report of a check, and answers 0, or 3 where the output fails.
pub(crate) fn put_check<O: Out>(out: &mut O, scanner: Scanner, file: &[u8]) -> u8
    requires short { length file.now ≤ 16777216 }
    requires begins { Follows scanner file.now 0 }
    ensures { Puts 0 (check_report file.now) result (O.written out.old) (O.written out.new) (O.faults out.old) (O.faults out.new) }
{
    match put_messages(out, scanner, file) {
        Ok(()) => 0,
        Err(_) => 3,
    }
}

/// Reads the byte at an offset, and puts the line of the message that ends with it; answers how many ended.
fn put_byte<O: Out>(
    out: &mut O,
    page: &mut Page,
    scanner: &mut Scanner,
    offset: u32,
    byte: u8,
) -> Result<u32, Failed>
    ensures follows { (file : List ℕ) → offset < length file → slice_index file offset ≡ byte → Follows scanner.old file offset
        → Follows scanner.new file (offset + 1) }
    ensures count { IfOk result (λ count. (file : List ℕ) → offset < length file → slice_index file offset ≡ byte → Follows scanner.old file offset
        → count ≡ length (option_to_list (sysex_at file offset))) }
    ensures one { IfOk result (λ count. count ≤ 1) }
    ensures line { OnOk result ((file : List ℕ) (before : Option (List ℕ)) → offset < length file → slice_index file offset ≡ byte
        → Follows scanner.old file offset
        → Holds before (O.written out.old) page.old.items (lines_before file offset)
        → Holds before (O.written out.new) page.new.items (lines_before file (offset + 1))) }
    ensures err { OnErr result ((before : Option (List ℕ)) (text : List ℕ) → Holds before (O.written out.old) page.old.items text
        → FailsIn text before (O.written out.new)) }
    ensures cause { HasCause (O.faults out.old) (O.faults out.new) 0 0 ⊥ result }
{
    match scanner.feed(offset, byte) {
        Some(ended) => {
            let line = message_line(ended, scanner.message());
            match put_line(out, page, line.as_slice()) {
                Ok(()) => Ok(1),
                Err(failed) => Err(failed),
            }
        }
        None => Ok(0),
    }
}

/// The line of a message that has ended.
fn message_line(ended: EndedSysEx, message: &[u8]) -> OutputLine
    requires { length message.now ≤ 5000 }
    ensures { (sysex : SysExMessage) → TellsOf (Some ended) (Some sysex) → (is_too_long sysex ≡ false → message.now ≡ sysex.bytes)
        → result.items ≡ lines.message_line sysex }
{
    if ended.is_too_long {
        return other_line();
    }
    match read_frame(message) {
        Ok(frame) => frame_line(frame),
        Err(_) => other_line(),
    }
}

#[tactic(auto, unfolding(crate::specs::Lines::content_line))]
fn other_line() -> OutputLine
    ensures { result.items ≡ content_line None }
{
    line_of(b"other\n")
}

#[tactic(auto, unfolding(crate::specs::Lines::content_line))]
fn frame_line(frame: Frame<'_>) -> OutputLine
    requires { HasSizes (content_of frame) }
    ensures { result.items ≡ content_line (Some (content_of frame.entry)) }
{
    match frame {
        Frame::Voice { payload, .. } => voice_line(payload),
        Frame::Cartridge { .. } => line_of(b"cartridge\n"),
        Frame::Param { number, value, .. } => param_line(number, value),
        Frame::OtherParam { .. } => line_of(b"other\n"),
        Frame::Request { .. } => line_of(b"request\n"),
    }
}

#[tactic(auto, unfolding(crate::specs::Lines::voice_line))]
fn voice_line(payload: &[u8]) -> OutputLine
    requires { length payload.now ≡ 155 }
    ensures { result.items ≡ lines.voice_line payload.now }
{
    let voice = clamp(payload);
    let mut line = line_of(b"voice ");
    push_name(&mut line, &voice);
    push_text(&mut line, b"\n");
    line
}

#[tactic(auto, unfolding(crate::specs::Lines::param_line))]
fn param_line(number: u8, value: u8) -> OutputLine
    ensures { result.items ≡ lines.param_line number value }
{
    let mut line = line_of(b"param ");
    push_number(&mut line, u32::from(number));
    push_text(&mut line, b" ");
    push_number(&mut line, u32::from(value));
    push_text(&mut line, b"\n");
    line
}

#[tactic(auto, unfolding(crate::specs::Lines::count_line))]
fn count_line(count: u32) -> OutputLine
    ensures { result.items ≡ lines.count_line count }
{
    let mut line = line_of(b"messages ");
    push_number(&mut line, count);
    push_text(&mut line, b"\n");
    line
}
