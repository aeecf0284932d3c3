//! The lines that the program prints, each up to 128 bytes.

ghost use Rattle.std.specs.Prelude.{◌≡◌, ◌+◌, ◌≤◌, ◌^◌, ◌<◌, ◌&&◌, [], ◌∷◌, ◌++◌, length, map, decimal, nat_le, slice_range, if◌then◌else◌};
ghost use Rattle.tool_core.specs.Lines as lines;
ghost use Rattle.tool_core.specs.Lines.{shown, shown_name};
ghost use Rattle.std.specs.Fmt.{signed_decimal};

use crate::refusal::Refusal;
use arrayvec::ArrayVec;
use fault_text::push_frame_text;
use itoa::Buffer;
use plain_text::{push_number, push_one, push_text, push_two};
use sysex_frame::FrameFault;
use take_files::OrderKind;
use voice_record::{Voice, parameter};

/// A line of text. The longest is that of a fault.
pub(crate) type OutputLine = ArrayVec<u8, 128>;

/// Adds the decimal digits of a number that may be negative to a line.
fn push_signed(line: &mut OutputLine, number: i64)
    requires { length line.old.items ≤ 88 }
    ensures text { line.new.items ≡ line.old.items ++ signed_decimal number }
    ensures room { length line.new.items ≤ length line.old.items + 40 }
{
    let mut buffer = Buffer::new();
    push_text(line, buffer.format(number).as_bytes());
}

/// A line of fixed text.
pub(crate) fn line_of(text: &[u8]) -> OutputLine
    requires { length text.now ≤ 128 }
    ensures { result.items ≡ text.now }
{
    let mut line = OutputLine::new();
    push_text(&mut line, text);
    line
}

/// The line of a refusal.
#[tactic(auto, unfolding(crate::specs::Lines::refusal_line))]
pub(crate) fn refusal_line(why: Refusal) -> OutputLine
    ensures { result.items ≡ lines.refusal_line why }
{
    match why {
        Refusal::TooLong { offset } => long_line(offset),
        Refusal::Fault { offset, fault } => fault_line(offset, fault),
        Refusal::Cut => line_of(b"cut\n"),
        Refusal::NoVoice => line_of(b"no voice\n"),
        Refusal::NoCartridge => line_of(b"no cartridge\n"),
        Refusal::Order { line, kind } => order_refusal_line(line, kind),
    }
}

#[tactic(auto, unfolding(crate::specs::Lines::refusal_line))]
fn order_refusal_line(number: u32, kind: OrderKind) -> OutputLine
    ensures { result.items ≡ lines.refusal_line (Refusal.Order number kind) }
{
    let mut line = OutputLine::new();
    push_one(&mut line, b"order line ", number);
    push_text(&mut line, b": ");
    push_kind(&mut line, kind);
    push_text(&mut line, b"\n");
    line
}

#[tactic(auto, unfolding(crate::specs::Lines::kind_text))]
fn push_kind(line: &mut OutputLine, kind: OrderKind)
    requires { length line.old.items ≤ 40 }
    ensures text { line.new.items ≡ line.old.items ++ lines.kind_text kind }
    ensures room { length line.new.items ≤ length line.old.items + 10 }
{
    match kind {
        OrderKind::Line => push_text(line, b"line"),
        OrderKind::Block => push_text(line, b"block"),
        OrderKind::Script => push_text(line, b"script"),
        OrderKind::Sequence => push_text(line, b"sequence"),
        OrderKind::Many => push_text(line, b"many"),
    }
}

/// The line that tells how many scripts were written, and the commands of all.
#[tactic(auto, unfolding(crate::specs::Lines::scripts_line))]
pub(crate) fn scripts_line(scripts: u32, commands: u32) -> OutputLine
    ensures { result.items ≡ lines.scripts_line scripts commands }
{
    let mut line = OutputLine::new();
    push_two(&mut line, b"scripts ", scripts, b" commands ", commands);
    push_text(&mut line, b"\n");
    line
}

/// The line that tells how many commands were played in how many blocks, and the sum of all samples.
#[tactic(auto, unfolding(crate::specs::Lines::bench_line))]
pub(crate) fn bench_line(commands: u32, blocks: u32, sum: i64) -> OutputLine
    ensures { result.items ≡ lines.bench_line commands blocks sum }
{
    let mut line = OutputLine::new();
    push_two(&mut line, b"commands ", commands, b" blocks ", blocks);
    push_text(&mut line, b" sum ");
    push_signed(&mut line, sum);
    push_text(&mut line, b"\n");
    line
}

/// The line that names the first offset at which two files differ.
#[tactic(auto, unfolding(crate::specs::Lines::differs_line))]
pub(crate) fn differs_line(offset: u32) -> OutputLine
    ensures { result.items ≡ lines.differs_line offset }
{
    let mut line = OutputLine::new();
    push_one(&mut line, b"differs at ", offset);
    push_text(&mut line, b"\n");
    line
}

#[tactic(auto, unfolding(crate::specs::Lines::refusal_line))]
fn long_line(offset: u32) -> OutputLine
    ensures { result.items ≡ lines.refusal_line (Refusal.TooLong offset) }
{
    let mut line = OutputLine::new();
    push_one(&mut line, b"fault ", offset);
    push_text(&mut line, b" long\n");
    line
}

#[tactic(auto, unfolding(crate::specs::Lines::refusal_line))]
fn fault_line(offset: u32, fault: FrameFault) -> OutputLine
    ensures { result.items ≡ lines.refusal_line (Refusal.Fault offset fault) }
{
    let mut line = OutputLine::new();
    push_one(&mut line, b"fault ", offset);
    push_text(&mut line, b" ");
    push_frame_text(&fault, &mut line);
    push_text(&mut line, b"\n");
    line
}

/// A byte of a name as it is printed: a point where it can't be.
fn shown_byte(byte: u8) -> u8
    ensures { result ≡ shown byte }
{
    if (32..=126).contains(&byte) {
        byte
    } else {
        b'.'
    }
}

/// Adds the name of a voice to a line.
pub(crate) fn push_name(line: &mut OutputLine, voice: &Voice)
    requires { length line.old.items ≤ 100 }
    ensures text { line.new.items ≡ line.old.items ++ shown_name voice.now }
    ensures room { length line.new.items ≡ length line.old.items + 10 }
{
    let fields = voice.bytes();
    let first = usize::from(parameter::NAME);
    push_shown(line, &fields[first..first + 10]);
}

fn push_shown(line: &mut OutputLine, name: &[u8])
    requires { length line.old.items + length name.now ≤ 128 }
    ensures { line.new.items ≡ line.old.items ++ map shown name.now }
{
    for byte in name {
        line.push(shown_byte(*byte));
    }
}

/// The line of a voice.
#[tactic(auto, unfolding(crate::specs::Lines::name_line))]
pub(crate) fn name_line(slot: u8, voice: &Voice) -> OutputLine
    ensures { result.items ≡ lines.name_line slot voice.now }
{
    let mut line = OutputLine::new();
    push_number(&mut line, u32::from(slot));
    push_text(&mut line, b" ");
    push_name(&mut line, voice);
    push_text(&mut line, b"\n");
    line
}
