//! The lines that are put to the output.
ghost use Rattle.std.specs.Prelude.{◌≡◌, ◌<◌, ◌≤◌, ◌++◌, ◌+◌, [], decimal, length, map, slice_index_or, string_bytes};
ghost use Rattle.fault_lines.specs.Lines.{Says, cannot_read};
ghost use Rattle.play_core.specs.Lines as lines;
ghost use Rattle.play_core.specs.Refused.{IsWithin};

use crate::refusal::PlayRefusal;
use fault_lines::{say, say_cannot_read, say_limit_commands, say_limit_file, say_out_of_memory};
use outside::Out;
use plain_text::{LineText, push_number, push_text};
use script_outcome::{Place, ScriptKind, push_script_text};

/// The words are not of the grammar.
#[tactic(auto, unfolding(crate::specs::Lines::usage))]
pub(crate) fn say_usage<O: Out>(out: &mut O)
    ensures { Says lines.usage (O.written out.old) (O.written out.new) (O.faults out.old) (O.faults out.new) }
{
    say(out, b"usage: play OUT ORDER BLOCKS PLACES SCRIPT...\n");
}

#[tactic(auto, unfolding(crate::specs::Lines::limit_scripts))]
fn say_limit_scripts<O: Out>(out: &mut O)
    ensures { Says lines.limit_scripts (O.written out.old) (O.written out.new) (O.faults out.old) (O.faults out.new) }
{
    say(out, b"limit scripts\n");
}

#[tactic(auto, unfolding(crate::specs::Lines::limit_blocks))]
fn say_limit_blocks<O: Out>(out: &mut O)
    ensures { Says lines.limit_blocks (O.written out.old) (O.written out.new) (O.faults out.old) (O.faults out.new) }
{
    say(out, b"limit blocks\n");
}

#[tactic(auto, unfolding(crate::specs::Lines::place_text))]
fn push_place(into: &mut LineText, place: Place)
    requires { length into.old.items ≤ 1000 }
    ensures text { into.new.items ≡ into.old.items ++ lines.place_text place }
    ensures room { length into.new.items ≤ length into.old.items + 16 }
{
    match place {
        Place::Line(number) => {
            push_text(into, b" line ");
            push_number(into, number);
        }
        Place::Byte(number) => {
            push_text(into, b" byte ");
            push_number(into, number);
        }
    }
}

#[tactic(auto, unfolding(crate::specs::Lines::fault_line))]
fn say_fault<O: Out>(out: &mut O, script: u32, place: Place, kind: &ScriptKind)
    ensures { Says (lines.fault_line script place kind.now)
        (O.written out.old) (O.written out.new) (O.faults out.old) (O.faults out.new) }
{
    let mut line = LineText::new();
    push_text(&mut line, b"script ");
    push_number(&mut line, script);
    push_place(&mut line, place);
    push_text(&mut line, b": ");
    push_script_text(kind, &mut line);
    push_text(&mut line, b"\n");
    say(out, line.as_slice());
}

/// Puts the line of a refusal, of scripts with these names, and answers its status.
pub(crate) fn refuse<O: Out>(out: &mut O, why: PlayRefusal, names: &[String]) -> u8
    requires { IsWithin why (length names.now) }
    ensures status { result ≡ lines.refusal_status why }
    ensures line { Says (lines.refusal_line why (map string_bytes names.now))
        (O.written out.old) (O.written out.new) (O.faults out.old) (O.faults out.new) }
{
    match why {
        PlayRefusal::Unread(number) => {
            say_unread(out, names, number);
            2
        }
        PlayRefusal::LongFile => {
            say_limit_file(out);
            6
        }
        PlayRefusal::LongScripts => {
            say_limit_scripts(out);
            6
        }
        PlayRefusal::Fault {
            script,
            place,
            kind,
        } => {
            say_fault(out, script, place, &kind);
            4
        }
        PlayRefusal::ManyCommands => {
            say_limit_commands(out);
            6
        }
        PlayRefusal::ManyBlocks => {
            say_limit_blocks(out);
            6
        }
        PlayRefusal::Memory => {
            say_out_of_memory(out);
            8
        }
    }
}

fn say_unread<O: Out>(out: &mut O, names: &[String], number: u32)
    requires { number < length names.now }
    ensures { Says (cannot_read (slice_index_or (map string_bytes names.now) number []))
        (O.written out.old) (O.written out.new) (O.faults out.old) (O.faults out.new) }
{
    say_cannot_read(out, &names[number as usize]);
}

/// The report of a run of so many blocks, of which so many commands are in the journal, and so many were left.
pub(crate) fn report_of(left: u32, blocks: u32, commands: u32) -> LineText
    ensures { result.items ≡ lines.report left blocks commands }
{
    if left == 0 {
        ok_line(blocks, commands)
    } else {
        left_line(left, blocks, commands)
    }
}

#[tactic(auto, unfolding(crate::specs::Lines::ok_line))]
fn ok_line(blocks: u32, commands: u32) -> LineText
    ensures { result.items ≡ lines.ok_line blocks commands }
{
    let mut line = LineText::new();
    push_text(&mut line, b"ok blocks ");
    push_number(&mut line, blocks);
    push_text(&mut line, b" commands ");
    push_number(&mut line, commands);
    push_text(&mut line, b"\n");
    line
}

#[tactic(auto, unfolding(crate::specs::Lines::left_line))]
fn left_line(left: u32, blocks: u32, commands: u32) -> LineText
    ensures { result.items ≡ lines.left_line left blocks commands }
{
    let mut line = LineText::new();
    push_text(&mut line, b"left ");
    push_number(&mut line, left);
    push_text(&mut line, b" blocks ");
    push_number(&mut line, blocks);
    push_text(&mut line, b" commands ");
    push_number(&mut line, commands);
    push_text(&mut line, b"\n");
    line
}
