//! A script of any kind, by its first bytes.

ghost use Rattle.std.specs.Prelude.{◌≡◌, ◌<◌, ◌≤◌, ◌||◌, [], ◌∷◌, bytes_eq, codes, length, All, Err, IfOk, IfSome, Option, ℕ};
ghost use Rattle.script_plan.specs.Plan.{PlannedData};
ghost use Rattle.script_outcome.specs.declared.fault.Place.{Place};
ghost use Rattle.script_outcome.specs.declared.fault.ScriptKind.{ScriptKind};
ghost use Rattle.script_read.specs.Words.{lines_of};
ghost use Rattle.script_outcome.specs.Plan.{Commands, Refused, TooMany};
ghost use Rattle.script_read.specs.Plan.{is_midi_file, is_stream, lines_outcomes, outcomes, plan};
ghost use Rattle.script_outcome.specs.ReaderAnswer.{Settles};

use crate::edit_lines::read_edit_lines;
use crate::lines::{read_lines, without_return};
use crate::stream::read_stream;
use midi_file::read_midi_file;
use plain_text::{is_word, split_once};
use script_outcome::{Bounds, Place, ScriptFault, ScriptKind};
use script_plan::Script;
use std::alloc::Global;
use velocity_map::{Curve, MapSet};

/// Reads a script, at most 536,870,912 bytes: its commands with their blocks, or its first fault in
/// reading order, or that the next command would be more than there is room for.
pub fn read_script(
    alloc: Global,
    bytes: &[u8],
    maps: &MapSet,
    bounds: Bounds,
) -> Result<Script, ScriptFault>
    requires { length bytes.now ≤ 536870912 }
    ensures ok { IfOk result (λ script. plan bytes.now bounds.blocks bounds.room ≡ Commands script) }
    ensures refused { (at : Place) (why : ScriptKind) → result ≡ Err (ScriptFault.Refused at why)
        → plan bytes.now bounds.blocks bounds.room ≡ Refused at why }
    ensures many { result ≡ Err ScriptFault.TooMany → plan bytes.now bounds.blocks bounds.room ≡ TooMany }
    ensures few { IfOk result (λ script. length script ≤ bounds.room) }
    ensures early { IfOk result (λ script. IfSome bounds.blocks (λ blocks. 0 < blocks → All (λ (c : PlannedData). c.due < blocks) script)) }
{
    read_any(alloc, bytes, maps, bounds)
}

/// Reads a script of any kind.
#[tactic(auto, unfolding(crate::specs::Plan::outcomes))]
fn read_any(
    alloc: Global,
    bytes: &[u8],
    maps: &MapSet,
    bounds: Bounds,
) -> Result<Script, ScriptFault>
    requires { length bytes.now ≤ 536870912 }
    ensures { Settles result bounds.room (outcomes bounds.blocks bytes.now) }
{
    if is_stream(bytes) {
        read_stream(alloc, bytes, maps.map(Curve::Linear), bounds.room)
    } else if is_midi_file(bytes) {
        read_midi_file(alloc, bytes, maps.map(Curve::Linear), bounds)
    } else {
        read_text(alloc, bytes, maps, bounds)
    }
}

/// Whether the first byte is `F0`.
fn is_stream(bytes: &[u8]) -> bool
    ensures { result ≡ is_stream bytes.now }
{
    match bytes {
        [first, ..] => *first == 0xF0,
        [] => false,
    }
}

/// Whether the bytes begin with the name of a MIDI file's header.
fn is_midi_file(bytes: &[u8]) -> bool
    ensures { result ≡ is_midi_file bytes.now }
{
    bytes.starts_with(b"MThd")
}

/// The refusal of a script at its first line.
fn at_first(kind: ScriptKind) -> ScriptFault
    ensures { result ≡ ScriptFault.Refused (Place.Line 1) kind }
{
    ScriptFault::Refused {
        place: Place::Line(1),
        kind,
    }
}

/// Reads a text.
fn read_text(
    alloc: Global,
    text: &[u8],
    maps: &MapSet,
    bounds: Bounds,
) -> Result<Script, ScriptFault>
    requires { length text.now ≤ 536870912 }
    ensures { Settles result bounds.room (lines_outcomes bounds.blocks (lines_of text.now)) }
{
    match split_once(text, b'\n') {
        Some((first, rest)) => read_kind(alloc, without_return(first), rest, maps, bounds),
        None => read_lone(alloc, text),
    }
}

/// Reads a text by its first line.
fn read_kind(
    alloc: Global,
    first: &[u8],
    rest: &[u8],
    maps: &MapSet,
    bounds: Bounds,
) -> Result<Script, ScriptFault>
    requires { length rest.now ≤ 536870912 }
    ensures { Settles result bounds.room (lines_outcomes bounds.blocks (first.now ∷ lines_of rest.now)) }
{
    if is_word(first, b"midi 1") {
        read_lines(alloc, rest, maps, bounds)
    } else if is_word(first, b"edit 1") {
        read_edit_lines(alloc, rest, bounds)
    } else {
        Err(at_first(ScriptKind::Kind))
    }
}

/// Whether a line tells a kind of text.
fn is_text_kind(line: &[u8]) -> bool
    ensures { result ≡ (bytes_eq line.now (codes "midi 1") || bytes_eq line.now (codes "edit 1")) }
{
    is_word(line, b"midi 1") || is_word(line, b"edit 1")
}

/// Reads a text of one line without a line feed.
fn read_lone(alloc: Global, line: &[u8]) -> Result<Script, ScriptFault>
    ensures { (blocks : Option ℕ) (room : ℕ) → Settles result room (lines_outcomes blocks (line.now ∷ [])) }
{
    if is_text_kind(line) {
        Ok(Script::new(alloc))
    } else {
        Err(at_first(ScriptKind::Kind))
    }
}
