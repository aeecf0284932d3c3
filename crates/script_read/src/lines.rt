//! A script that is text, read line by line.

ghost use Rattle.std.specs.Prelude.{ℕ, List, ◌≡◌, ◌+◌, ◌≤◌, ◌<◌, ◌^◌, ◌-◌, ◌==◌, [], ◌∷◌, ◌++◌, length, slice_index, IfErr, IsTrue, OnOk};
ghost use Rattle.script_read.specs.Words.{lines_of, without_return};
ghost use Rattle.script_read.specs.Lines.{ParsedLine, parsed, parsed_lines};
ghost use Rattle.script_read.specs.Outcomes.{outcomes_after, text_outcomes};
ghost use Rattle.script_outcome.specs.ReaderAnswer.{Settles, Stops};
ghost use Rattle.script_read.specs.TextSoFar.{HasOrder, IsAfter};

use crate::progress::Progress;
use crate::script_line::read_line;
use plain_text::split_once;
use script_outcome::{Bounds, ScriptFault};
use script_plan::Script;
use std::alloc::Global;
use velocity_map::MapSet;

/// A line without a carriage return at its end.
pub(crate) fn without_return(line: &[u8]) -> &[u8]
    ensures { result.now ≡ without_return line.now }
{
    if has_return(line) {
        &line[..line.len() - 1]
    } else {
        line
    }
}

/// Whether a carriage return stands at the end.
fn has_return(line: &[u8]) -> bool
    ensures value { result ≡ (slice_index line.now (length line.now - 1) == 13) }
    ensures some { IsTrue result → 1 ≤ length line.now }
{
    !line.is_empty() && line[line.len() - 1] == b'\r'
}

/// Reads the lines after the first one.
pub(crate) fn read_lines(
    alloc: Global,
    text: &[u8],
    maps: &MapSet,
    bounds: Bounds,
) -> Result<Script, ScriptFault>
    requires { length text.now ≤ 536870912 }
    ensures { Settles result bounds.room (text_outcomes bounds.blocks (parsed_lines (lines_of text.now))) }
{
    let mut progress = match Progress::new(alloc) {
        Ok(progress) => progress,
        Err(_) => return Err(ScriptFault::Memory),
    };
    let mut rest = text;
    while let Some((line, after)) = split_once(rest, b'\n') {
        match apply_line(alloc, &mut progress, without_return(line), maps, bounds) {
            Ok(()) => {}
            Err(fault) => return Err(fault),
        }
        rest = after;
    }
    match apply_line(alloc, &mut progress, rest, maps, bounds) {
        Ok(()) => progress.end(),
        Err(fault) => Err(fault),
    }
}

/// Reads the next line and applies it.
fn apply_line(
    alloc: Global,
    progress: &mut Progress,
    line: &[u8],
    maps: &MapSet,
    bounds: Bounds,
) -> Result<(), ScriptFault>
    requires order { HasOrder progress.old bounds.room }
    requires number { progress.old.number < 2 ^ 32 - 1 }
    ensures after { OnOk result ((lines : List ParsedLine) → IsAfter progress.old bounds.blocks lines
        → IsAfter progress.new bounds.blocks (lines ++ parsed line.now ∷ [])) }
    ensures order { OnOk result (HasOrder progress.new bounds.room) }
    ensures number { OnOk result (progress.new.number ≡ progress.old.number + 1) }
    ensures stops { IfErr result (λ why. (lines : List ParsedLine) → IsAfter progress.old bounds.blocks lines
        → Stops why bounds.room (outcomes_after bounds.blocks [] (lines ++ parsed line.now ∷ []))) }
{
    match read_line(alloc, line) {
        Ok(parsed) => progress.apply(alloc, parsed, maps, bounds),
        Err(_) => Err(ScriptFault::Memory),
    }
}
