//! A script of edits, read line by line.

ghost use Rattle.std.specs.Prelude.{List, ◌≡◌, ◌+◌, ◌≤◌, ◌<◌, ◌^◌, ◌-◌, [], ◌∷◌, ◌++◌, length, IfErr, OnOk};
ghost use Rattle.script_read.specs.Words.{lines_of};
ghost use Rattle.script_read.specs.EditLines.{ParsedEdit, parsed_edit, parsed_edits};
ghost use Rattle.script_read.specs.Edits.{edit_text_outcomes, edits_after};
ghost use Rattle.script_read.specs.EditsSoFar.{HasEditOrder, IsEditing};
ghost use Rattle.script_outcome.specs.ReaderAnswer.{Settles, Stops};

use crate::edit_line::read_edit_line;
use crate::editing::Editing;
use crate::lines::without_return;
use plain_text::split_once;
use script_outcome::{Bounds, ScriptFault};
use script_plan::Script;
use std::alloc::Global;

/// Reads the lines after the first one.
pub(crate) fn read_edit_lines(
    alloc: Global,
    text: &[u8],
    bounds: Bounds,
) -> Result<Script, ScriptFault>
    requires { length text.now ≤ 536870912 }
    ensures { Settles result bounds.room (edit_text_outcomes bounds.blocks (parsed_edits (lines_of text.now))) }
{
    let mut editing = match Editing::new(alloc) {
        Ok(editing) => editing,
        Err(_) => return Err(ScriptFault::Memory),
    };
    let mut rest = text;
    while let Some((line, after)) = split_once(rest, b'\n') {
        match apply_line(alloc, &mut editing, without_return(line), bounds) {
            Ok(()) => {}
            Err(fault) => return Err(fault),
        }
        rest = after;
    }
    match apply_line(alloc, &mut editing, rest, bounds) {
        Ok(()) => Ok(editing.script),
        Err(fault) => Err(fault),
    }
}

/// Reads the next line and applies it.
fn apply_line(
    alloc: Global,
    editing: &mut Editing,
    line: &[u8],
    bounds: Bounds,
) -> Result<(), ScriptFault>
    requires order { HasEditOrder editing.old bounds.room }
    requires number { editing.old.number < 2 ^ 32 - 1 }
    ensures after { OnOk result ((lines : List ParsedEdit) → IsEditing editing.old bounds.blocks lines
        → IsEditing editing.new bounds.blocks (lines ++ parsed_edit line.now ∷ [])) }
    ensures order { OnOk result (HasEditOrder editing.new bounds.room) }
    ensures number { OnOk result (editing.new.number ≡ editing.old.number + 1) }
    ensures stops { IfErr result (λ why. (lines : List ParsedEdit) → IsEditing editing.old bounds.blocks lines
        → Stops why bounds.room (edits_after bounds.blocks [] (lines ++ parsed_edit line.now ∷ []))) }
{
    match read_edit_line(alloc, line) {
        Ok(parsed) => editing.apply(alloc, parsed, bounds),
        Err(_) => Err(ScriptFault::Memory),
    }
}
