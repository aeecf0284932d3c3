//! A script of edits in the middle of its lines.

ghost use Rattle.std.specs.Prelude.{◌≡◌, ◌≤◌, None, IfErr, IfOk};
ghost use Rattle.command_set.specs.Command.{IsInRange, content};
ghost use Rattle.editor.specs.Names.{first_high};
ghost use Rattle.script_read.specs.EditLines.{Loads, Redoes, Renames, Sets, Undoes};
ghost use Rattle.script_read.specs.EditData.{IsSoundRequest, request_data};
ghost use Rattle.script_read.specs.Edits.{Becomes, answered};
ghost use Rattle.script_read.specs.EditsSoFar.{IsRefusal};

use crate::edit_line::{EditLine, EditRequest};
use crate::progress::{fault_of_block, refused};
use command_set::Command;
use editor::{EditFault, Editor};
use script_outcome::{Bounds, Place, ScriptFault, ScriptKind, give};
use script_plan::Script;
use std::alloc::{AllocError, Global};
use voice_record::{Voice, greatest};

/// How many acts can be undone.
const DEPTH: usize = 100;

/// Where the reader of edits stands after some lines.
#[derive(Drop)]
pub(crate) struct Editing {
    pub(crate) editor: Editor,
    pub(crate) script: Script,
    /// The block of the last line that has one.
    pub(crate) least: u32,
    /// The number of the next line.
    pub(crate) number: u32,
}

impl Editing {
    ghost use Rattle.std.specs.Prelude.{ℕ, List, Option, ◌≡◌, ◌+◌, ◌^◌, ◌-◌, ◌<◌, [], ◌∷◌, ◌++◌, IfErr, IfOk, OnOk};
    ghost use Rattle.script_read.specs.EditLines.{Requests, Bad, ParsedEdit, Passed};
    ghost use Rattle.script_read.specs.EditData.{IsSoundRequest, IsSoundLine, request_data, edit_data};
    ghost use Rattle.script_read.specs.Edits.{edits_after};
    ghost use Rattle.script_read.specs.EditsSoFar.{HasEditOrder, IsEditing};
    ghost use Rattle.script_outcome.specs.ReaderAnswer.{Stops};

    /// Before the line after the first, with the opening voice. It asks for the memory that an editor needs.
    pub(crate) fn new(alloc: Global) -> Result<Editing, AllocError>
        ensures after { IfOk result (λ p. (blocks : Option ℕ) → IsEditing p blocks []) }
        ensures order { IfOk result (λ p. (room : ℕ) → HasEditOrder p room) }
        ensures number { IfOk result (λ p. p.number ≡ 2) }
    {
        match Editor::new(alloc, &Voice::init(), DEPTH) {
            Ok(editor) => Ok(Editing {
                editor,
                script: Script::new(alloc),
                least: 0,
                number: 2,
            }),
            Err(fault) => Err(fault),
        }
    }

    /// Applies the next line.
    pub(crate) fn apply(
        &mut self,
        alloc: Global,
        parsed: EditLine,
        bounds: Bounds,
    ) -> Result<(), ScriptFault>
        requires order { HasEditOrder self.old bounds.room }
        requires number { self.old.number < 2 ^ 32 - 1 }
        requires sound { IsSoundLine parsed }
        ensures after { OnOk result ((lines : List ParsedEdit) → IsEditing self.old bounds.blocks lines
            → IsEditing self.new bounds.blocks (lines ++ edit_data parsed ∷ [])) }
        ensures order { OnOk result (HasEditOrder self.new bounds.room) }
        ensures number { OnOk result (self.new.number ≡ self.old.number + 1) }
        ensures stops { IfErr result (λ why. (lines : List ParsedEdit) → IsEditing self.old bounds.blocks lines
            → Stops why bounds.room (edits_after bounds.blocks [] (lines ++ edit_data parsed ∷ []))) }
    {
        match parsed {
            EditLine::Blank => {
                self.pass_over();
                Ok(())
            }
            EditLine::Requests { block, request } => self.apply_request(
                alloc, block, request, bounds,
            ),
            EditLine::Wrong => Err(self.refuse()),
        }
    }

    /// Passes over the next line.
    fn pass_over(&mut self)
        requires { self.old.number < 2 ^ 32 - 1 }
        ensures after { (blocks : Option ℕ) (lines : List ParsedEdit) → IsEditing self.old blocks lines
            → IsEditing self.new blocks (lines ++ Passed ∷ []) }
        ensures order { (room : ℕ) → HasEditOrder self.old room → HasEditOrder self.new room }
        ensures number { self.new.number ≡ self.old.number + 1 }
    {
        self.number += 1;
    }

    /// The refusal of a next line that isn't of the grammar.
    fn refuse(&self) -> ScriptFault
        ensures { (blocks : Option ℕ) (room : ℕ) (lines : List ParsedEdit) → IsEditing self.now blocks lines → HasEditOrder self.now room
            → Stops result room (edits_after blocks [] (lines ++ Bad ∷ [])) }
    {
        refused(self.number, ScriptKind::Line)
    }

    /// Applies a request at a block.
    fn apply_request(
        &mut self,
        alloc: Global,
        block: u32,
        request: EditRequest,
        bounds: Bounds,
    ) -> Result<(), ScriptFault>
        requires order { HasEditOrder self.old bounds.room }
        requires number { self.old.number < 2 ^ 32 - 1 }
        requires sound { IsSoundRequest request }
        ensures after { OnOk result ((lines : List ParsedEdit) → IsEditing self.old bounds.blocks lines
            → IsEditing self.new bounds.blocks (lines ++ Requests block (request_data request) ∷ [])) }
        ensures order { OnOk result (HasEditOrder self.new bounds.room) }
        ensures number { OnOk result (self.new.number ≡ self.old.number + 1) }
        ensures stops { IfErr result (λ why. (lines : List ParsedEdit) → IsEditing self.old bounds.blocks lines
            → Stops why bounds.room (edits_after bounds.blocks [] (lines ++ Requests block (request_data request) ∷ []))) }
    {
        match fault_of_block(block, self.least, bounds) {
            Some(kind) => return Err(refused(self.number, kind)),
            None => {}
        }
        let command = match answer(alloc, &mut self.editor, request, self.number) {
            Ok(command) => command,
            Err(fault) => return Err(fault),
        };
        match give(&mut self.script, block, command, bounds.room) {
            Ok(()) => {
                self.least = block;
                self.number += 1;
                Ok(())
            }
            Err(fault) => Err(fault),
        }
    }
}

/// What the editor answers. A refusal names the line.
#[tactic(auto, unfolding(crate::specs::Edits::answered))]
fn answer(
    alloc: Global,
    editor: &mut Editor,
    request: EditRequest,
    line: u32,
) -> Result<Command, ScriptFault>
    requires { IsSoundRequest request }
    ensures answered { IfOk result (λ command. answered editor.old (request_data request) ≡ Becomes editor.new (content command)) }
    ensures range { IfOk result (λ command. IsInRange (content command)) }
    ensures refused { IfErr result (λ why. IsRefusal why (Place.Line line) (answered editor.old (request_data request))) }
{
    match request {
        EditRequest::Set { number, value } => set(editor, number, value, line),
        EditRequest::Undo => undo(alloc, editor, line),
        EditRequest::Redo => redo(alloc, editor, line),
        EditRequest::Rename(name) => rename(alloc, editor, &name),
        EditRequest::Load(voice) => load(alloc, editor, &voice),
        EditRequest::Store { slot } => Ok(Command::Store { slot }),
    }
}

/// Sets a parameter of the voice to a value, which may be above its greatest.
#[tactic(auto, unfolding(crate::specs::Edits::answered))]
fn set(editor: &mut Editor, number: u8, value: u32, line: u32) -> Result<Command, ScriptFault>
    requires { number ≤ 154 }
    ensures answered { IfOk result (λ command. answered editor.old (Sets number value) ≡ Becomes editor.new (content command)) }
    ensures range { IfOk result (λ command. IsInRange (content command)) }
    ensures refused { IfErr result (λ why. IsRefusal why (Place.Line line) (answered editor.old (Sets number value))) }
{
    if value > u32::from(greatest(number)) {
        return Err(refused(line, ScriptKind::Value));
    }
    match editor.set(number, value as u8) {
        Ok(command) => Ok(command),
        Err(_) => Err(refused(line, ScriptKind::Value)),
    }
}

#[tactic(auto, unfolding(crate::specs::Edits::answered))]
fn undo(alloc: Global, editor: &mut Editor, line: u32) -> Result<Command, ScriptFault>
    ensures answered { IfOk result (λ command. answered editor.old Undoes ≡ Becomes editor.new (content command)) }
    ensures range { IfOk result (λ command. IsInRange (content command)) }
    ensures refused { IfErr result (λ why. IsRefusal why (Place.Line line) (answered editor.old Undoes)) }
{
    match editor.undo(alloc) {
        Ok(command) => Ok(command),
        Err(EditFault::NothingToUndo) => Err(refused(line, ScriptKind::Undo)),
        Err(EditFault::Memory) => Err(ScriptFault::Memory),
        Err(_) => unreachable!(),
    }
}

#[tactic(auto, unfolding(crate::specs::Edits::answered))]
fn redo(alloc: Global, editor: &mut Editor, line: u32) -> Result<Command, ScriptFault>
    ensures answered { IfOk result (λ command. answered editor.old Redoes ≡ Becomes editor.new (content command)) }
    ensures range { IfOk result (λ command. IsInRange (content command)) }
    ensures refused { IfErr result (λ why. IsRefusal why (Place.Line line) (answered editor.old Redoes)) }
{
    match editor.redo(alloc) {
        Ok(command) => Ok(command),
        Err(EditFault::NothingToRedo) => Err(refused(line, ScriptKind::Redo)),
        Err(EditFault::Memory) => Err(ScriptFault::Memory),
        Err(_) => unreachable!(),
    }
}

/// Gives the voice a name of bytes up to 127.
#[tactic(auto, unfolding(crate::specs::Edits::answered))]
fn rename(alloc: Global, editor: &mut Editor, name: &[u8; 10]) -> Result<Command, ScriptFault>
    requires { first_high name.now ≡ None }
    ensures answered { IfOk result (λ command. answered editor.old (Renames name.now) ≡ Becomes editor.new (content command)) }
    ensures range { IfOk result (λ command. IsInRange (content command)) }
    ensures refused { IfErr result (λ why. why ≡ ScriptFault.Memory) }
{
    match editor.rename(alloc, name) {
        Ok(command) => Ok(command),
        Err(EditFault::NameByte { .. }) => unreachable!(),
        Err(_) => Err(ScriptFault::Memory),
    }
}

#[tactic(auto, unfolding(crate::specs::Edits::answered))]
fn load(alloc: Global, editor: &mut Editor, voice: &Voice) -> Result<Command, ScriptFault>
    ensures answered { IfOk result (λ command. answered editor.old (Loads voice.now) ≡ Becomes editor.new (content command)) }
    ensures range { IfOk result (λ command. IsInRange (content command)) }
    ensures refused { IfErr result (λ why. why ≡ ScriptFault.Memory) }
{
    match editor.load(alloc, voice) {
        Ok(command) => Ok(command),
        Err(_) => Err(ScriptFault::Memory),
    }
}
