//! The editor: a voice with its kept changes, and the command that each act, undo and redo answers.

ghost use Rattle.std.specs.Prelude.{◌≡◌, ◌≤◌, ◌↔◌, ℕ, [], IsOk, None, IfOk, IfErr, OnOk, OnErr, IfSome, Some, ◌⊎◌, slice_set, ◌<◌};
ghost use Rattle.voice_record.specs.Voice.{greatest_value};
ghost use Rattle.command_set.specs.Command.{content, IsInRange, SetsParameter, LoadsVoice};
ghost use Rattle.command_set.specs.VoiceAfter.{Turns};
ghost use Rattle.editor.specs.History.{acted, begun, undone, redone, IsWholeNext, OneParameter, WholeVoice};
ghost use Rattle.editor.specs.Names.{first_high, renamed};

use crate::change::{Change, Setting};
use crate::fault::EditFault;
use crate::revise::{Changes, keep, revise};
use circular_buffer::HeapCircularBuffer;
use command_set::Command;
use std::alloc::{AllocError, Global};
use std::marker::Model;
use voice_record::{Voice, parameter};

/// A voice that is edited, seen as its editing history: the voice, and what undo and redo come back to.
#[derive(Drop)]
pub struct Editor {
    voice: Voice,
    past: Changes,
    future: Changes,
}

impl Model for Editor {
    ghost use Rattle.editor.specs.History.{History};

    ghost Value = { History };

    ghost use Rattle.editor.specs.Changes.{history_of, AreRings};

    ghost view = { λ editor. history_of editor.voice editor.past editor.future };

    ghost invariant = { λ editor. AreRings editor.past editor.future };
}

/// The place of the first byte of a name that is above 127.
fn high_byte(name: &[u8; 10]) -> Option<usize>
    ensures place { result ≡ first_high name.now }
    ensures within { IfSome result (λ place. place < 10) }
{
    name.iter().position(|byte| *byte > 127)
}

/// The voice with another name, of bytes up to 127.
fn with_name(voice: &Voice, name: &[u8; 10]) -> Voice
    requires { first_high name.now ≡ None }
    ensures { result ≡ renamed voice.now name.now }
{
    let mut fields = voice.bytes();
    fields[parameter::NAME as usize..].copy_from_slice(name);
    Voice::from_bytes(&fields)
}

impl Editor {
    /// An editor of a voice that can undo at most `depth` acts, 1 to 1000. `AllocError` is want of memory.
    pub fn new(alloc: Global, voice: &Voice, depth: usize) -> Result<Editor, AllocError>
        requires { (1 ≤ depth) × (depth ≤ 1000) }
        ensures { IfOk result (λ editor. editor ≡ begun voice.now depth) }
    {
        let past = HeapCircularBuffer::with_capacity(alloc, depth)?;
        let future = HeapCircularBuffer::with_capacity(alloc, depth)?;
        Ok(Editor {
            voice: *voice,
            past,
            future,
        })
    }

    /// Sets a parameter of the voice, 0 to 154. It allocates nothing. Setting the value that a parameter has is an act too.
    pub fn set(&mut self, number: u8, value: u8) -> Result<Command, EditFault>
        requires { number ≤ 154 }
        ensures accepted { IsOk result ↔ (value ≤ greatest_value number) }
        ensures acted { OnOk result (self.new ≡ acted self.old (OneParameter number) (slice_set self.old.voice number value)) }
        ensures command { IfOk result (λ command. content command ≡ SetsParameter number value) }
        ensures follows { IfOk result (λ command. Turns self.old.voice (content command) self.new.voice) }
        ensures range { IfOk result (λ command. IsInRange (content command)) }
        ensures refused { IfErr result (λ fault. fault ≡ EditFault.ValueHigh number value (greatest_value number)) }
        ensures kept { OnErr result (self.new ≡ self.old) }
    {
        let old = self.voice.get(number);
        self.voice.set(number, value)?;
        let setting = Setting { number, value: old };
        keep(&mut self.past, &mut self.future, Change::Parameter(setting));
        Ok(Command::Param { number, value })
    }

    /// Gives the voice another name, of ten bytes up to 127.
    pub fn rename(&mut self, alloc: Global, name: &[u8; 10]) -> Result<Command, EditFault>
        ensures acted { OnOk result (self.new ≡ acted self.old WholeVoice (renamed self.old.voice name.now)) }
        ensures command { IfOk result (λ command. content command ≡ LoadsVoice self.new.voice) }
        ensures follows { IfOk result (λ command. Turns self.old.voice (content command) self.new.voice) }
        ensures range { IfOk result (λ command. IsInRange (content command)) }
        ensures high { (place : ℕ) → (result ≡ Err (EditFault.NameByte place)) ↔ (first_high name.now ≡ Some place) }
        ensures refused { IfErr result (λ fault. (fault ≡ EditFault.Memory) ⊎ ((place : ℕ) × (fault ≡ EditFault.NameByte place))) }
        ensures kept { OnErr result (self.new ≡ self.old) }
    {
        if let Some(place) = high_byte(name) {
            return Err(EditFault::NameByte { place: place as u8 });
        }
        let other = with_name(&self.voice, name);
        Ok(self.replace(alloc, &other)?)
    }

    /// Loads another voice.
    pub fn load(&mut self, alloc: Global, voice: &Voice) -> Result<Command, EditFault>
        ensures acted { OnOk result (self.new ≡ acted self.old WholeVoice voice.now) }
        ensures command { IfOk result (λ command. content command ≡ LoadsVoice voice.now) }
        ensures follows { IfOk result (λ command. Turns self.old.voice (content command) self.new.voice) }
        ensures range { IfOk result (λ command. IsInRange (content command)) }
        ensures refused { IfErr result (λ fault. fault ≡ EditFault.Memory) }
        ensures kept { OnErr result (self.new ≡ self.old) }
    {
        Ok(self.replace(alloc, voice)?)
    }

    // The act of another voice.
    fn replace(&mut self, alloc: Global, voice: &Voice) -> Result<Command, AllocError>
        ensures acted { OnOk result (self.new ≡ acted self.old WholeVoice voice.now) }
        ensures command { IfOk result (λ command. content command ≡ LoadsVoice voice.now) }
        ensures range { IfOk result (λ command. IsInRange (content command)) }
        ensures kept { OnErr result (self.new ≡ self.old) }
    {
        // For its contract alone: a voice is in range, and so is the command that loads it.
        let _ = voice.get(0);
        let command = Command::Voice(Box::new(alloc, *voice)?);
        let old = Box::new(alloc, self.voice)?;
        keep(&mut self.past, &mut self.future, Change::Whole(old));
        self.voice = *voice;
        Ok(command)
    }

    /// Undoes the latest act that is still kept. Memory is wanted where the answer is a whole voice.
    pub fn undo(&mut self, alloc: Global) -> Result<Command, EditFault>
        ensures undone { IfOk result (λ command. undone self.old ≡ Some (self.new, content command)) }
        ensures follows { IfOk result (λ command. Turns self.old.voice (content command) self.new.voice) }
        ensures range { IfOk result (λ command. IsInRange (content command)) }
        ensures nothing { (result ≡ Err EditFault.NothingToUndo) ↔ (self.old.past ≡ []) }
        ensures refused { IfErr result (λ fault. (fault ≡ EditFault.NothingToUndo) ⊎ ((fault ≡ EditFault.Memory) × IsWholeNext self.old.past)) }
        ensures kept { OnErr result (self.new ≡ self.old) }
    {
        match revise(alloc, &mut self.voice, &mut self.past, &mut self.future)? {
            Some(command) => Ok(command),
            None => Err(EditFault::NothingToUndo),
        }
    }

    /// Does the act again that was undone last. Memory is wanted where the answer is a whole voice.
    pub fn redo(&mut self, alloc: Global) -> Result<Command, EditFault>
        ensures redone { IfOk result (λ command. redone self.old ≡ Some (self.new, content command)) }
        ensures follows { IfOk result (λ command. Turns self.old.voice (content command) self.new.voice) }
        ensures range { IfOk result (λ command. IsInRange (content command)) }
        ensures nothing { (result ≡ Err EditFault.NothingToRedo) ↔ (self.old.future ≡ []) }
        ensures refused { IfErr result (λ fault. (fault ≡ EditFault.NothingToRedo) ⊎ ((fault ≡ EditFault.Memory) × IsWholeNext self.old.future)) }
        ensures kept { OnErr result (self.new ≡ self.old) }
    {
        match revise(alloc, &mut self.voice, &mut self.future, &mut self.past)? {
            Some(command) => Ok(command),
            None => Err(EditFault::NothingToRedo),
        }
    }

    /// The voice.
    pub fn voice(&self) -> &Voice
        ensures { result.now ≡ self.now.voice }
    {
        &self.voice
    }
}
