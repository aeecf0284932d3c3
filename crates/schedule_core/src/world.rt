//! The world: a line of entries, a journal of those that were taken, and the instrument that plays them.

ghost use Rattle.std.specs.Prelude.{ℕ, ◌≡◌, ◌+◌, ◌<◌, ◌≤◌, ◌↔◌, IsTrue, IfOk, OnOk, OnErr, length, replicate};
ghost use Rattle.command_set.specs.Command.{IsInRange, content};
ghost use Rattle.command_set.specs.Entries.{journal_data};
ghost use Rattle.instrument.specs.Journal.{sound};
ghost use Rattle.schedule_core.specs.Core.{accepted_of, refusals_of, opening, step, run, Take, Settle, Render};
ghost use Rattle.schedule_core.specs.Schedule.{IsLegal};
ghost use Rattle.schedule_core.specs.World.{HasSent};

use crate::mark::Mark;
use crate::world_refusal::WorldRefusal;
use command_set::{Command, Entry, Logged};
use dx_tables::Engine;
use instrument::Instrument;
use std::alloc::{AllocError, Global};
use std::collections::VecDeque;
use std::marker::Model;

/// Scripts send commands into one line, and one taker logs them and plays them, block by block: all of it on one thread. Contracts
/// see the core of the schedule: the places, the entries that wait, the journal, the blocks that were rendered, and what was
/// accepted and refused of each script.
#[derive(Drop)]
pub struct World {
    places: usize,
    waiting: VecDeque<Entry>,
    journal: Vec<Logged>,
    blocks: u32,
    marks: Vec<Mark>,
    instrument: Instrument,
}

impl Model for World {
    ghost use Rattle.std.specs.Prelude.{◌≤◌, All};
    ghost use Rattle.command_set.specs.Command.{IsInRange, content};
    ghost use Rattle.schedule_core.specs.Core.{Core};
    ghost use Rattle.schedule_core.specs.Fields.{Stands, core_of};

    ghost Value = { Core };

    ghost view = { λ w. core_of w.places w.waiting.items w.journal.items w.blocks w.marks.items };

    ghost invariant = { λ w. (w.places ≤ 1000000)
        × Stands w.places w.waiting.items w.journal.items w.blocks w.marks.items w.instrument
        (core_of w.places w.waiting.items w.journal.items w.blocks w.marks.items)
        × All (λ e. IsInRange (content e.command)) w.waiting.items };
}

impl World {
    /// A world of so many places in the line, 1 to 1,000,000, and scripts, 1 to 256. Nothing was sent.
    ///
    /// The one error is want of memory.
    pub fn new(alloc: Global, places: usize, ends: u32, engine: Engine) -> Result<World, AllocError>
        requires places { (1 ≤ places) × (places ≤ 1000000) }
        requires ends { (1 ≤ ends) × (ends ≤ 256) }
        ensures opening { IfOk result (λ world. world ≡ opening places ends) }
    {
        let marks = vec![in alloc; Mark::new(); ends as usize]?;
        let instrument = Instrument::new(alloc, engine)?;
        Ok(World {
            places,
            waiting: VecDeque::new(alloc),
            journal: Vec::new(alloc),
            blocks: 0,
            marks,
            instrument,
        })
    }

    /// Sends a command of a script that was due at a block: the entry goes last into the line, and its number in the script,
    /// from 0 on, is answered.
    ///
    /// `Full` comes exactly where as many entries wait as there are places, and sets the script's mark. `Memory` is want of memory.
    /// Both hand the command back and change no entry.
    pub fn send(
        &mut self,
        alloc: Global,
        script: u32,
        sent_at: u32,
        command: Command,
    ) -> Result<u32, WorldRefusal>
        requires script { script < length self.old.scripts }
        requires count { length (accepted_of self.old script) < 4294967295 }
        requires range { IsInRange (content command) }
        ensures sent { HasSent self.old script sent_at command result self.new }
        ensures legal { IsLegal self.new }
    {
        let _ = alloc;
        let mark = self.marks[script as usize];
        if self.waiting.len() == self.places {
            self.marks[script as usize] = mark.refuse();
            return Err(WorldRefusal::Full(command));
        }
        let entry = Entry {
            script,
            seq: mark.accepted,
            sent_at,
            command,
        };
        match self.waiting.push_back(entry) {
            Ok(()) => {
                self.marks[script as usize] = mark.accept();
                Ok(mark.accepted)
            }
            Err(refused) => Err(WorldRefusal::Memory(refused.value.command)),
        }
    }

    /// Takes the first entry that waits: it is logged at the present block and applied. False comes exactly where none waits.
    ///
    /// The one error is want of memory, and then nothing happened.
    pub fn take(&mut self, alloc: Global) -> Result<bool, AllocError>
        ensures some { IfOk result (λ taken. IsTrue taken ↔ (0 < length self.old.waiting)) }
        ensures taken { OnOk result (self.new ≡ step self.old Take) }
        ensures err { OnErr result (self.new ≡ self.old) }
        ensures legal { IsLegal self.new }
    {
        let _ = alloc;
        if self.waiting.is_empty() {
            return Ok(false);
        }
        self.journal.reserve(1)?;
        match self.waiting.pop_front() {
            Some(entry) => {
                self.instrument.apply(&entry.command);
                self.journal.push_reserved(Logged {
                    block: self.blocks,
                    entry,
                });
                Ok(true)
            }
            None => Ok(false),
        }
    }

    /// Takes until none waits, and answers how many were taken.
    ///
    /// The one error is want of memory, and then those that were taken stay taken.
    pub fn settle(&mut self, alloc: Global) -> Result<u32, AllocError>
        ensures count { IfOk result (λ count. count ≡ length self.old.waiting) }
        ensures settled { OnOk result (self.new ≡ step self.old Settle) }
        ensures err { OnErr result ((k : ℕ) × (k ≤ length self.old.waiting) × (self.new ≡ run self.old (replicate k Take))) }
        ensures legal { IsLegal self.new }
    {
        // Here the proof reads what holds of every world.
        let _ = &self.places;
        let mut count = 0;
        while self.take(alloc)? {
            count += 1;
        }
        Ok(count)
    }

    /// Renders the next block of 64 samples. It asks for no memory and refuses nothing.
    pub fn render(&mut self, out: &mut [i16; 64])
        requires { self.old.blocks < 4294967295 }
        ensures sound { out.new ≡ sound self.old.journal self.old.blocks }
        ensures rendered { self.new ≡ step self.old Render }
        ensures legal { IsLegal self.new }
    {
        self.instrument.block(out);
        self.blocks += 1;
    }

    /// The entries that were taken, each with its block.
    pub fn journal(&self) -> &[Logged]
        ensures journal { journal_data result.now ≡ self.now.journal }
        ensures legal { IsLegal self.now }
    {
        self.journal.as_slice()
    }

    /// How many blocks were rendered.
    pub fn blocks(&self) -> u32
        ensures { result ≡ self.now.blocks }
    {
        self.blocks
    }

    /// Whether a send of the script was ever refused.
    pub fn was_refused(&self, script: u32) -> bool
        requires { script < length self.now.scripts }
        ensures { IsTrue result ↔ (0 < refusals_of self.now script) }
    {
        0 < self.marks[script as usize].refusals
    }
}
