//! A schedule as a program that tests compare with: each block is played anew from the journal so far, by the instrument itself.

ghost use Rattle.std.specs.Prelude.{◌≡◌, ◌<◌, ◌≤◌};
ghost use Rattle.command_set.specs.Command.{IsInRange, content};

use command_set::{Command, MODULATION_WHEEL};
use dx_tables::Engine;
use instrument::Instrument;
use std::alloc::{AllocError, Global};

/// An entry, whose command is written by a number.
#[derive(Clone, Copy)]
pub(crate) struct ReferenceEntry {
    pub(crate) script: u32,
    pub(crate) seq: u32,
    pub(crate) sent_at: u32,
    pub(crate) number: u32,
}

/// The core of a schedule of three scripts.
#[derive(Drop)]
pub(crate) struct ReferenceCore {
    pub(crate) places: usize,
    pub(crate) waiting: Vec<ReferenceEntry>,
    pub(crate) journal: Vec<(u32, ReferenceEntry)>,
    pub(crate) blocks: u32,
    pub(crate) accepted: [u32; 3],
    pub(crate) was_refused: [bool; 3],
}

/// The command of a number: notes, bends and the wheel.
pub(crate) fn command_of(number: u32) -> Command
    ensures { IsInRange (content result) }
{
    let key = (number / 4 % 128) as u8;
    if number % 4 == 0 {
        Command::NoteOn {
            channel: 0,
            key,
            velocity: 100,
        }
    } else if number % 4 == 1 {
        Command::NoteOff { channel: 0, key }
    } else if number % 4 == 2 {
        Command::Bend {
            channel: 0,
            value: (number / 4 % 16384) as u16,
        }
    } else {
        Command::Control {
            channel: 0,
            number: MODULATION_WHEEL,
            value: key,
        }
    }
}

impl ReferenceCore {
    pub(crate) fn new(alloc: Global, places: usize) -> ReferenceCore {
        ReferenceCore {
            places,
            waiting: Vec::new(alloc),
            journal: Vec::new(alloc),
            blocks: 0,
            accepted: [0; 3],
            was_refused: [false; 3],
        }
    }

    /// The number of the entry, or none where the script is refused.
    pub(crate) fn send(
        &mut self,
        script: u32,
        sent_at: u32,
        number: u32,
    ) -> Result<Option<u32>, AllocError>
        requires { script < 3 }
    {
        if self.waiting.len() >= self.places {
            self.was_refused[script as usize] = true;
            return Ok(None);
        }
        let seq = self.accepted[script as usize];
        self.waiting.push(ReferenceEntry {
            script,
            seq,
            sent_at,
            number,
        })?;
        self.accepted[script as usize] = seq.wrapping_add(1);
        Ok(Some(seq))
    }

    pub(crate) fn take(&mut self) -> Result<bool, AllocError> {
        if self.waiting.is_empty() {
            return Ok(false);
        }
        let first = self.waiting.remove(0);
        self.journal.push((self.blocks, first))?;
        Ok(true)
    }

    pub(crate) fn settle(&mut self) -> Result<u32, AllocError> {
        let mut count = 0u32;
        for entry in &self.waiting {
            self.journal.push((self.blocks, *entry))?;
            count = count.wrapping_add(1);
        }
        self.waiting.clear();
        Ok(count)
    }

    pub(crate) fn render(&mut self, alloc: Global) -> Result<[i16; 64], AllocError> {
        let mut instrument = Instrument::new(alloc, Engine::One)?;
        let mut samples = [0i16; 64];
        for block in 0..self.blocks {
            play_block(&mut instrument, &self.journal, block, &mut samples);
        }
        play_block(&mut instrument, &self.journal, self.blocks, &mut samples);
        self.blocks = self.blocks.wrapping_add(1);
        Ok(samples)
    }
}

fn play_block(
    instrument: &mut Instrument,
    journal: &[(u32, ReferenceEntry)],
    block: u32,
    samples: &mut [i16; 64],
) {
    for logged in journal {
        if logged.0 == block {
            instrument.apply(&command_of(logged.1.number));
        }
    }
    instrument.block(samples);
}
