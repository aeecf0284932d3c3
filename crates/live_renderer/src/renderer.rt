//! The end of a line that plays what it takes: each entry is logged at the present block and applied, and block after block is rendered.
ghost use Rattle.std.specs.Prelude.{◌≡◌, ◌+◌, ◌<◌, ◌≤◌, ◌++◌, ◌∷◌, [], MatchBool, IfOk, IfErr, OnOk, OnErr};
ghost use Rattle.std.specs.Prelude.{length, vec_len, vec_capacity};
ghost use Rattle.command_set.specs.Command.{IsInRange};
ghost use Rattle.command_set.specs.Entries.{EntryData, journal_data};
ghost use Rattle.command_queue.specs.Ends.{took, found_empty, WasEmpty};
ghost use Rattle.instrument.specs.State.{State, apply};
ghost use Rattle.instrument.specs.Instrument.{IsIn};
ghost use Rattle.instrument.specs.Journal.{sound};
ghost use Rattle.instrument.specs.Logging.{logged_at};
ghost use Rattle.live_renderer.specs.Renderer.{new_renderer, rendered, IsLive, Logs, KeepsSound, TookOne, StoppedBy, StoppedEarly};

use crate::stop::{Stop, TakeOne, Taken};
use command_queue::{Line, TakeEnd};
use command_set::Logged;
use instrument::{Engine, Instrument};
use std::alloc::{AllocError, Global};
use std::marker::Model;
use std::sync::Wait;

/// The end of a line that takes, with a running instrument and the journal of what it took. Contracts see the end, the journal, the blocks rendered,
/// and how many more entries find room without memory.
#[derive(Drop)]
pub struct LiveRenderer {
    taker: TakeEnd,
    journal: Vec<Logged>,
    blocks: u32,
    spare: usize,
    instrument: Instrument,
}

impl Model for LiveRenderer {
    ghost use Rattle.std.specs.Prelude.{◌≡◌, ◌+◌, ◌≤◌, vec_len, vec_capacity};
    ghost use Rattle.command_set.specs.Entries.{journal_data};
    ghost use Rattle.instrument.specs.Instrument.{IsIn};
    ghost use Rattle.instrument.specs.Journal.{state_at};
    ghost use Rattle.live_renderer.specs.Renderer.{RendererView, IsLive};

    ghost Value = { RendererView };

    ghost view = { λ s. record { taker = s.taker; journal = journal_data s.journal.items; blocks = s.blocks; spare = s.spare } };

    ghost invariant = { λ s. IsLive (record { taker = s.taker; journal = journal_data s.journal.items; blocks = s.blocks; spare = s.spare })
        × IsIn s.instrument (state_at (journal_data s.journal.items) s.blocks)
        × (vec_len s.journal + s.spare ≤ vec_capacity s.journal) };
}

/// Want of memory, with the end that was given.
#[derive(Drop)]
pub struct NoRenderer {
    /// The end.
    pub taker: TakeEnd,
}

// Takes an entry, if one waits, logs it at the block and applies it.
fn log_next<R: Wait>(
    rt: &R,
    line: &Line,
    taker: &mut TakeEnd,
    journal: &mut Vec<Logged>,
    instrument: &mut Instrument,
    block: u32,
) -> bool
    requires line { taker.old.line ≡ line.now }
    requires room { vec_len journal.old < vec_capacity journal.old }
    ensures capacity { vec_capacity journal.new ≡ vec_capacity journal.old }
    ensures got { MatchBool result ((x : EntryData) × (taker.new ≡ took taker.old x)
        × (journal_data journal.new.items ≡ journal_data journal.old.items ++ logged_at block x ∷ [])
        × (vec_len journal.new ≡ vec_len journal.old + 1) × (x.script < length line.now.quotas) × IsInRange x.command
        × ((s : State) → IsIn instrument.old s → IsIn instrument.new (apply s x.command)))
        ((taker.new ≡ found_empty taker.old) × WasEmpty taker.old × (journal.new ≡ journal.old) × (instrument.new ≡ instrument.old)) }
{
    match line.take(rt, taker) {
        Some(entry) => {
            instrument.apply(&entry.command);
            journal.push_reserved(Logged { block, entry });
            true
        }
        None => false,
    }
}

impl LiveRenderer {
    /// A renderer over an end that has taken nothing, with room for so many entries.
    ///
    /// The one error is want of memory.
    pub fn new(
        alloc: Global,
        taker: TakeEnd,
        engine: Engine,
        reserve: usize,
    ) -> Result<LiveRenderer, NoRenderer>
        requires { taker.list ≡ [] }
        ensures new { IfOk result (λ r. r ≡ new_renderer taker reserve) }
        ensures live { IfOk result (λ r. IsLive r) }
        ensures none { IfErr result (λ none. none.taker ≡ taker) }
    {
        let Ok(instrument) = Instrument::new(alloc, engine) else {
            return Err(NoRenderer { taker });
        };
        let Ok(journal) = Vec::with_capacity(alloc, reserve) else {
            return Err(NoRenderer { taker });
        };
        Ok(LiveRenderer {
            taker,
            journal,
            blocks: 0,
            spare: reserve,
            instrument,
        })
    }

    // Makes room for an entry and takes one, if one waits.
    fn take_next<R: Wait>(&mut self, rt: &R, line: &Line) -> Result<bool, AllocError>
        requires { self.old.taker.line ≡ line.now }
        ensures taken { IfOk result (λ taken. MatchBool taken (Logs 1 self.old self.new × (self.new.taker.empties ≡ self.old.taker.empties))
            ((self.new ≡ record self.old { taker = found_empty self.old.taker }) × WasEmpty self.old.taker)) }
        ensures err { OnErr result (self.new ≡ self.old) }
        ensures kept { KeepsSound self.old self.new }
        ensures live { IsLive self.new }
    {
        self.journal.reserve(1)?;
        let is_taken = log_next(
            rt,
            line,
            &mut self.taker,
            &mut self.journal,
            &mut self.instrument,
            self.blocks,
        );
        if is_taken {
            self.spare = self.spare.saturating_sub(1);
        }
        Ok(is_taken)
    }

    /// Takes what waits, up to as many entries as the line has places, and makes room for each. Each is logged at the present block and applied.
    ///
    /// The one error is want of memory, and then the entries that were taken are logged and applied.
    pub fn take_ready<R: Wait>(
        &mut self,
        rt: &R,
        alloc: Global,
        line: &Line,
    ) -> Result<Taken, AllocError>
        requires { self.old.taker.line ≡ line.now }
        ensures logged { IfOk result (λ taken. Logs taken.count self.old self.new) }
        ensures stopped { IfOk result (λ taken. StoppedBy taken.stop taken.count self.old self.new) }
        ensures early { OnErr result (StoppedEarly self.old self.new) }
        ensures kept { KeepsSound self.old self.new }
        ensures live { IsLive self.new }
    {
        let _ = alloc;
        let places = line.places();
        // Here the proof reads what holds of every renderer.
        let _ = &self.spare;
        for count in 0..places {
            if !self.take_next(rt, line)? {
                return Ok(Taken {
                    count,
                    stop: Stop::Empty,
                });
            }
        }
        Ok(Taken {
            count: places,
            stop: Stop::Budget,
        })
    }

    /// Takes one entry, if there is room for it and one waits. It is logged at the present block and applied. It asks for no memory.
    pub fn take_one<R: Wait>(&mut self, rt: &R, line: &Line) -> TakeOne
        requires { self.old.taker.line ≡ line.now }
        ensures took { TookOne result self.old self.new }
        ensures kept { KeepsSound self.old self.new }
        ensures live { IsLive self.new }
    {
        if self.spare == 0 {
            return TakeOne::NoRoom;
        }
        let block = self.blocks;
        let is_taken = log_next(
            rt,
            line,
            &mut self.taker,
            &mut self.journal,
            &mut self.instrument,
            block,
        );
        if is_taken {
            self.spare -= 1;
            TakeOne::Got
        } else {
            TakeOne::Empty
        }
    }

    /// Renders the next block of 64 samples.
    pub fn render(&mut self, out: &mut [i16; 64])
        requires { self.old.blocks < 4294967295 }
        ensures sound { out.new ≡ sound self.old.journal self.old.blocks }
        ensures rendered { self.new ≡ rendered self.old }
        ensures live { IsLive self.new }
    {
        self.instrument.block(out);
        self.blocks += 1;
    }

    /// The entries that were taken, each with its block.
    pub fn journal(&self) -> &[Logged]
        ensures journal { journal_data result.now ≡ self.now.journal }
        ensures live { IsLive self.now }
    {
        self.journal.as_slice()
    }

    /// How many blocks were rendered.
    pub fn blocks(&self) -> u32
        ensures { result ≡ self.now.blocks }
    {
        self.blocks
    }

    /// How many more entries find room without memory.
    pub fn spare(&self) -> usize
        ensures { result ≡ self.now.spare }
    {
        self.spare
    }

    /// The end that took, and the journal.
    pub fn into_parts(self) -> (TakeEnd, Vec<Logged>)
        ensures taker { result.0 ≡ self.taker }
        ensures journal { journal_data result.1.items ≡ self.journal }
        ensures live { IsLive self }
    {
        (self.taker, self.journal)
    }
}
