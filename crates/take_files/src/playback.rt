//! A journal that is played.

ghost use Rattle.std.specs.Prelude.{◌≡◌, ◌≤◌, ◌==◌, ◌<◌, ◌+◌, ◌*◌, ◌++◌, All, IfOk, length, map, take_while};
ghost use Rattle.command_set.specs.Command.{IsInRange, content};
ghost use Rattle.command_set.specs.Entries.{journal_data};
ghost use Rattle.instrument.specs.State.{State};
ghost use Rattle.instrument.specs.Journal.{applied, sound};
ghost use Rattle.instrument.specs.Instrument.{IsIn};
ghost use Rattle.take_files.specs.Files.{AreOrdered, wav_blocks};

use crate::wav::wav_block;
use arrayvec::ArrayVec;
use command_set::Logged;
use instrument::{Engine, Instrument};
use std::alloc::{AllocError, Global};
use std::marker::Model;

/// A chunk of a sound file: the bytes of up to 64 blocks.
pub type Chunk = ArrayVec<u8, 8192>;

/// A journal that is played on one instrument, block after block. Contracts see the journal, and the block up to which
/// it was played.
#[derive(Drop)]
pub struct Playback<'a> {
    instrument: Instrument,
    journal: &'a [Logged],
    /// How many entries were taken.
    next: usize,
    block: u32,
}

impl<'a> Model for Playback<'a> {
    ghost use Rattle.std.specs.Prelude.{◌≤◌, drop, length};
    ghost use Rattle.command_set.specs.Entries.{journal_data};
    ghost use Rattle.take_files.specs.Playback.{PlaybackView};
    ghost use Rattle.take_files.specs.Playing.{IsPlaying};

    ghost Value = { PlaybackView };

    ghost view = { λ p. record { journal = journal_data p.journal.now; block = p.block } };

    ghost invariant = { λ p. (p.next ≤ length p.journal.now)
        × IsPlaying p.instrument (drop p.next p.journal.now) (journal_data p.journal.now) p.block };
}

impl<'a> Playback<'a> {
    /// The journal from its beginning, whose blocks don't fall. No later call asks for memory.
    pub fn new(
        alloc: Global,
        engine: Engine,
        journal: &'a [Logged],
    ) -> Result<Playback<'a>, AllocError>
        requires { AreOrdered 0 (journal_data journal.now) }
        ensures { IfOk result (λ p. p ≡ record { journal = journal_data journal.now; block = 0 }) }
    {
        Ok(Playback {
            instrument: Instrument::new(alloc, engine)?,
            journal,
            next: 0,
            block: 0,
        })
    }

    /// The samples of the next block: what the instrument renders after the commands that were taken up to it.
    pub fn render(&mut self, out: &mut [i16; 64])
        requires { self.old.block < 4294967295 }
        ensures samples { out.new ≡ sound self.old.journal self.old.block }
        ensures played { self.new ≡ record self.old { block = self.old.block + 1 } }
    {
        let (_, waiting) = self.journal.split_at(self.next);
        let count = count_at(waiting, self.block);
        let (taken, _) = waiting.split_at(count);
        apply_all(&mut self.instrument, taken);
        self.instrument.block(out);
        self.next += count;
        self.block += 1;
    }

    /// The bytes of the next blocks, up to 64, in the place of the chunk.
    pub fn render_chunk(&mut self, count: u32, into: &mut Chunk)
        requires few { count ≤ 64 }
        requires blocks { self.old.block + count ≤ 4294967295 }
        ensures bytes { wav_blocks self.old.journal (self.old.block + count) ≡ wav_blocks self.old.journal self.old.block ++ into.new.items }
        ensures played { self.new ≡ record self.old { block = self.old.block + count } }
        ensures size { length into.new.items ≡ 128 * count }
    {
        into.clear();
        let mut samples = [0i16; 64];
        'playing: for _ in 0..count {
            self.render(&mut samples);
            push_block(into, &wav_block(&samples));
        }
    }
}

/// Adds the bytes of a block to a chunk that has room for them.
fn push_block(into: &mut Chunk, bytes: &[u8; 128])
    requires { length into.old.items ≤ 8064 }
    ensures bytes { into.new.items ≡ into.old.items ++ bytes.now }
    ensures size { length into.new.items ≡ length into.old.items + 128 }
{
    let _ = into.try_extend_from_slice(bytes);
}

/// How many entries at the beginning were taken at the block.
fn count_at(journal: &[Logged], block: u32) -> usize
    ensures count { result ≡ length (take_while (λ l. l.block == block) journal.now) }
    ensures within { result ≤ length journal.now }
{
    journal
        .iter()
        .take_while(|logged| logged.block == block)
        .count()
}

/// Applies the commands of the entries, one after the other.
fn apply_all(instrument: &mut Instrument, entries: &[Logged])
    requires { All (λ l. IsInRange (content l.entry.command)) entries.now }
    ensures { (s : State) → IsIn instrument.old s
        → IsIn instrument.new (applied s (map (λ l. content l.entry.command) entries.now)) }
{
    for logged in entries {
        instrument.apply(&logged.entry.command);
    }
}
