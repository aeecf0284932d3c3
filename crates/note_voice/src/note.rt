//! A note, idle or sounding.
ghost use Rattle.std.specs.Prelude.{◌≡◌, ◌≤◌, ◌^◌, ◌+◌, ℕ, length, pos, neg_ℤ, ◌≤ℤ◌, unsigned_abs};
ghost use Rattle.note_voice.specs.Mix.{IsAdded, IsSmall};
ghost use Rattle.operator_kernel.specs.Operator.{feedback_state_of};
ghost use Rattle.algorithm_bus.specs.Signals.{note_output};
ghost use Rattle.algorithm_bus.specs.NoteBlocks.{block_input};
ghost use Rattle.note_voice.specs.Note.{NoteData, begun, note_released, after_block, feedback_state_before, note_input, note_sample};

use crate::sound::sound_alone;
use crate::sounding::Sounding;
use algorithm_bus::NoteBlock;
use dx_tables::Tables;
use voice_record::Voice;

/// A note of six operators, or none. It sounds block by block, 64 samples at 44100 Hz each.
#[derive(Clone, Copy)]
pub struct Note {
    sounding: Option<Sounding>,
}

impl Note {
    ghost use Rattle.note_voice.specs.Running.{IsNote, IsNoteBegun};

    /// A note that is silent until it is started.
    pub fn idle() -> Note
        ensures { IsNote result None }
    {
        Note { sounding: None }
    }

    /// Begins a fresh note, with phases, gains, envelopes and feedback from the start: nothing of an earlier note stays.
    /// Of the switch, 0 to 63, bit 5 is operator 1 and bit 0 operator 6. Keys are 0 to 127, velocities 1 to 127.
    pub fn start(&mut self, tables: &Tables, voice: &Voice, switch: u8, key: u8, velocity: u8)
        requires switch { switch ≤ 63 }
        requires key { key ≤ 127 }
        requires velocity { (1 ≤ velocity) × (velocity ≤ 127) }
        ensures { IsNote self.new (Some (begun voice.now switch key velocity)) }
    {
        self.sounding = Some(Sounding::start(tables, voice, switch, key, velocity));
    }

    /// Releases the key. A second release does nothing, nor does one of an idle note.
    pub fn release(&mut self)
        ensures idle { IsNote self.old None → IsNote self.new None }
        ensures released { (n : NoteData) → IsNote self.old (Some n) → IsNote self.new (Some (note_released n)) }
    {
        if let Some(sounding) = &mut self.sounding {
            sounding.release();
        }
    }

    /// Adds the 64 samples of the next block, 2^24 for full scale of an operator, to a sum of notes whose values are at
    /// most 2^40 in size. The LFO's value is -64 to 2^24 + 64 and its depth 0 to 2^24, the bend is 0 to 16383 with 8192 for
    /// none, and the wheel is 0 to 127.
    pub fn block(
        &mut self,
        tables: &Tables,
        lfo: i32,
        lfo_depth: i32,
        bend: u16,
        wheel: u8,
        mix: &mut [i64; 64],
    )
        requires lfo_low { neg_ℤ (pos 64) ≤ℤ lfo }
        requires lfo_high { lfo ≤ℤ pos (2 ^ 24 + 64) }
        requires lfo_depth_low { pos 0 ≤ℤ lfo_depth }
        requires lfo_depth_high { lfo_depth ≤ℤ pos (2 ^ 24) }
        requires bend { bend ≤ 16383 }
        requires wheel { wheel ≤ 127 }
        requires mix { IsSmall (2 ^ 40) mix.old }
        ensures samples { (n : NoteData) → IsNote self.old (Some n) →
            IsAdded (note_sample (after_block n (record { lfo = lfo; lfo_depth = unsigned_abs lfo_depth; bend = bend; wheel = wheel }))
            (length n.past)) mix.old mix.new }
        ensures passed { (n : NoteData) → IsNote self.old (Some n) →
            IsNote self.new (Some (after_block n (record { lfo = lfo; lfo_depth = unsigned_abs lfo_depth; bend = bend; wheel = wheel }))) }
        ensures idle { IsNote self.old None → mix.new ≡ mix.old }
        ensures stays_idle { IsNote self.old None → IsNote self.new None }
        ensures small { (bound : ℕ) → IsSmall bound mix.old → IsSmall (bound + 2 ^ 31) mix.new }
    {
        if let Some(sounding) = &mut self.sounding {
            let mut block = sounding.begin_block(tables, lfo, lfo_depth as u32, bend, wheel);
            sound_alone(tables, &mut block, mix);
            sounding.end_block(block.feedback_state);
        }
    }

    /// What is to be run in the next block, of an idle note one with no sound, for a caller that runs the blocks of several notes together.
    /// The conditions are those of `block`; `end_block` then ends the block.
    pub fn begin_block(
        &mut self,
        tables: &Tables,
        lfo: i32,
        lfo_depth: i32,
        bend: u16,
        wheel: u8,
    ) -> NoteBlock
        requires lfo_low { neg_ℤ (pos 64) ≤ℤ lfo }
        requires lfo_high { lfo ≤ℤ pos (2 ^ 24 + 64) }
        requires lfo_depth_low { pos 0 ≤ℤ lfo_depth }
        requires lfo_depth_high { lfo_depth ≤ℤ pos (2 ^ 24) }
        requires bend { bend ≤ 16383 }
        requires wheel { wheel ≤ 127 }
        ensures block { (n : NoteData) → IsNote self.old (Some n) →
            block_input result ≡ note_input (after_block n (record { lfo = lfo; lfo_depth = unsigned_abs lfo_depth; bend = bend; wheel = wheel }))
            (length n.past) }
        ensures begun { (n : NoteData) → IsNote self.old (Some n) →
            IsNoteBegun self.new (after_block n (record { lfo = lfo; lfo_depth = unsigned_abs lfo_depth; bend = bend; wheel = wheel })) }
        ensures silent { IsNote self.old None → (j : ℕ) → note_output (block_input result) j ≡ pos 0 }
        ensures stays_idle { IsNote self.old None → IsNote self.new None }
    {
        match &mut self.sounding {
            Some(sounding) => sounding.begin_block(tables, lfo, lfo_depth as u32, bend, wheel),
            None => NoteBlock::silent(),
        }
    }

    /// Ends a block that was run, with the two samples that it left.
    pub fn end_block(&mut self, feedback_state: [i32; 2])
        ensures ended { (n : NoteData) → IsNoteBegun self.old n → feedback_state_of feedback_state ≡ feedback_state_before n (length n.past) →
            IsNote self.new (Some n) }
        ensures stays_idle { IsNote self.old None → IsNote self.new None }
    {
        if let Some(sounding) = &mut self.sounding {
            sounding.end_block(feedback_state);
        }
    }
}
