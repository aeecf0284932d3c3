//! A note that sounds: what it keeps from block to block, and how it enters the next one.
ghost use Rattle.std.specs.Prelude.{◌≡◌, ◌≤◌, ◌^◌, ◌+◌, ℕ, length, pos, neg_ℤ, ◌≤ℤ◌};
ghost use Rattle.operator_kernel.specs.Operator.{feedback_state_of};
ghost use Rattle.algorithm_bus.specs.NoteBlocks.{block_input};
ghost use Rattle.note_voice.specs.Note.{NoteData, begun, note_released, after_block, feedback_state_before, note_input};

use crate::modulation::pitch_modulation;
use crate::operator::Operator;
use crate::operators::{pass_all, release_all, start_all, tune_all};
use crate::settings;
use algorithm_bus::NoteBlock;
use block_rates::PitchEnvelope;
use dx_tables::Tables;
use voice_record::Voice;

/// A note that sounds. What it has of its voice it reads at its start: no block reads the voice again.
#[derive(Clone, Copy)]
pub(crate) struct Sounding {
    algorithm: u8,
    feedback: u8,
    pitch_mod_depth: u8,
    pitch_mod_sensitivity: u8,
    switch: u8,
    operators: [Operator; 6],
    pitch_shift: i32,
    pitch_envelope: PitchEnvelope,
    feedback_state: [i32; 2],
    ghost algorithm_bound: { algorithm ≤ 31 },
    ghost feedback_bound: { feedback ≤ 7 },
    ghost pitch_mod_depth_bound: { pitch_mod_depth ≤ 99 },
    ghost pitch_mod_sensitivity_bound: { pitch_mod_sensitivity ≤ 7 },
}

impl Sounding {
    ghost use Rattle.note_voice.specs.Running.{IsSounding, IsUnended};

    /// A note that begins.
    pub(crate) fn start(
        tables: &Tables,
        voice: &Voice,
        switch: u8,
        key: u8,
        velocity: u8,
    ) -> Sounding
        requires key { key ≤ 127 }
        requires velocity { (1 ≤ velocity) × (velocity ≤ 127) }
        ensures { IsSounding result (begun voice.now switch key velocity) }
    {
        let note = settings::played_note(voice, key);
        Sounding {
            algorithm: settings::algorithm(voice),
            feedback: settings::feedback(voice),
            pitch_mod_depth: settings::pitch_depth(voice),
            pitch_mod_sensitivity: settings::pitch_sensitivity(voice),
            switch,
            operators: start_all(tables, voice, note, velocity),
            pitch_shift: 0,
            pitch_envelope: PitchEnvelope::new(
                settings::pitch_rates(voice),
                settings::pitch_levels(voice),
            ),
            feedback_state: [0, 0],
        }
    }

    /// The key is released: all envelopes enter their last stage.
    pub(crate) fn release(&mut self)
        ensures { (n : NoteData) → IsSounding self.old n → IsSounding self.new (note_released n) }
    {
        release_all(&mut self.operators);
        self.pitch_envelope.release();
    }

    /// What is to be run in the next block. The note then stands one block later but for its feedback state, which `end_block` puts in
    /// once the block has run.
    pub(crate) fn begin_block(
        &mut self,
        tables: &Tables,
        lfo: i32,
        lfo_depth: u32,
        bend: u16,
        wheel: u8,
    ) -> NoteBlock
        requires lfo_low { neg_ℤ (pos 64) ≤ℤ lfo }
        requires lfo_high { lfo ≤ℤ pos (2 ^ 24 + 64) }
        requires lfo_depth { lfo_depth ≤ 2 ^ 24 }
        requires bend { bend ≤ 16383 }
        requires wheel { wheel ≤ 127 }
        ensures block { (n : NoteData) → IsSounding self.old n →
            block_input result
            ≡ note_input (after_block n (record { lfo = lfo; lfo_depth = lfo_depth; bend = bend; wheel = wheel })) (length n.past) }
        ensures begun { (n : NoteData) → IsSounding self.old n →
            IsUnended self.new (after_block n (record { lfo = lfo; lfo_depth = lfo_depth; bend = bend; wheel = wheel })) }
    {
        let level = self.pitch_envelope.step();
        let pitch_shift = pitch_modulation(
            self.pitch_mod_depth,
            self.pitch_mod_sensitivity,
            level,
            lfo,
            lfo_depth,
            bend,
            wheel,
        );
        tune_all(&mut self.operators, tables, self.pitch_shift, pitch_shift);
        self.pitch_shift = pitch_shift;
        let ops = pass_all(&mut self.operators, tables, self.switch, lfo, lfo_depth);
        NoteBlock {
            algorithm: self.algorithm,
            feedback: self.feedback,
            ops,
            feedback_state: self.feedback_state,
        }
    }

    /// Ends a block that has run, with the feedback state that it left.
    pub(crate) fn end_block(&mut self, feedback_state: [i32; 2])
        ensures { (n : NoteData) → IsUnended self.old n → feedback_state_of feedback_state ≡ feedback_state_before n (length n.past) →
            IsSounding self.new n }
    {
        self.feedback_state = feedback_state;
    }
}
