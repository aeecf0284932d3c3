//! One operator of a note: its envelope, its pitch and its gain, block by block.
ghost use Rattle.std.specs.Prelude.{◌≡◌, ◌≤◌, ◌*◌, ◌^◌, ◌+◌, ℕ, ℤ, length, pos, neg_ℤ, ◌≤ℤ◌, ◌+ℤ◌};
ghost use Rattle.dx_tables.specs.Powers.{frequency};
ghost use Rattle.block_rates.specs.Levels.{greatest_level};
ghost use Rattle.operator_kernel.specs.Operator.{HasGains};
ghost use Rattle.note_voice.specs.Modulation.{Modulation, gain_of};
ghost use Rattle.note_voice.specs.Note.{NoteData, begun, note_released, after_block, played_note, operator_in, pitch_shift_in};

use crate::cached_gain::CachedGain;
use crate::modulation::{amp_mod_depth, attenuation_of};
use crate::settings;
use block_rates::Envelope;
use dx_tables::Tables;
use key_scale::{operator_pitch, out_level, rate_scale};
use operator_kernel::OpBlock;
use voice_record::Voice;

/// An operator of a note: its phase, its gain at the end of the last block, and its envelope; of the voice, from the start on, its pitch and
/// how deep the LFO moves its gain; the phase increment at the pitch of the last block, and the gain
/// at the last level and attenuation.
#[derive(Clone, Copy)]
pub(crate) struct Operator {
    phase: i32,
    gain: i32,
    envelope: Envelope,
    pitch: i32,
    amp_mod_depth: u32,
    increment: i32,
    cached: CachedGain,
    ghost gain_from_zero: { pos 0 ≤ℤ gain },
    ghost gain_small: { gain ≤ℤ pos (2 ^ 26) },
    ghost pitch_from_zero: { pos 0 ≤ℤ pitch },
    ghost pitch_small: { pitch ≤ℤ pos (2 ^ 29) },
    ghost amp_mod_depth_small: { amp_mod_depth ≤ 65025 },
}

/// The phase increment at a pitch that is moved by a shift.
fn increment_at(tables: &Tables, pitch: i32, shift: i32) -> i32
    requires pitch_low { pos 0 ≤ℤ pitch }
    requires pitch_high { pitch ≤ℤ pos (2 ^ 29) }
    requires shift_low { neg_ℤ (pos (2 ^ 27)) ≤ℤ shift }
    requires shift_high { shift ≤ℤ pos (2 ^ 27) }
    ensures { result ≡ frequency (pitch +ℤ shift) }
{
    tables.freq(pitch + shift)
}

/// The gain at a level of the envelope that is lowered by an attenuation.
#[tactic(auto, unfolding(crate::specs::Modulation::gain_of))]
pub(crate) fn gain(tables: &Tables, level: i32, attenuation: i32) -> i32
    requires level_low { pos 0 ≤ℤ level }
    requires level_high { level ≤ℤ pos greatest_level }
    requires attenuation_low { neg_ℤ (pos 509) ≤ℤ attenuation }
    requires attenuation_high { attenuation ≤ℤ pos (2 ^ 27) }
    ensures value { result ≡ gain_of level attenuation }
    ensures low { pos 0 ≤ℤ result }
    ensures high { result ≤ℤ pos (2 ^ 26) }
{
    tables.exp((level - attenuation).max(0) - 0xE00_0000)
}

impl Operator {
    ghost use Rattle.note_voice.specs.Running.{IsOperator};

    /// Operator 1 to 6 of a note that begins: phase 0, gain 0, its envelope in stage 1, and its pitch not moved.
    pub(crate) fn start(
        tables: &Tables,
        voice: &Voice,
        operator: u8,
        note: i32,
        velocity: u8,
    ) -> Operator
        requires operator { (1 ≤ operator) × (operator ≤ 6) }
        requires note_low { neg_ℤ (pos 24) ≤ℤ note }
        requires note_high { note ≤ℤ pos 151 }
        requires velocity { (1 ≤ velocity) × (velocity ≤ 127) }
        ensures { (switch key : ℕ) → note ≡ played_note voice.now key → IsOperator result (pos 0) operator (begun voice.now switch key velocity) }
    {
        let out = out_level(voice, operator, note, velocity);
        let scale = rate_scale(voice, operator, note);
        let pitch = operator_pitch(tables, voice, operator, note);
        Operator {
            phase: 0,
            gain: 0,
            envelope: Envelope::new(
                settings::rates(voice, operator),
                settings::levels(voice, operator),
                out,
                scale,
            ),
            pitch,
            amp_mod_depth: amp_mod_depth(voice, operator),
            increment: increment_at(tables, pitch, 0),
            cached: CachedGain::of(tables, 0, 0),
        }
    }

    /// The key is released: the envelope enters its last stage.
    pub(crate) fn release(&mut self)
        ensures { (n : NoteData) (shift : ℤ) (operator : ℕ) → IsOperator self.old shift operator n →
            IsOperator self.new shift operator (note_released n) }
    {
        self.envelope.release();
    }

    /// Adopts another shift of its pitch.
    pub(crate) fn tune(&mut self, tables: &Tables, shift: i32)
        requires shift_low { neg_ℤ (pos (2 ^ 27)) ≤ℤ shift }
        requires shift_high { shift ≤ℤ pos (2 ^ 27) }
        ensures { (n : NoteData) (before : ℤ) (operator : ℕ) → IsOperator self.old before operator n → IsOperator self.new shift operator n }
    {
        self.increment = increment_at(tables, self.pitch, shift);
    }

    /// What the operator does in the next block, whose shift of the pitch it has adopted. The block then has passed.
    pub(crate) fn pass(&mut self, tables: &Tables, lfo: i32, lfo_depth: u32) -> OpBlock
        requires lfo_low { neg_ℤ (pos 64) ≤ℤ lfo }
        requires lfo_high { lfo ≤ℤ pos (2 ^ 24 + 64) }
        requires lfo_depth { lfo_depth ≤ 2 ^ 24 }
        ensures gains { HasGains result }
        ensures block { (n : NoteData) (m : Modulation) (shift : ℤ) (operator : ℕ) → IsOperator self.old shift operator n →
            shift ≡ pitch_shift_in (after_block n m) (length n.past) → m.lfo ≡ lfo → m.lfo_depth ≡ lfo_depth →
            result ≡ operator_in (after_block n m) operator (length n.past) }
        ensures passed { (n : NoteData) (m : Modulation) (shift : ℤ) (operator : ℕ) → IsOperator self.old shift operator n →
            shift ≡ pitch_shift_in (after_block n m) (length n.past) → m.lfo ≡ lfo → m.lfo_depth ≡ lfo_depth →
            IsOperator self.new shift operator (after_block n m) }
    {
        let attenuation = attenuation_of(self.amp_mod_depth, lfo, lfo_depth);
        let level = self.envelope.step();
        self.cached = self.cached.moved(tables, level, attenuation);
        let op = OpBlock {
            phase: self.phase,
            freq: self.increment,
            g1: self.gain,
            g2: self.cached.gain,
        };
        self.phase = op.phase.wrapping_add(op.freq.wrapping_mul(64));
        self.gain = op.g2;
        op
    }
}
