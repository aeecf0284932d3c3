//! The pitch envelope of a note.

ghost use Rattle.std.specs.Prelude.{ℕ, ◌≡◌, ◌≤◌, ◌^◌, pos, neg_ℤ, ◌≤ℤ◌, All, Option, None};
ghost use Rattle.block_rates.specs.Pitches.{IsPitch, IsPitchSegment};
ghost use Rattle.block_rates.specs.Segments.{AllFour};

use crate::pitch_segment::{PitchSegment, pitch};
use crate::stages::Stages;

/// The pitch envelope of a note: four stages, of which the fourth begins when the key is released.
#[derive(Clone, Copy)]
pub struct PitchEnvelope {
    level: i32,
    stages: Stages<PitchSegment>,
    ghost level_bound: { IsPitch level },
    ghost segment_bounds: { AllFour IsPitchSegment stages.first stages.second stages.third stages.fourth },
}

impl PitchEnvelope {
    ghost use Rattle.std.specs.Prelude.{◌+◌};
    ghost use Rattle.block_rates.specs.Stages.{released_after};
    ghost use Rattle.block_rates.specs.Pitches.{PitchEnvelopeSettings, pitch_envelope_level};
    ghost use Rattle.block_rates.specs.PitchEnvelopes.{IsPitchEnvelope};

    /// A pitch envelope at its begin, for rates and levels of 0 to 99: it begins at the fourth level.
    pub fn new(rates: [u8; 4], levels: [u8; 4]) -> PitchEnvelope
        requires rates { All (λ r. r ≤ 99) rates }
        requires levels { All (λ l. l ≤ 99) levels }
        ensures { IsPitchEnvelope result (record { rates = rates; levels = levels }) 0 None }
    {
        PitchEnvelope {
            level: pitch(levels[3]),
            stages: Stages::new(
                PitchSegment::new(rates[0], levels[0]),
                PitchSegment::new(rates[1], levels[1]),
                PitchSegment::new(rates[2], levels[2]),
                PitchSegment::new(rates[3], levels[3]),
            ),
        }
    }

    /// The key is released: the fourth stage begins at the present pitch. A second release does nothing.
    pub fn release(&mut self)
        ensures { (s : PitchEnvelopeSettings) (k : ℕ) (off : Option ℕ) →
            IsPitchEnvelope self.old s k off → IsPitchEnvelope self.new s k (released_after k off) }
    {
        self.stages.release();
    }

    /// The pitch of the next block, where 2^24 is one octave.
    pub fn step(&mut self) -> i32
        ensures value { (s : PitchEnvelopeSettings) (k : ℕ) (off : Option ℕ) →
            IsPitchEnvelope self.old s k off → result ≡ pitch_envelope_level s (k + 1) off }
        ensures stands { (s : PitchEnvelopeSettings) (k : ℕ) (off : Option ℕ) →
            IsPitchEnvelope self.old s k off → IsPitchEnvelope self.new s (k + 1) off }
        ensures low { neg_ℤ (pos (2 ^ 26)) ≤ℤ result }
        ensures high { result ≤ℤ pos (2 ^ 26) }
    {
        self.level = self.stages.step(self.level);
        self.level
    }
}
