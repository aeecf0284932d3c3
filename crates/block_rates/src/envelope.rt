//! The envelope generator of an operator.

ghost use Rattle.std.specs.Prelude.{ℕ, ◌≡◌, ◌≤◌, pos, ◌≤ℤ◌, All, unsigned_abs, Option, None};
ghost use Rattle.block_rates.specs.Levels.{IsLevelSegment, greatest_level};
ghost use Rattle.block_rates.specs.Segments.{AllFour};

use crate::level_segment::LevelSegment;
use crate::stages::Stages;

/// The envelope generator of an operator: four stages, of which the fourth begins when the key is
/// released.
#[derive(Clone, Copy)]
pub struct Envelope {
    level: u32,
    stages: Stages<LevelSegment>,
    ghost level_bound: { level ≤ greatest_level },
    ghost segment_bounds: { AllFour IsLevelSegment stages.first stages.second stages.third stages.fourth },
}

impl Envelope {
    ghost use Rattle.std.specs.Prelude.{◌+◌};
    ghost use Rattle.block_rates.specs.Stages.{released_after};
    ghost use Rattle.block_rates.specs.Levels.{EnvelopeSettings, envelope_level};
    ghost use Rattle.block_rates.specs.Envelopes.{IsEnvelope};

    /// An envelope at its begin, for rates and levels of 0 to 99, an output level of 0 to 4288 and a
    /// rate scale of 0 to 27.
    pub fn new(rates: [u8; 4], levels: [u8; 4], out: i32, rate_scale: i32) -> Envelope
        requires rates { All (λ r. r ≤ 99) rates }
        requires levels { All (λ l. l ≤ 99) levels }
        requires out_low { pos 0 ≤ℤ out }
        requires out_high { out ≤ℤ pos 4288 }
        requires rate_scale_low { pos 0 ≤ℤ rate_scale }
        requires rate_scale_high { rate_scale ≤ℤ pos 27 }
        ensures { IsEnvelope result (record { rates = rates; levels = levels; out = unsigned_abs out; rate_scale = unsigned_abs rate_scale }) 0 None }
    {
        let out = out as u32;
        let rate_scale = rate_scale as u32;
        Envelope {
            level: 0,
            stages: Stages::new(
                LevelSegment::new(rates[0], levels[0], out, rate_scale),
                LevelSegment::new(rates[1], levels[1], out, rate_scale),
                LevelSegment::new(rates[2], levels[2], out, rate_scale),
                LevelSegment::new(rates[3], levels[3], out, rate_scale),
            ),
        }
    }

    /// The key is released: the fourth stage begins at the present level. A second release does nothing.
    pub fn release(&mut self)
        ensures { (s : EnvelopeSettings) (k : ℕ) (off : Option ℕ) →
            IsEnvelope self.old s k off → IsEnvelope self.new s k (released_after k off) }
    {
        self.stages.release();
    }

    /// The level of the next block, where 2^24 is one octave of gain.
    pub fn step(&mut self) -> i32
        ensures value { (s : EnvelopeSettings) (k : ℕ) (off : Option ℕ) →
            IsEnvelope self.old s k off → result ≡ pos (envelope_level s (k + 1) off) }
        ensures stands { (s : EnvelopeSettings) (k : ℕ) (off : Option ℕ) →
            IsEnvelope self.old s k off → IsEnvelope self.new s (k + 1) off }
        ensures low { pos 0 ≤ℤ result }
        ensures high { result ≤ℤ pos greatest_level }
    {
        self.level = self.stages.step(self.level);
        self.level as i32
    }
}
