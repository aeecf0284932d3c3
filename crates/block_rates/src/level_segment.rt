//! One stage of an operator's envelope: where it leads, and how fast.

ghost use Rattle.std.specs.Prelude.{◌≡◌, ◌≤◌};
ghost use Rattle.block_rates.specs.Levels.{IsLevelSegment, greatest_level, greatest_increment, target_level, rate_increment, scaled_rate, level_motion};

use crate::stages::Segment;
use dx_tables::constants::level;

/// The level that a rising stage begins at, if it is entered below.
const JUMP: u32 = 1716 * 65536;

/// Where a stage of an envelope leads, and by how much it moves the level in a step.
#[derive(Clone, Copy)]
pub(crate) struct LevelSegment {
    pub(crate) target: u32,
    pub(crate) increment: u32,
}

impl LevelSegment {
    /// The segment for a stage's rate and level, the operator's output level and its rate scale.
    pub(crate) fn new(rate: u8, parameter: u8, out: u32, rate_scale: u32) -> LevelSegment
        requires rate { rate ≤ 99 }
        requires parameter { parameter ≤ 99 }
        requires out { out ≤ 4288 }
        requires rate_scale { rate_scale ≤ 27 }
        ensures target { result.target ≡ target_level parameter out }
        ensures increment { result.increment ≡ rate_increment (scaled_rate rate rate_scale) }
        ensures bound { IsLevelSegment result }
    {
        let scaled = (u32::from(rate) * 41 / 64 + rate_scale).min(63);
        LevelSegment {
            target: target(parameter, out),
            increment: increment(scaled),
        }
    }
}

impl Segment for LevelSegment {
    type Value = u32;

    ghost motion = { level_motion };

    ghost IsBounded = { IsLevelSegment };

    ghost IsWithin = { λ x. x ≤ greatest_level };

    fn stepped(self, level: u32) -> u32 {
        if self.target <= level {
            self.target.max(level.saturating_sub(self.increment))
        } else {
            let from = level.max(JUMP);
            self.target
                .min(from + ((0x1100_0000 - from) >> 24) * self.increment)
        }
    }

    fn is_at_target(self, level: &u32) -> bool {
        *level == self.target
    }
}

/// The level that a stage leads to.
fn target(parameter: u8, out: u32) -> u32
    requires parameter { parameter ≤ 99 }
    requires out { out ≤ 4288 }
    ensures value { result ≡ target_level parameter out }
    ensures bound { result ≤ greatest_level }
{
    65536
        * (64 * u32::from(level(parameter) / 2) + out)
            .saturating_sub(4256)
            .max(16)
}

/// By how much a stage of this scaled rate moves the level in a step.
fn increment(scaled: u32) -> u32
    requires { scaled ≤ 63 }
    ensures value { result ≡ rate_increment scaled }
    ensures bound { result ≤ greatest_increment }
{
    (4 + scaled % 4) << (8 + scaled / 4)
}
