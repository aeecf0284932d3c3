//! One stage of a pitch envelope: where it leads, and how fast.

ghost use Rattle.std.specs.Prelude.{◌≡◌, ◌≤◌};
ghost use Rattle.block_rates.specs.Pitches.{IsPitch, IsPitchSegment, pitch_of, pitch_increment, pitch_motion};

use crate::stages::Segment;
use dx_tables::constants::{pitch_level, pitch_rate};

/// Where a stage of a pitch envelope leads, and by how much it moves the pitch in a step.
#[derive(Clone, Copy)]
pub(crate) struct PitchSegment {
    pub(crate) target: i32,
    pub(crate) increment: u32,
}

impl PitchSegment {
    /// The segment for a stage's rate and level.
    pub(crate) fn new(rate: u8, parameter: u8) -> PitchSegment
        requires rate { rate ≤ 99 }
        requires parameter { parameter ≤ 99 }
        ensures target { result.target ≡ pitch_of parameter }
        ensures increment { result.increment ≡ pitch_increment rate }
        ensures bound { IsPitchSegment result }
    {
        PitchSegment {
            target: pitch(parameter),
            increment: increment(rate),
        }
    }
}

impl Segment for PitchSegment {
    type Value = i32;

    ghost motion = { pitch_motion };

    ghost IsBounded = { IsPitchSegment };

    ghost IsWithin = { IsPitch };

    fn stepped(self, level: i32) -> i32 {
        let increment = self.increment as i32;
        if self.target <= level {
            self.target.max(level - increment)
        } else {
            self.target.min(level + increment)
        }
    }

    fn is_at_target(self, level: &i32) -> bool {
        *level == self.target
    }
}

/// The pitch of a level parameter, where 2^24 is one octave.
pub(crate) fn pitch(parameter: u8) -> i32
    requires { parameter ≤ 99 }
    ensures value { result ≡ pitch_of parameter }
    ensures bound { IsPitch result }
{
    i32::from(pitch_level(parameter)) * 524_288
}

/// By how much a stage moves the pitch in a step, for its rate parameter.
fn increment(rate: u8) -> u32
    requires { rate ≤ 99 }
    ensures value { result ≡ pitch_increment rate }
    ensures bound { result ≤ 291465 }
{
    u32::from(pitch_rate(rate)) * 1143
}
