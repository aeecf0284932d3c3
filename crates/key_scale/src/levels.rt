//! The output level of an operator.

ghost use Rattle.std.specs.Prelude.{◌≡◌, ◌≤◌, pos, neg_ℤ, ◌≤ℤ◌, ◌+ℤ◌, ◌-ℤ◌, ◌*ℤ◌};
ghost use Rattle.std.specs.Int.{int_shr, int_min, int_max};
ghost use Rattle.dx_tables.specs.Constants.{level};
ghost use Rattle.key_scale.specs.Levels.{velocity_part, whole_level};

use dx_tables::constants;

/// A sensitivity times how far an entry of the velocity table lies above 239.
fn weighted(sensitivity: u8, entry: u8) -> i32
    requires sensitivity { sensitivity ≤ 7 }
    requires entry { entry ≤ 254 }
    ensures value { result ≡ pos sensitivity *ℤ (pos entry -ℤ pos 239) }
    ensures low { neg_ℤ (pos 1673) ≤ℤ result }
    ensures high { result ≤ℤ pos 105 }
{
    i32::from(sensitivity) * (i32::from(entry) - 239)
}

/// An eighth, rounded to the next, in steps of 16.
fn rounded(weight: i32) -> i32
    requires low { neg_ℤ (pos 1673) ≤ℤ weight }
    requires high { weight ≤ℤ pos 105 }
    ensures value { result ≡ pos 16 *ℤ int_shr (weight +ℤ pos 7) 3 }
    ensures low { neg_ℤ (pos 3344) ≤ℤ result }
    ensures high { result ≤ℤ pos 224 }
{
    16 * ((weight + 7) >> 3)
}

/// What the level of an operator gains by a velocity.
#[tactic(auto, unfolding(crate::specs::Levels::velocity_part))]
pub(crate) fn velocity_gain(sensitivity: u8, velocity: u8) -> i32
    requires sensitivity { sensitivity ≤ 7 }
    requires velocity { velocity ≤ 127 }
    ensures value { result ≡ velocity_part sensitivity velocity }
    ensures low { neg_ℤ (pos 3344) ≤ℤ result }
    ensures high { result ≤ℤ pos 224 }
{
    rounded(weighted(sensitivity, constants::velocity_entry(velocity >> 1)))
}

/// The level of a setting with key scaling, at most 127, in units of 1/8 octave of gain.
fn capped(setting: u8, scaling: i32) -> i32
    requires setting { setting ≤ 99 }
    requires low { neg_ℤ (pos 400) ≤ℤ scaling }
    requires high { scaling ≤ℤ pos 400 }
    ensures value { result ≡ int_min (pos 127) (pos (level setting) +ℤ scaling) }
    ensures low { neg_ℤ (pos 400) ≤ℤ result }
    ensures high { result ≤ℤ pos 127 }
{
    (i32::from(constants::level(setting)) + scaling).min(127)
}

/// A level in units of 1/8 octave of gain and a velocity's part in units of 1/256, summed, and at least 0.
fn above_zero(level: i32, velocity: i32) -> i32
    requires level_low { neg_ℤ (pos 400) ≤ℤ level }
    requires level_high { level ≤ℤ pos 127 }
    requires velocity_low { neg_ℤ (pos 3344) ≤ℤ velocity }
    requires velocity_high { velocity ≤ℤ pos 224 }
    ensures value { result ≡ int_max (pos 0) (pos 32 *ℤ level +ℤ velocity) }
    ensures low { pos 0 ≤ℤ result }
    ensures high { result ≤ℤ pos 4288 }
{
    (32 * level + velocity).max(0)
}

/// The whole level of an operator.
#[tactic(auto, unfolding(crate::specs::Levels::whole_level))]
pub(crate) fn level_sum(setting: u8, scaling: i32, velocity: i32) -> i32
    requires setting { setting ≤ 99 }
    requires scaling_low { neg_ℤ (pos 400) ≤ℤ scaling }
    requires scaling_high { scaling ≤ℤ pos 400 }
    requires velocity_low { neg_ℤ (pos 3344) ≤ℤ velocity }
    requires velocity_high { velocity ≤ℤ pos 224 }
    ensures value { result ≡ whole_level setting scaling velocity }
    ensures low { pos 0 ≤ℤ result }
    ensures high { result ≤ℤ pos 4288 }
{
    above_zero(capped(setting, scaling), velocity)
}
