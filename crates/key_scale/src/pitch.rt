//! The pitch of an operator.

ghost use Rattle.std.specs.Prelude.{◌≡◌, ◌≤◌, ◌^◌, pos, neg_ℤ, ◌≤ℤ◌, ◌+ℤ◌, ◌-ℤ◌, ◌*ℤ◌};
ghost use Rattle.dx_tables.specs.Constants.{coarse};
ghost use Rattle.dx_tables.specs.Fine.{fine};
ghost use Rattle.key_scale.specs.Pitch.{ratio_pitch, fixed_pitch};

use dx_tables::{Tables, constants};

/// The pitch of a key, before the ratio.
fn of_key(note: i32) -> i32
    requires low { neg_ℤ (pos 24) ≤ℤ note }
    requires high { note ≤ℤ pos 151 }
    ensures value { result ≡ pos 50857777 +ℤ pos 1398101 *ℤ note }
    ensures low { pos 17303353 ≤ℤ result }
    ensures high { result ≤ℤ pos 261971028 }
{
    50_857_777 + 1_398_101 * note
}

/// The detune of a pitch by ratio.
fn detuned(detune: u8) -> i32
    requires { detune ≤ 14 }
    ensures value { result ≡ pos 12606 *ℤ (pos detune -ℤ pos 7) }
    ensures low { neg_ℤ (pos 88242) ≤ℤ result }
    ensures high { result ≤ℤ pos 88242 }
{
    12_606 * (i32::from(detune) - 7)
}

/// The ratio to the pitch of a key.
fn ratio(tables: &Tables, coarse_step: u8, fine_step: u8) -> i32
    requires coarse { coarse_step ≤ 31 }
    requires fine { fine_step ≤ 99 }
    ensures value { result ≡ coarse coarse_step +ℤ pos (fine fine_step) }
    ensures low { neg_ℤ (pos 16777216) ≤ℤ result }
    ensures high { result ≤ℤ pos 99894838 }
{
    constants::coarse(coarse_step) + tables.fine(fine_step)
}

/// A pitch by ratio.
#[tactic(auto, unfolding(crate::specs::Pitch::ratio_pitch))]
pub(crate) fn by_ratio(tables: &Tables, note: i32, coarse: u8, fine: u8, detune: u8) -> i32
    requires low { neg_ℤ (pos 24) ≤ℤ note }
    requires high { note ≤ℤ pos 151 }
    requires coarse { coarse ≤ 31 }
    requires fine { fine ≤ 99 }
    requires detune { detune ≤ 14 }
    ensures value { result ≡ ratio_pitch note coarse fine detune }
    ensures low { pos 0 ≤ℤ result }
    ensures high { result ≤ℤ pos (2 ^ 29) }
{
    of_key(note) + ratio(tables, coarse, fine) + detuned(detune)
}

/// A fixed pitch.
#[tactic(auto, unfolding(crate::specs::Pitch::fixed_pitch))]
pub(crate) fn fixed(coarse: u8, fine: u8, detune: u8) -> i32
    requires coarse { coarse ≤ 31 }
    requires fine { fine ≤ 99 }
    requires detune { detune ≤ 14 }
    ensures value { result ≡ pos (fixed_pitch coarse fine detune) }
    ensures low { pos 0 ≤ℤ result }
    ensures high { result ≤ℤ pos (2 ^ 29) }
{
    let decade = u32::from(coarse % 4) * 100 + u32::from(fine);
    let above = u32::from(detune.saturating_sub(7));
    (((4_458_616 * decade) >> 3) + 13_457 * above) as i32
}
