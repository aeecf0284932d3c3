//! What the LFO, the bend and the wheel do to pitch and gain.

ghost use Rattle.std.specs.Prelude.{◌≡◌, ◌≤◌, ◌+◌, ◌*◌, ◌/◌, ◌^◌, pos, neg_ℤ, ◌≤ℤ◌, ◌*ℤ◌, ◌-ℤ◌, ◌+ℤ◌, slice_index};
ghost use Rattle.std.specs.Int.{int_shr};
ghost use Rattle.dx_tables.specs.Constants.{pitch_sensitivity, amplitude_sensitivity};
ghost use Rattle.note_voice.specs.Modulation.{depth_part, vibrato_depth, vibrato, bend_pitch, tremolo, amp_mod_depth_of};

use crate::settings;
use dx_tables::constants;
use voice_record::Voice;

/// A depth setting as a part of 256.
fn depth_part(setting: u8) -> u32
    requires { setting ≤ 99 }
    ensures value { result ≡ depth_part setting }
    ensures high { result ≤ 255 }
{
    (165 * u32::from(setting)) >> 6
}

/// A part of 256 of the LFO's depth.
fn part_of_depth(part: u32, lfo_depth: u32) -> u64
    requires part { part ≤ 255 }
    requires lfo_depth { lfo_depth ≤ 2 ^ 24 }
    ensures value { result ≡ part * lfo_depth }
    ensures high { result ≤ 255 * 2 ^ 24 }
{
    u64::from(part) * u64::from(lfo_depth)
}

/// How deep the LFO moves the pitch.
#[tactic(auto, unfolding(crate::specs::Modulation::vibrato_depth))]
fn vibrato_depth(setting: u8, lfo_depth: u32, wheel: u8) -> u64
    requires setting { setting ≤ 99 }
    requires lfo_depth { lfo_depth ≤ 2 ^ 24 }
    requires wheel { wheel ≤ 127 }
    ensures value { result ≡ vibrato_depth setting lfo_depth wheel }
    ensures high { result ≤ 255 * 2 ^ 24 }
{
    part_of_depth(depth_part(setting), lfo_depth).max(u64::from(wheel) << 25)
}

/// A depth times what a sensitivity counts.
fn by_sensitivity(depth: u64, sensitivity: u8) -> i64
    requires depth { depth ≤ 255 * 2 ^ 24 }
    requires sensitivity { sensitivity ≤ 255 }
    ensures value { result ≡ pos depth *ℤ pos sensitivity }
    ensures low { pos 0 ≤ℤ result }
    ensures high { result ≤ℤ pos (65025 * 2 ^ 24) }
{
    (depth * u64::from(sensitivity)) as i64
}

/// How far the LFO is from its middle.
fn from_middle(lfo: i32) -> i64
    requires low { neg_ℤ (pos 64) ≤ℤ lfo }
    requires high { lfo ≤ℤ pos (2 ^ 24 + 64) }
    ensures value { result ≡ lfo -ℤ pos (2 ^ 23) }
    ensures low { neg_ℤ (pos (2 ^ 23 + 64)) ≤ℤ result }
    ensures high { result ≤ℤ pos (2 ^ 23 + 64) }
{
    i64::from(lfo) - 0x80_0000
}

/// The vibrato of a depth, where the LFO is this far from its middle.
fn vibrato_at(depth: i64, distance: i64) -> i32
    requires depth_low { pos 0 ≤ℤ depth }
    requires depth_high { depth ≤ℤ pos (65025 * 2 ^ 24) }
    requires low { neg_ℤ (pos (2 ^ 23 + 64)) ≤ℤ distance }
    requires high { distance ≤ℤ pos (2 ^ 23 + 64) }
    ensures value { result ≡ int_shr (depth *ℤ distance) 39 }
    ensures low { neg_ℤ (pos (2 ^ 24)) ≤ℤ result }
    ensures high { result ≤ℤ pos (2 ^ 24) }
{
    ((depth * distance) >> 39) as i32
}

/// What the LFO adds to the pitch.
#[tactic(auto, unfolding(crate::specs::Modulation::vibrato))]
fn vibrato(depth: u64, sensitivity: u8, lfo: i32) -> i32
    requires depth { depth ≤ 255 * 2 ^ 24 }
    requires sensitivity { sensitivity ≤ 7 }
    requires lfo_low { neg_ℤ (pos 64) ≤ℤ lfo }
    requires lfo_high { lfo ≤ℤ pos (2 ^ 24 + 64) }
    ensures value { result ≡ vibrato depth sensitivity lfo }
    ensures low { neg_ℤ (pos (2 ^ 24)) ≤ℤ result }
    ensures high { result ≤ℤ pos (2 ^ 24) }
{
    vibrato_at(
        by_sensitivity(depth, constants::pitch_sensitivity(sensitivity)),
        from_middle(lfo),
    )
}

/// What the bend adds to the pitch.
#[tactic(auto, unfolding(crate::specs::Modulation::bend_pitch))]
fn bend_pitch(bend: u16) -> i32
    requires { bend ≤ 16383 }
    ensures value { result ≡ bend_pitch bend }
    ensures low { neg_ℤ (pos (2 ^ 22)) ≤ℤ result }
    ensures high { result ≤ℤ pos (2 ^ 22) }
{
    (i32::from(bend) - 8192) * 512
}

/// What is added to the pitch of all operators of a voice with this depth and sensitivity, where the pitch envelope is at a level.
/// 2^24 is one octave.
pub(crate) fn pitch_modulation(
    depth: u8,
    sensitivity: u8,
    level: i32,
    lfo: i32,
    lfo_depth: u32,
    bend: u16,
    wheel: u8,
) -> i32
    requires depth { depth ≤ 99 }
    requires sensitivity { sensitivity ≤ 7 }
    requires level_low { neg_ℤ (pos (2 ^ 26)) ≤ℤ level }
    requires level_high { level ≤ℤ pos (2 ^ 26) }
    requires lfo_low { neg_ℤ (pos 64) ≤ℤ lfo }
    requires lfo_high { lfo ≤ℤ pos (2 ^ 24 + 64) }
    requires lfo_depth { lfo_depth ≤ 2 ^ 24 }
    requires bend { bend ≤ 16383 }
    requires wheel { wheel ≤ 127 }
    ensures value { result ≡ level +ℤ vibrato (vibrato_depth depth lfo_depth wheel) sensitivity lfo +ℤ bend_pitch bend }
    ensures low { neg_ℤ (pos (2 ^ 27)) ≤ℤ result }
    ensures high { result ≤ℤ pos (2 ^ 27) }
{
    let depth = vibrato_depth(depth, lfo_depth, wheel);
    let vibrato = vibrato(depth, sensitivity, lfo);
    level + vibrato + bend_pitch(bend)
}

/// How deep the LFO moves the gain of an operator, 1 to 6, once its delay is over.
pub(crate) fn amp_mod_depth(voice: &Voice, operator: u8) -> u32
    requires { (1 ≤ operator) × (operator ≤ 6) }
    ensures value { result ≡ amp_mod_depth_of voice.now operator }
    ensures high { result ≤ 65025 }
{
    let sensitivity = settings::amplitude_sensitivity(voice, operator);
    part_by_sensitivity(
        depth_part(settings::amplitude_depth(voice)),
        constants::amplitude_sensitivity(sensitivity),
    )
}

/// A part of 256 times what a sensitivity counts.
fn part_by_sensitivity(part: u32, sensitivity: u8) -> u32
    requires { part ≤ 255 }
    ensures value { result ≡ part * sensitivity }
    ensures high { result ≤ 65025 }
{
    part * u32::from(sensitivity)
}

/// How deep the LFO moves the gain at this moment.
fn tremolo_depth(amp_mod_depth: u32, lfo_depth: u32) -> u32
    requires amp_mod_depth { amp_mod_depth ≤ 65025 }
    requires lfo_depth { lfo_depth ≤ 2 ^ 24 }
    ensures value { result ≡ amp_mod_depth * lfo_depth / 2 ^ 24 }
    ensures high { result ≤ 65025 }
{
    ((u64::from(amp_mod_depth) * u64::from(lfo_depth)) >> 24) as u32
}

/// How far the LFO is from its top.
fn from_top(lfo: i32) -> i64
    requires low { neg_ℤ (pos 64) ≤ℤ lfo }
    requires high { lfo ≤ℤ pos (2 ^ 24 + 64) }
    ensures value { result ≡ pos (2 ^ 24) -ℤ lfo }
    ensures low { neg_ℤ (pos 64) ≤ℤ result }
    ensures high { result ≤ℤ pos (2 ^ 24 + 64) }
{
    0x100_0000 - i64::from(lfo)
}

/// The attenuation of a depth, where the LFO is this far from its top.
fn attenuation_at(depth: u32, distance: i64) -> i32
    requires depth { depth ≤ 65025 }
    requires low { neg_ℤ (pos 64) ≤ℤ distance }
    requires high { distance ≤ℤ pos (2 ^ 24 + 64) }
    ensures value { result ≡ int_shr (pos depth *ℤ distance) 13 }
    ensures low { neg_ℤ (pos 509) ≤ℤ result }
    ensures high { result ≤ℤ pos (2 ^ 27) }
{
    ((i64::from(depth) * distance) >> 13) as i32
}

/// How far the LFO attenuates a level.
#[tactic(auto, unfolding(crate::specs::Modulation::tremolo))]
fn tremolo(depth: u32, lfo: i32) -> i32
    requires depth { depth ≤ 65025 }
    requires lfo_low { neg_ℤ (pos 64) ≤ℤ lfo }
    requires lfo_high { lfo ≤ℤ pos (2 ^ 24 + 64) }
    ensures value { result ≡ tremolo depth lfo }
    ensures low { neg_ℤ (pos 509) ≤ℤ result }
    ensures high { result ≤ℤ pos (2 ^ 27) }
{
    attenuation_at(depth, from_top(lfo))
}

/// How far the level of an operator of this amplitude modulation depth is attenuated. 2^24 is one octave of gain.
pub(crate) fn attenuation_of(amp_mod_depth: u32, lfo: i32, lfo_depth: u32) -> i32
    requires amp_mod_depth { amp_mod_depth ≤ 65025 }
    requires lfo_low { neg_ℤ (pos 64) ≤ℤ lfo }
    requires lfo_high { lfo ≤ℤ pos (2 ^ 24 + 64) }
    requires lfo_depth { lfo_depth ≤ 2 ^ 24 }
    ensures value { result ≡ tremolo (amp_mod_depth * lfo_depth / 2 ^ 24) lfo }
    ensures low { neg_ℤ (pos 509) ≤ℤ result }
    ensures high { result ≤ℤ pos (2 ^ 27) }
{
    tremolo(tremolo_depth(amp_mod_depth, lfo_depth), lfo)
}
