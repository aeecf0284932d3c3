//! Key scaling of levels and rates.

ghost use Rattle.std.specs.Prelude.{◌≡◌, ◌+◌, ◌-◌, ◌*◌, ◌/◌, ◌^◌, ◌<◌, ◌≤◌, min, pos, neg_ℤ, ◌≤ℤ◌};
ghost use Rattle.dx_tables.specs.Constants.{exponential_scaling};
ghost use Rattle.key_scale.specs.Levels.{key_distance, key_group, curve_height, curve_value, key_scaling, rate_scale_by};

use crate::fields::operator_setting;
use dx_tables::constants::exponential_scaling;
use voice_record::Voice;
use voice_record::operator_parameter::{
    BREAK_POINT, LEFT_CURVE, LEFT_DEPTH, RIGHT_CURVE, RIGHT_DEPTH,
};

/// How many keys a note lies above a break point.
fn distance(note: i32, point: u8) -> i32
    requires low { neg_ℤ (pos 24) ≤ℤ note }
    requires high { note ≤ℤ pos 151 }
    requires point { point ≤ 99 }
    ensures value { result ≡ key_distance note point }
    ensures low { neg_ℤ (pos 140) ≤ℤ result }
    ensures high { result ≤ℤ pos 134 }
{
    note - i32::from(point) - 17
}

/// The group of three keys at a distance from the break point.
#[tactic(auto, unfolding(crate::specs::Levels::key_group))]
fn group(keys: i32) -> u32
    requires low { neg_ℤ (pos 140) ≤ℤ keys }
    requires high { keys ≤ℤ pos 134 }
    ensures value { result ≡ key_group keys }
    ensures high { result ≤ 47 }
{
    (keys.unsigned_abs() + 1) / 3
}

/// How far a curve has gone at a group of keys.
#[tactic(auto, unfolding(crate::specs::Levels::curve_height))]
fn height(curve: u8, depth: u8, keys: u32) -> u32
    requires depth { depth ≤ 99 }
    requires keys { keys ≤ 47 }
    ensures value { result ≡ curve_height curve depth keys }
    ensures high { result ≤ 400 }
{
    if curve == 0 || curve == 3 {
        linear(depth, keys)
    } else {
        exponential(depth, keys)
    }
}

fn linear(depth: u8, keys: u32) -> u32
    requires depth { depth ≤ 99 }
    requires keys { keys ≤ 47 }
    ensures value { result ≡ keys * depth * 329 / 2 ^ 12 }
    ensures high { result ≤ 400 }
{
    (keys * u32::from(depth) * 329) >> 12
}

fn exponential(depth: u8, keys: u32) -> u32
    requires depth { depth ≤ 99 }
    requires keys { keys ≤ 47 }
    ensures value { result ≡ exponential_scaling (min keys 32) * depth * 329 / 2 ^ 15 }
    ensures high { result ≤ 400 }
{
    let growth = exponential_scaling(keys.min(32) as u8);
    (u32::from(growth) * u32::from(depth) * 329) >> 15
}

/// A curve's value at a group of keys.
fn curve(curve: u8, depth: u8, keys: u32) -> i32
    requires depth { depth ≤ 99 }
    requires keys { keys ≤ 47 }
    ensures value { result ≡ curve_value curve depth keys }
    ensures low { neg_ℤ (pos 400) ≤ℤ result }
    ensures high { result ≤ℤ pos 400 }
{
    let height = height(curve, depth, keys) as i32;
    if curve < 2 { -height } else { height }
}

/// What the level of an operator gains at a note.
pub(crate) fn level_scaling(voice: &Voice, operator: u8, note: i32) -> i32
    requires first { 1 ≤ operator }
    requires last { operator ≤ 6 }
    requires low { neg_ℤ (pos 24) ≤ℤ note }
    requires high { note ≤ℤ pos 151 }
    ensures value { result ≡ key_scaling voice.now operator note }
    ensures low { neg_ℤ (pos 400) ≤ℤ result }
    ensures high { result ≤ℤ pos 400 }
{
    let distance = distance(note, operator_setting(voice, operator, BREAK_POINT));
    let keys = group(distance);
    if distance < 0 {
        let depth = operator_setting(voice, operator, LEFT_DEPTH);
        curve(operator_setting(voice, operator, LEFT_CURVE), depth, keys)
    } else {
        let depth = operator_setting(voice, operator, RIGHT_DEPTH);
        curve(operator_setting(voice, operator, RIGHT_CURVE), depth, keys)
    }
}

/// How much faster envelopes run at a note.
#[tactic(auto, unfolding(crate::specs::Levels::rate_scale_by))]
pub(crate) fn rate_scaling(sensitivity: u8, note: i32) -> i32
    requires sensitivity { sensitivity ≤ 7 }
    requires high { note ≤ℤ pos 151 }
    ensures value { result ≡ pos (rate_scale_by sensitivity note) }
    ensures low { pos 0 ≤ℤ result }
    ensures high { result ≤ℤ pos 27 }
{
    let key = note.max(21) as u32;
    let steps = (key / 3 - 7).min(31);
    ((u32::from(sensitivity) * steps) >> 3) as i32
}
