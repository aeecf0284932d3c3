//! The LFO's phase and its random number.

ghost use Rattle.std.specs.Prelude.{◌≡◌, ◌≤◌, if◌then◌else◌};
ghost use Rattle.block_rates.specs.Lfos.{speed_rate, rate_factor, phase_increment, next_random};
ghost use Rattle.block_rates.specs.Waves.{is_held};

use crate::wave::Wave;

/// What one unit of a rate adds in a step, of which there is one a block, where 2^32 is one cycle of the LFO or its whole delay.
pub(crate) const RATE_UNIT: u32 = 36_558;

/// What a step adds to the LFO's phase, of which 2^32 is one cycle.
pub(crate) fn phase_increment(speed: u8) -> u32
    requires { speed ≤ 99 }
    ensures value { result ≡ phase_increment speed }
    ensures bound { result ≤ 149156640 }
{
    let rate = speed_rate(speed);
    RATE_UNIT * (rate * rate_factor(rate))
}

/// The rate of a speed setting, from 1 to 255.
fn speed_rate(speed: u8) -> u32
    requires { speed ≤ 99 }
    ensures value { result ≡ speed_rate speed }
    ensures bound { result ≤ 255 }
{
    if speed == 0 {
        1
    } else {
        165 * u32::from(speed) / 64
    }
}

/// How many units a rate has for each of its steps: high rates count for more.
fn rate_factor(rate: u32) -> u32
    requires { rate ≤ 255 }
    ensures value { result ≡ rate_factor rate }
    ensures bound { result ≤ 16 }
{
    if rate < 160 {
        11
    } else {
        11 + (rate - 160) / 16
    }
}

/// The phase as a key goes down.
pub(crate) fn phase_at_key(is_synced: bool, phase: u32) -> u32
    ensures { result ≡ (if is_synced then 2147483647 else phase) }
{
    if is_synced { 0x7FFF_FFFF } else { phase }
}

/// The random number after a step, which is a new one where a cycle of sample and hold has ended.
pub(crate) fn held_random(wave: Wave, ended: bool, random: u8) -> u8
    ensures { result ≡ (if is_held wave then (if ended then next_random random else random) else random) }
{
    match wave {
        Wave::SampleAndHold if ended => next_random(random),
        _ => random,
    }
}

#[tactic(auto, unfolding(crate::specs::Lfos::next_random))]
fn next_random(random: u8) -> u8
    ensures { result ≡ next_random random }
{
    ((179 * u32::from(random) + 17) % 256) as u8
}
