//! The LFO's delay, and the depth that comes of it.

ghost use Rattle.std.specs.Prelude.{◌≡◌, ◌≤◌, ◌<◌, ◌^◌};
ghost use Rattle.block_rates.specs.Lfos.{delay_rate, raised_delay_state, next_delay_state, depth_of};

use crate::cycle::RATE_UNIT;

/// Where the delay's silence ends and the depth begins to rise.
const RISE: u64 = 0x8000_0000;

/// The depth once the delay is over.
const GREATEST: u32 = 1 << 24;

/// Where the depth is whole.
const END: u64 = 0x1_0000_0000;

/// How far a delay has gone after a step. Without a delay, and at its end, it stays.
pub(crate) fn next_delay_state(delay: u8, delay_state: u32) -> u32
    requires { delay ≤ 99 }
    ensures { result ≡ next_delay_state delay delay_state }
{
    let on = raised_delay_state(delay, delay_state);
    if delay > 0 && on < END {
        on as u32
    } else {
        delay_state
    }
}

/// The depth that a step answers, where 2^24 is the greatest.
pub(crate) fn depth_of(delay: u8, delay_state: u32) -> u32
    requires { delay ≤ 99 }
    ensures value { result ≡ depth_of delay delay_state }
    ensures bound { result ≤ 2 ^ 24 }
{
    let on = raised_delay_state(delay, delay_state);
    if delay == 0 || on >= END {
        GREATEST
    } else if on < RISE {
        0
    } else {
        ((on - RISE) >> 7) as u32
    }
}

/// How far a delay above 0 would have gone after a step.
fn raised_delay_state(delay: u8, delay_state: u32) -> u64
    requires { delay ≤ 99 }
    ensures value { result ≡ raised_delay_state delay delay_state }
    ensures bound { result < 2 ^ 33 }
{
    let rate = delay_rate(delay);
    let increment = if u64::from(delay_state) < RISE {
        rate
    } else {
        (rate - rate % 128).max(128)
    };
    u64::from(delay_state) + u64::from(RATE_UNIT) * increment
}

/// How fast a delay above 0 goes by.
fn delay_rate(delay: u8) -> u64
    requires { delay ≤ 99 }
    ensures value { result ≡ delay_rate delay }
    ensures bound { result ≤ 3968 }
{
    let short = 99 - delay;
    u64::from(16 + short % 16) << (1 + short / 16)
}
