//! The LFO's six waves.

ghost use Rattle.std.specs.Prelude.{◌≡◌, ◌≤◌, ◌^◌, ℤ, pos, ◌≤ℤ◌};
ghost use Rattle.block_rates.specs.Waves.{wave_of, wave_value, triangle, saw_down, saw_up, square, sine_wave, held_value};

use dx_tables::Tables;

/// The greatest value of a wave.
const GREATEST: u32 = 1 << 24;

/// Half a cycle of a phase.
const HALF: u32 = 0x8000_0000;

/// A wave of the LFO.
#[derive(Clone, Copy)]
pub(crate) enum Wave {
    Triangle,
    SawDown,
    SawUp,
    Square,
    Sine,
    SampleAndHold,
}

impl Wave {
    /// The wave of a number from 0 to 5.
    pub(crate) fn of(number: u8) -> Wave
        ensures { result ≡ wave_of number }
    {
        match number {
            0 => Wave::Triangle,
            1 => Wave::SawDown,
            2 => Wave::SawUp,
            3 => Wave::Square,
            4 => Wave::Sine,
            _ => Wave::SampleAndHold,
        }
    }

    /// The value at a phase, where 2^24 is the greatest. Sample and hold has the random number in place of the phase.
    pub(crate) fn value(self, tables: &Tables, phase: u32, random: u8) -> i32
        ensures value { result ≡ wave_value self phase random }
        ensures low { pos 0 ≤ℤ result }
        ensures high { result ≤ℤ pos (2 ^ 24) }
    {
        match self {
            Wave::Triangle => triangle(phase) as i32,
            Wave::SawDown => saw_down(phase) as i32,
            Wave::SawUp => saw_up(phase) as i32,
            Wave::Square => square(phase) as i32,
            Wave::Sine => sine_wave(tables, phase),
            Wave::SampleAndHold => held_value(random) as i32,
        }
    }
}

#[tactic(auto, unfolding(crate::specs::Waves::triangle))]
fn triangle(phase: u32) -> u32
    ensures value { result ≡ triangle phase }
    ensures bound { result ≤ 2 ^ 24 }
{
    if phase < HALF {
        phase >> 7
    } else {
        GREATEST - 1 - ((phase - HALF) >> 7)
    }
}

#[tactic(auto, unfolding(crate::specs::Waves::saw_down))]
fn saw_down(phase: u32) -> u32
    ensures value { result ≡ saw_down phase }
    ensures bound { result ≤ 2 ^ 24 }
{
    (HALF - 1).wrapping_sub(phase) >> 8
}

#[tactic(auto, unfolding(crate::specs::Waves::saw_up))]
fn saw_up(phase: u32) -> u32
    ensures value { result ≡ saw_up phase }
    ensures bound { result ≤ 2 ^ 24 }
{
    phase.wrapping_add(HALF) >> 8
}

#[tactic(auto, unfolding(crate::specs::Waves::square))]
fn square(phase: u32) -> u32
    ensures value { result ≡ square phase }
    ensures bound { result ≤ 2 ^ 24 }
{
    if phase < HALF { GREATEST } else { 0 }
}

fn sine_wave(tables: &Tables, phase: u32) -> i32
    ensures value { result ≡ sine_wave phase }
    ensures low { pos 0 ≤ℤ result }
    ensures high { result ≤ℤ pos (2 ^ 24) }
{
    (GREATEST / 2) as i32 + (tables.sin((phase >> 8) as i32) >> 1)
}

#[tactic(auto, unfolding(crate::specs::Waves::held_value))]
fn held_value(random: u8) -> u32
    ensures value { result ≡ held_value random }
    ensures bound { result ≤ 2 ^ 24 }
{
    65536 * (u32::from(random ^ 128) + 1)
}
