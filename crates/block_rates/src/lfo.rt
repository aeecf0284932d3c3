//! The LFO of all notes.

ghost use Rattle.std.specs.Prelude.{ℕ, ◌≡◌, ◌≤◌, ◌^◌, pos, ◌≤ℤ◌};

use crate::cycle::{held_random, phase_at_key, phase_increment};
use crate::delay::{depth_of, next_delay_state};
use crate::wave::Wave;
use dx_tables::Tables;
use voice_record::Voice;
use voice_record::parameter::{LFO_DELAY, LFO_SPEED, LFO_SYNC, LFO_WAVE};

/// The low-frequency oscillator (LFO) of all notes, which steps once a block.
#[derive(Clone, Copy)]
pub struct Lfo {
    speed: u8,
    delay: u8,
    is_synced: bool,
    wave: Wave,
    phase: u32,
    random: u8,
    delay_state: u32,
    ghost speed_bound: { speed ≤ 99 },
    ghost delay_bound: { delay ≤ 99 },
}

impl Lfo {
    ghost use Rattle.std.specs.Prelude.{◌+◌};
    ghost use Rattle.block_rates.specs.Lfos.{LfoState, opening_lfo};
    ghost use Rattle.block_rates.specs.Lfos.{lfo_settings, assigned, key_pressed};
    ghost use Rattle.block_rates.specs.Lfos.{lfo_value, lfo_depth};
    ghost use Rattle.block_rates.specs.LfoStates.{IsLfo};

    /// An LFO with the settings of the opening voice.
    pub fn new() -> Lfo
        ensures { IsLfo result opening_lfo 0 }
    {
        Lfo {
            speed: 35,
            delay: 0,
            is_synced: true,
            wave: Wave::Triangle,
            phase: 0,
            random: 0,
            delay_state: 0,
        }
    }

    /// Adopts the settings of a voice: speed, delay, sync and wave.
    pub fn assign(&mut self, voice: &Voice)
        ensures { (o : LfoState) (m : ℕ) →
            IsLfo self.old o m → IsLfo self.new (assigned (lfo_settings voice.now) o m) 0 }
    {
        self.speed = voice.get(LFO_SPEED);
        self.delay = voice.get(LFO_DELAY);
        self.is_synced = voice.get(LFO_SYNC) == 1;
        self.wave = Wave::of(voice.get(LFO_WAVE));
    }

    /// A key goes down: the delay begins anew, and the wave where it is in sync.
    pub fn key_down(&mut self)
        ensures { (o : LfoState) (m : ℕ) →
            IsLfo self.old o m → IsLfo self.new (key_pressed o m) 0 }
    {
        self.phase = phase_at_key(self.is_synced, self.phase);
        self.delay_state = 0;
    }

    /// The value and the depth of the next block, where 2^24 is the greatest of both.
    pub fn step(&mut self, tables: &Tables) -> (i32, i32)
        ensures value { (o : LfoState) (m : ℕ) →
            IsLfo self.old o m → result.0 ≡ lfo_value o (m + 1) }
        ensures depth { (o : LfoState) (m : ℕ) →
            IsLfo self.old o m → result.1 ≡ pos (lfo_depth o (m + 1)) }
        ensures stands { (o : LfoState) (m : ℕ) →
            IsLfo self.old o m → IsLfo self.new o (m + 1) }
        ensures value_low { pos 0 ≤ℤ result.0 }
        ensures value_high { result.0 ≤ℤ pos (2 ^ 24) }
        ensures depth_low { pos 0 ≤ℤ result.1 }
        ensures depth_high { result.1 ≤ℤ pos (2 ^ 24) }
    {
        let increment = phase_increment(self.speed);
        self.phase = self.phase.wrapping_add(increment);
        self.random = held_random(self.wave, self.phase < increment, self.random);
        let depth = depth_of(self.delay, self.delay_state);
        self.delay_state = next_delay_state(self.delay, self.delay_state);
        (
            self.wave.value(tables, self.phase, self.random),
            depth as i32,
        )
    }
}
