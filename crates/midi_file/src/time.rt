//! The time of a MIDI file.
//!
//! A time is ticks times microseconds for a quarter note. Ticks are below 2^64 and tempos below 2^32, so a time is below 2^96, and 44100
//! times as much below 2^112: 128 bits hold it exactly. 64 bits would not: the greatest delta time at the greatest tempo comes to 52 bits,
//! and 44100 times as much to 68.

ghost use Rattle.std.specs.Prelude.{◌≡◌, ◌+◌, ◌-◌, ◌*◌, ◌<◌, ◌≤◌};
ghost use Rattle.midi_file.specs.Time.{block_of, first_tempo};

/// The tempo before the first tempo event: microseconds for a quarter note.
const FIRST_TEMPO: u32 = 500_000;

/// A time at a tick, and the tempo from there on.
#[derive(Clone, Copy, Debug, Drop)]
pub(crate) struct Clock {
    pub(crate) time: u128,
    pub(crate) tick: u64,
    pub(crate) tempo: u32,
    ghost low: { time ≤ tick * 4294967296 },
}

impl Clock {
    /// At the first tick.
    pub(crate) fn new() -> Clock
        ensures time { result.time ≡ 0 }
        ensures tick { result.tick ≡ 0 }
        ensures tempo { result.tempo ≡ first_tempo }
    {
        Clock {
            time: 0,
            tick: 0,
            tempo: FIRST_TEMPO,
        }
    }

    /// Goes on to a tick.
    pub(crate) fn advance(&mut self, tick: u64)
        requires { self.old.tick ≤ tick }
        ensures time { self.new.time ≡ self.old.time + (tick - self.old.tick) * self.old.tempo }
        ensures tick { self.new.tick ≡ tick }
        ensures tempo { self.new.tempo ≡ self.old.tempo }
    {
        let stretch = u128::from(tick - self.tick) * u128::from(self.tempo);
        let time = self.time + stretch;
        *self = Clock {
            time,
            tick,
            tempo: self.tempo,
        };
    }

    /// Sets the tempo from here on.
    pub(crate) fn set_tempo(&mut self, tempo: u32)
        ensures time { self.new.time ≡ self.old.time }
        ensures tick { self.new.tick ≡ self.old.tick }
        ensures tempo { self.new.tempo ≡ tempo }
    {
        self.tempo = tempo;
    }

    /// The block at this time, of 64 samples at 44100 Hz, by the ticks of a quarter note.
    pub(crate) fn block(&self, division: u16) -> u128
        requires { 0 < division }
        ensures { result ≡ block_of division self.now.time }
    {
        self.time * 44100 / (u128::from(division) * 64_000_000)
    }
}
