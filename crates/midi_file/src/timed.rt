//! What happens at a tick of a MIDI file.

ghost use Rattle.std.specs.Prelude.{◌≡◌};
ghost use Rattle.midi_file.specs.Track.{timed_at};
ghost use Rattle.midi_file.specs.Values.{IsSoundAct, act_data};

use command_set::Command;
use std::marker::Model;

/// What happens at a tick: a new tempo, in microseconds for a quarter note, or a command.
#[derive(Drop)]
pub(crate) enum Act {
    Tempo(u32),
    Command(Command),
}

/// What happens, with its tick and the place of its event's first byte. Contracts see these as plain data; a command is in range.
#[derive(Drop)]
pub(crate) struct Timed {
    tick: u64,
    place: u32,
    act: Act,
}

impl Model for Timed {
    ghost use Rattle.midi_file.specs.Track.{TimedData, timed_at};
    ghost use Rattle.midi_file.specs.Values.{IsSoundAct, act_data};

    ghost Value = { TimedData };

    ghost view = { λ t. timed_at t.tick t.place (act_data t.act) };

    ghost invariant = { λ t. IsSoundAct (act_data t.act) };
}

impl Timed {
    /// What happens at a tick by the event at a place.
    pub(crate) fn new(tick: u64, place: u32, act: Act) -> Timed
        requires { IsSoundAct (act_data act) }
        ensures { result ≡ timed_at tick place (act_data act) }
    {
        Timed { tick, place, act }
    }

    /// The tick.
    pub(crate) fn tick(&self) -> u64
        ensures { result ≡ self.now.tick }
    {
        self.tick
    }

    /// The tick, the place and what happens.
    pub(crate) fn into_parts(self) -> (u64, u32, Act)
        ensures parts { self ≡ timed_at result.0 result.1 (act_data result.2) }
        ensures sound { IsSoundAct (act_data result.2) }
    {
        let Timed { tick, place, act } = self;
        (tick, place, act)
    }
}
