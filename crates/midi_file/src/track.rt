//! A track of a MIDI file: its events one after the other, each at its tick.

ghost use Rattle.std.specs.Prelude.{ℕ, List, ◌≡◌, ◌≤◌, ◌<◌, ◌+◌, ◌++◌, length, IfErr, OnOk};
ghost use Rattle.velocity_map.specs.declared.curve.Curve.TheVariants.{Linear};
ghost use Rattle.velocity_map.specs.Map.{curve_of};
ghost use Rattle.midi_file.specs.Track.{ends_track, track_outcomes};
ghost use Rattle.midi_file.specs.FileSoFar.{Faults, all_come};
ghost use Rattle.midi_file.specs.Values.{kind_data};

use crate::bytes::refused_at;
use crate::event::{EventKind, read_event};
use crate::feed::{Moment, apply_event};
use crate::timed::Timed;
use midi_stream::MidiReader;
use script_outcome::ScriptFault;
use std::alloc::Global;
use velocity_map::VelocityMap;

/// Reads the events of a track that ends at a place of the file, and adds what happens by them.
pub(crate) fn read_track(
    alloc: Global,
    bytes: &[u8],
    end: u32,
    map: &VelocityMap,
    acts: &mut Vec<Timed>,
) -> Result<(), ScriptFault>
    requires within { length bytes.now ≤ end }
    requires short { end ≤ 536870912 }
    requires linear { curve_of map.now ≡ Linear }
    ensures come { OnOk result (all_come acts.new.items ≡ all_come acts.old.items ++ track_outcomes end bytes.now) }
    ensures faults { IfErr result (λ why. Faults why (all_come acts.old.items ++ track_outcomes end bytes.now)) }
{
    let mut reader = match MidiReader::new(alloc) {
        Ok(reader) => reader,
        Err(_) => return Err(ScriptFault::Memory),
    };
    let mut tick = 0u64;
    let mut running = 0;
    let mut rest = bytes;
    while !rest.is_empty() {
        let place = end - rest.len() as u32;
        let event = match read_event(running, rest) {
            Ok(event) => event,
            Err(kind) => return Err(refused_at(place, kind)),
        };
        tick = tick_after(tick, event.delta);
        let at = Moment { tick, place };
        match apply_event(alloc, &mut reader, event.kind, at, map, acts) {
            Ok(()) => {}
            Err(fault) => return Err(fault),
        }
        if ends_track(event.kind) {
            return Ok(());
        }
        running = event.running;
        rest = event.rest;
    }
    Ok(())
}

/// The tick of an event, by the tick of the one before and its ticks after that.
fn tick_after(tick: u64, delta: u32) -> u64
    requires { tick < 9223372036854775808 }
    ensures tick { result ≡ tick + delta }
    ensures near { result < tick + 4294967296 }
{
    tick + u64::from(delta)
}

/// Whether an event ends its track.
fn ends_track(kind: EventKind<'_>) -> bool
    ensures { result ≡ ends_track (kind_data kind.entry) }
{
    match kind {
        EventKind::End => true,
        EventKind::Message(_)
        | EventKind::Exclusive(_)
        | EventKind::Continued(_)
        | EventKind::Tempo(_)
        | EventKind::Other => false,
    }
}
