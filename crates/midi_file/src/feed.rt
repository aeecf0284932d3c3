//! What the events of a track tell.

ghost use Rattle.std.specs.Prelude.{ℕ, List, ◌≡◌, ◌≤◌, [], ◌∷◌, ◌++◌, length, IfErr, OnOk};
ghost use Rattle.midi_stream.specs.Ranges.{InRange};
ghost use Rattle.midi_stream.specs.FedStream.{Reads};
ghost use Rattle.velocity_map.specs.declared.curve.Curve.TheVariants.{Linear};
ghost use Rattle.velocity_map.specs.Map.{curve_of};
ghost use Rattle.command_set.specs.Message.{command_of};
ghost use Rattle.midi_stream.specs.Ended.{ended_message};
ghost use Rattle.midi_file.specs.Track.{Comes, event_outcomes, fed_by, bytes_outcomes, ended_outcomes, timed_at, message_outcomes};
ghost use Rattle.midi_file.specs.FileSoFar.{Faults, all_come};
ghost use Rattle.midi_file.specs.Values.{IsSoundAct, IsSoundKind, act_data, kind_data};

use crate::bytes::refused_at;
use crate::event::EventKind;
use crate::timed::{Act, Timed};
use command_set::{CommandFault, from_message};
use midi_stream::{MidiMessage, MidiReader};
use script_outcome::{ScriptFault, ScriptKind};
use std::alloc::Global;
use velocity_map::VelocityMap;

/// Where an event stands: its tick, and the place of its first byte.
#[derive(Clone, Copy, Debug)]
pub(crate) struct Moment {
    pub(crate) tick: u64,
    pub(crate) place: u32,
}

/// Adds what an event does. Bytes of system exclusive events go to the track's own reader.
pub(crate) fn apply_event(
    alloc: Global,
    reader: &mut MidiReader,
    kind: EventKind<'_>,
    at: Moment,
    map: &VelocityMap,
    acts: &mut Vec<Timed>,
) -> Result<(), ScriptFault>
    requires linear { curve_of map.now ≡ Linear }
    requires sound { IsSoundKind kind }
    ensures reads { OnOk result ((stream : List ℕ) → Reads reader.old stream → Reads reader.new (stream ++ fed_by (kind_data kind.entry))) }
    ensures come { OnOk result ((stream : List ℕ) → Reads reader.old stream
        → all_come acts.new.items ≡ all_come acts.old.items ++ event_outcomes at.tick at.place stream (kind_data kind.entry)) }
    ensures faults { IfErr result (λ why. (stream : List ℕ) → Reads reader.old stream
        → Faults why (all_come acts.old.items ++ event_outcomes at.tick at.place stream (kind_data kind.entry))) }
{
    match kind {
        EventKind::Message(message) => apply_message(alloc, message, &[], at, map, acts),
        EventKind::Exclusive(bytes) => feed_exclusive(alloc, reader, bytes, at, map, acts),
        EventKind::Continued(bytes) => feed_all(alloc, reader, bytes, at, map, acts),
        EventKind::Tempo(tempo) => add(acts, at, Act::Tempo(tempo)),
        EventKind::End | EventKind::Other => Ok(()),
    }
}

/// Feeds the byte that begins a message, and those after it.
#[tactic(auto, unfolding(crate::specs::Track::bytes_outcomes))]
fn feed_exclusive(
    alloc: Global,
    reader: &mut MidiReader,
    bytes: &[u8],
    at: Moment,
    map: &VelocityMap,
    acts: &mut Vec<Timed>,
) -> Result<(), ScriptFault>
    requires linear { curve_of map.now ≡ Linear }
    ensures reads { OnOk result ((stream : List ℕ) → Reads reader.old stream → Reads reader.new (stream ++ 240 ∷ bytes.now)) }
    ensures come { OnOk result ((stream : List ℕ) → Reads reader.old stream
        → all_come acts.new.items ≡ all_come acts.old.items ++ bytes_outcomes at.tick at.place stream (240 ∷ bytes.now)) }
    ensures faults { IfErr result (λ why. (stream : List ℕ) → Reads reader.old stream
        → Faults why (all_come acts.old.items ++ bytes_outcomes at.tick at.place stream (240 ∷ bytes.now))) }
{
    match feed_byte(alloc, reader, 0xF0, at, map, acts) {
        Ok(()) => feed_all(alloc, reader, bytes, at, map, acts),
        Err(fault) => Err(fault),
    }
}

/// Feeds bytes to a track's reader.
fn feed_all(
    alloc: Global,
    reader: &mut MidiReader,
    bytes: &[u8],
    at: Moment,
    map: &VelocityMap,
    acts: &mut Vec<Timed>,
) -> Result<(), ScriptFault>
    requires linear { curve_of map.now ≡ Linear }
    ensures reads { OnOk result ((stream : List ℕ) → Reads reader.old stream → Reads reader.new (stream ++ bytes.now)) }
    ensures come { OnOk result ((stream : List ℕ) → Reads reader.old stream
        → all_come acts.new.items ≡ all_come acts.old.items ++ bytes_outcomes at.tick at.place stream bytes.now) }
    ensures faults { IfErr result (λ why. (stream : List ℕ) → Reads reader.old stream
        → Faults why (all_come acts.old.items ++ bytes_outcomes at.tick at.place stream bytes.now)) }
{
    for byte in bytes {
        match feed_byte(alloc, reader, *byte, at, map, acts) {
            Ok(()) => {}
            Err(fault) => return Err(fault),
        }
    }
    Ok(())
}

/// Feeds a byte to a track's reader, and adds what the message tells that ends with it.
fn feed_byte(
    alloc: Global,
    reader: &mut MidiReader,
    byte: u8,
    at: Moment,
    map: &VelocityMap,
    acts: &mut Vec<Timed>,
) -> Result<(), ScriptFault>
    requires linear { curve_of map.now ≡ Linear }
    ensures reads { (stream : List ℕ) → Reads reader.old stream → Reads reader.new (stream ++ byte ∷ []) }
    ensures come { OnOk result ((stream : List ℕ) → Reads reader.old stream
        → all_come acts.new.items ≡ all_come acts.old.items ++ ended_outcomes at.tick at.place (ended_message stream byte)) }
    ensures faults { IfErr result (λ why. (stream : List ℕ) → Reads reader.old stream
        → Faults why (all_come acts.old.items ++ ended_outcomes at.tick at.place (ended_message stream byte))) }
{
    match reader.feed(byte) {
        None => Ok(()),
        Some(message) => apply_message(alloc, message, reader.sysex(), at, map, acts),
    }
}

/// Adds what a message tells.
fn apply_message(
    alloc: Global,
    message: MidiMessage,
    sysex: &[u8],
    at: Moment,
    map: &VelocityMap,
    acts: &mut Vec<Timed>,
) -> Result<(), ScriptFault>
    requires range { InRange message }
    requires bytes { length sysex.now ≤ 5000 }
    requires linear { curve_of map.now ≡ Linear }
    ensures come { OnOk result (all_come acts.new.items ≡ all_come acts.old.items
        ++ message_outcomes at.tick at.place (command_of message sysex.now Linear)) }
    ensures faults { IfErr result (λ why. Faults why (all_come acts.old.items
        ++ message_outcomes at.tick at.place (command_of message sysex.now Linear))) }
{
    match from_message(alloc, message, sysex, map) {
        Ok(Some(command)) => add(acts, at, Act::Command(command)),
        Ok(None) => Ok(()),
        Err(CommandFault::TooLong { .. }) => Err(refused_at(at.place, ScriptKind::Long)),
        Err(CommandFault::Frame(fault)) => { Err(refused_at(at.place, ScriptKind::Message(fault))) }
        Err(CommandFault::Memory) => Err(ScriptFault::Memory),
    }
}

/// Adds what happens at an event.
fn add(acts: &mut Vec<Timed>, at: Moment, act: Act) -> Result<(), ScriptFault>
    requires { IsSoundAct (act_data act) }
    ensures come { OnOk result (all_come acts.new.items ≡ all_come acts.old.items ++ Comes (timed_at at.tick at.place (act_data act)) ∷ []) }
    ensures memory { IfErr result (λ why. why ≡ ScriptFault.Memory) }
{
    match acts.push(Timed::new(at.tick, at.place, act)) {
        Ok(()) => Ok(()),
        Err(_) => Err(ScriptFault::Memory),
    }
}
