//! A stream of MIDI bytes and the commands that come of it.

ghost use Rattle.std.specs.Prelude.{ℕ, List, ◌≡◌, ◌≤◌, [], ◌∷◌, ◌++◌, length, IfErr, IfOk, OnOk};
ghost use Rattle.midi_stream.specs.Ranges.{InRange};
ghost use Rattle.midi_stream.specs.FedStream.{Reads};
ghost use Rattle.velocity_map.specs.Map.{curve_of};
ghost use Rattle.command_set.specs.Command.{IsInRange, content};
ghost use Rattle.command_set.specs.Message.{command_of};
ghost use Rattle.script_plan.specs.Plan.{last_due, planned_at};
ghost use Rattle.midi_stream.specs.Ended.{ended_message};
ghost use Rattle.script_outcome.specs.Outcomes.{Gives, fed_outcomes, ended_outcomes, message_outcomes};
ghost use Rattle.script_outcome.specs.ReaderAnswer.{Stops, all_given};

use crate::fault::{Place, ScriptFault, ScriptKind};
use command_set::{Command, CommandFault, from_message};
use midi_stream::{MidiMessage, MidiReader};
use script_plan::Script;
use std::alloc::{AllocError, Global};
use velocity_map::VelocityMap;

/// A reader of a stream, and the commands so far.
#[derive(Drop)]
pub struct Feed {
    pub reader: MidiReader,
    pub script: Script,
}

/// Where a byte stands: the place that a fault names, and the block at which a command is due.
#[derive(Clone, Copy, Debug)]
pub struct Spot {
    pub place: Place,
    pub block: u32,
}

impl Feed {
    /// A reader of a new stream, and no commands. It asks for the memory that the reader needs.
    pub fn new(alloc: Global) -> Result<Feed, AllocError>
        ensures reads { IfOk result (λ feed. Reads feed.reader []) }
        ensures script { IfOk result (λ feed. feed.script ≡ []) }
    {
        Ok(Feed {
            reader: MidiReader::new(alloc)?,
            script: Script::new(alloc),
        })
    }

    /// Reads the next byte, and adds what comes of it.
    pub fn read_byte(
        &mut self,
        alloc: Global,
        byte: u8,
        spot: Spot,
        map: &VelocityMap,
        room: u32,
    ) -> Result<(), ScriptFault>
        requires due { last_due self.old.script ≤ spot.block }
        requires few { length self.old.script ≤ room }
        ensures reads { (stream : List ℕ) → Reads self.old.reader stream → Reads self.new.reader (stream ++ byte ∷ []) }
        ensures given { OnOk result ((stream : List ℕ) → Reads self.old.reader stream
            → all_given self.new.script
            ≡ all_given self.old.script ++ ended_outcomes spot.place spot.block (curve_of map.now) (ended_message stream byte)) }
        ensures stops { IfErr result (λ why. (stream : List ℕ) → Reads self.old.reader stream
            → Stops why room (all_given self.old.script ++ ended_outcomes spot.place spot.block (curve_of map.now) (ended_message stream byte))) }
        ensures due { OnOk result (last_due self.new.script ≤ spot.block) }
        ensures few { OnOk result (length self.new.script ≤ room) }
    {
        match self.reader.feed(byte) {
            None => Ok(()),
            Some(message) => {
                let script = &mut self.script;
                add_message(alloc, script, message, self.reader.sysex(), spot, map, room)
            }
        }
    }
}

/// Reads all bytes of a line.
pub fn read_bytes(
    alloc: Global,
    feed: &mut Feed,
    bytes: &[u8],
    spot: Spot,
    map: &VelocityMap,
    room: u32,
) -> Result<(), ScriptFault>
    requires due { last_due feed.old.script ≤ spot.block }
    requires few { length feed.old.script ≤ room }
    ensures reads { OnOk result ((stream : List ℕ) → Reads feed.old.reader stream → Reads feed.new.reader (stream ++ bytes.now)) }
    ensures given { OnOk result ((stream : List ℕ) → Reads feed.old.reader stream
        → all_given feed.new.script
        ≡ all_given feed.old.script ++ fed_outcomes (λ before. spot.place) spot.block (curve_of map.now) stream bytes.now) }
    ensures stops { IfErr result (λ why. (stream : List ℕ) → Reads feed.old.reader stream
        → Stops why room (all_given feed.old.script ++ fed_outcomes (λ before. spot.place) spot.block (curve_of map.now) stream bytes.now)) }
    ensures due { OnOk result (last_due feed.new.script ≤ spot.block) }
    ensures few { OnOk result (length feed.new.script ≤ room) }
{
    for byte in bytes {
        match feed.read_byte(alloc, *byte, spot, map, room) {
            Ok(()) => {}
            Err(fault) => return Err(fault),
        }
    }
    Ok(())
}

/// Adds what comes of a message with its bytes.
fn add_message(
    alloc: Global,
    script: &mut Script,
    message: MidiMessage,
    sysex: &[u8],
    spot: Spot,
    map: &VelocityMap,
    room: u32,
) -> Result<(), ScriptFault>
    requires range { InRange message }
    requires bytes { length sysex.now ≤ 5000 }
    requires due { last_due script.old ≤ spot.block }
    requires few { length script.old ≤ room }
    ensures given { OnOk result (all_given script.new
        ≡ all_given script.old ++ message_outcomes spot.place spot.block (command_of message sysex.now (curve_of map.now))) }
    ensures stops { IfErr result (λ why. Stops why room
        (all_given script.old ++ message_outcomes spot.place spot.block (command_of message sysex.now (curve_of map.now)))) }
    ensures due { OnOk result (last_due script.new ≤ spot.block) }
    ensures few { OnOk result (length script.new ≤ room) }
{
    let kind = match from_message(alloc, message, sysex, map) {
        Ok(Some(command)) => return give(script, spot.block, command, room),
        Ok(None) => return Ok(()),
        Err(CommandFault::TooLong { .. }) => ScriptKind::Long,
        Err(CommandFault::Frame(fault)) => ScriptKind::Message(fault),
        Err(CommandFault::Memory) => return Err(ScriptFault::Memory),
    };
    Err(ScriptFault::Refused {
        place: spot.place,
        kind,
    })
}

/// Adds a command, where there is room.
pub fn give(script: &mut Script, block: u32, command: Command, room: u32) -> Result<(), ScriptFault>
    requires command { IsInRange (content command) }
    requires due { last_due script.old ≤ block }
    requires few { length script.old ≤ room }
    ensures given { OnOk result (all_given script.new ≡ all_given script.old ++ Gives (planned_at block (content command)) ∷ []) }
    ensures stops { IfErr result (λ why. Stops why room (all_given script.old ++ Gives (planned_at block (content command)) ∷ [])) }
    ensures due { OnOk result (last_due script.new ≤ block) }
    ensures few { OnOk result (length script.new ≤ room) }
{
    if script.len() >= room as usize {
        return Err(ScriptFault::TooMany);
    }
    match script.push(block, command) {
        Ok(()) => Ok(()),
        Err(_) => Err(ScriptFault::Memory),
    }
}
