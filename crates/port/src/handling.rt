//! What comes of one message.

ghost use Rattle.std.specs.Prelude.{◌≡◌, ◌+◌, ◌<◌, ◌≤◌, ◌∷◌, ◌++◌, [], None, List, ℕ, length};
ghost use Rattle.midi_stream.specs.Ranges.{InRange};
ghost use Rattle.velocity_map.specs.declared.curve.Curve.{Curve};
ghost use Rattle.velocity_map.specs.Map.{curve_of};
ghost use Rattle.command_set.specs.Command.{IsInRange, content};
ghost use Rattle.command_set.specs.Message.{MessageOutcome, Yields, command_of};
ghost use Rattle.command_queue.specs.Ends.{quota_of};
ghost use Rattle.port.specs.Ranges.{SendsInRange};
ghost use Rattle.port.specs.Handling.{IsDoneOrKept, KeepsThis, KeepsNoMessage, OneMore};

use crate::fed::Fed;
use crate::kept::{Kept, KeptMessage, Waiting};
use command_queue::{Line, SendEnd};
use command_set::{Command, CommandFault, from_message};
use midi_stream::MidiMessage;
use std::alloc::Global;
use std::sync::Wait;
use velocity_map::VelocityMap;

/// Sends a command, or keeps it where the line is full.
pub(crate) fn send<R: Wait>(
    rt: &R,
    line: &Line,
    end: &mut SendEnd,
    kept: &mut Option<Kept>,
    command: Command,
) -> Fed
    requires line { end.old.line ≡ line.now }
    requires quota { length end.old.list < quota_of end.old }
    requires command { IsInRange (content command) }
    requires clear { kept.old ≡ None }
    ensures done { (curve : Curve) (bytes : List ℕ) → IsDoneOrKept curve bytes (Yields (content command)) kept.new end.old end.new result }
    ensures keeps { KeepsNoMessage kept.new }
    ensures one { OneMore end.old end.new 0 result }
    ensures ranges { SendsInRange end.old end.new }
{
    match line.send(rt, end, 0, command) {
        Ok(_) => Fed::SENT,
        Err(full) => {
            *kept = Some(Kept::Command(Waiting::new(full.command)));
            Fed::FULL
        }
    }
}

/// Sends the command of a message with its bytes, if it has one, or keeps it where it can't be made now.
pub(crate) fn handle<R: Wait>(
    rt: &R,
    alloc: Global,
    line: &Line,
    end: &mut SendEnd,
    kept: &mut Option<Kept>,
    map: &VelocityMap,
    message: MidiMessage,
    sysex: &[u8],
) -> Fed
    requires line { end.old.line ≡ line.now }
    requires quota { length end.old.list < quota_of end.old }
    requires range { InRange message }
    requires bytes { length sysex.now ≤ 5000 }
    requires clear { kept.old ≡ None }
    ensures done { IsDoneOrKept (curve_of map.now) sysex.now (command_of message sysex.now (curve_of map.now)) kept.new end.old end.new result }
    ensures message { KeepsThis kept.new message }
    ensures one { OneMore end.old end.new 0 result }
    ensures ranges { SendsInRange end.old end.new }
{
    match from_message(alloc, message, sysex, map) {
        Ok(Some(command)) => send(rt, line, end, kept, command),
        Ok(None) => Fed::PASSED_OVER,
        Err(CommandFault::Memory) => {
            *kept = Some(Kept::Message(KeptMessage::new(message)));
            Fed::MEMORY
        }
        Err(CommandFault::TooLong { .. }) => Fed::REFUSED,
        Err(CommandFault::Frame(_)) => Fed::REFUSED,
    }
}
