//! A script that is a stream of MIDI bytes.

ghost use Rattle.std.specs.Prelude.{ℕ, List, ◌≡◌, ◌+◌, ◌≤◌, ◌||◌, length, not, true, false, if◌then◌else◌, IfErr, IfOk, OnErr, OnOk};
ghost use Rattle.midi_stream.specs.Messages.{is_unfinished};
ghost use Rattle.midi_stream.specs.FedStream.{Reads};
ghost use Rattle.velocity_map.specs.declared.curve.Curve.TheVariants.{Linear};
ghost use Rattle.velocity_map.specs.Map.{curve_of};
ghost use Rattle.script_outcome.specs.Stream.{is_status};
ghost use Rattle.script_read.specs.Outcomes.{stream_outcomes};
ghost use Rattle.script_outcome.specs.ReaderAnswer.{Settles};

use script_outcome::{Feed, Place, ScriptFault, ScriptKind, Spot};
use script_plan::Script;
use std::alloc::Global;
use velocity_map::VelocityMap;

/// Reads a stream. Its commands are due at block 0.
pub(crate) fn read_stream(
    alloc: Global,
    bytes: &[u8],
    map: &VelocityMap,
    room: u32,
) -> Result<Script, ScriptFault>
    requires bytes { length bytes.now ≤ 536870912 }
    requires linear { curve_of map.now ≡ Linear }
    ensures { Settles result room (stream_outcomes bytes.now) }
{
    let mut feed = match Feed::new(alloc) {
        Ok(feed) => feed,
        Err(_) => return Err(ScriptFault::Memory),
    };
    let mut start = 0;
    for (at, byte) in bytes.iter().enumerate() {
        let next = start_after(start, at as u32, *byte, feed.reader.at_rest());
        let spot = Spot {
            place: Place::Byte(start),
            block: 0,
        };
        match feed.read_byte(alloc, *byte, spot, map, room) {
            Ok(()) => start = next,
            Err(fault) => return Err(fault),
        }
    }
    end(feed, start)
}

/// Where the last message begins, after the byte at a place.
fn start_after(start: u32, at: u32, byte: u8, at_rest: bool) -> u32
    ensures { result ≡ (if is_status byte || at_rest then at else start) }
{
    if (0x80..0xF8).contains(&byte) || at_rest {
        at
    } else {
        start
    }
}

/// The commands, where the stream doesn't end within a message.
fn end(feed: Feed, start: u32) -> Result<Script, ScriptFault>
    ensures given { IfOk result (λ script. script ≡ feed.script) }
    ensures whole { OnOk result ((stream : List ℕ) → Reads feed.reader stream → is_unfinished stream ≡ false) }
    ensures cut { IfErr result (λ why. why ≡ ScriptFault.Refused (Place.Byte start) ScriptKind.Cut) }
    ensures unfinished { OnErr result ((stream : List ℕ) → Reads feed.reader stream → is_unfinished stream ≡ true) }
{
    if feed.reader.at_rest() {
        Ok(feed.script)
    } else {
        Err(ScriptFault::Refused {
            place: Place::Byte(start),
            kind: ScriptKind::Cut,
        })
    }
}
