//! A whole MIDI file: all of it is read, and then its commands get their blocks.

ghost use Rattle.std.specs.Prelude.{ℕ, ◌≡◌, ◌<◌, ◌≤◌, [], ◌++◌, length, IfErr, IfOk, OnOk};
ghost use Rattle.velocity_map.specs.declared.curve.Curve.TheVariants.{Linear};
ghost use Rattle.velocity_map.specs.Map.{curve_of};
ghost use Rattle.midi_file.specs.Track.{TimedData};
ghost use Rattle.midi_file.specs.Chunks.{division_of, file_outcomes};
ghost use Rattle.midi_file.specs.File.{IsInTime, in_order, midi_outcomes, timed_plan};
ghost use Rattle.midi_file.specs.FileSoFar.{Faults, all_come};
ghost use Rattle.script_outcome.specs.ReaderAnswer.{Settles};

use crate::bytes::refused_at;
use crate::chunk::{read_header, read_tracks};
use crate::plan::plan_acts;
use crate::timed::Timed;
use script_outcome::{Bounds, ScriptFault};
use script_plan::Script;
use std::alloc::Global;
use velocity_map::VelocityMap;

/// Reads a MIDI file of format 0 or 1: its commands with their blocks, or its first fault, or that the next command would be more than
/// there is room for.
///
/// All of it is read before its commands are looked at.
pub fn read_midi_file(
    alloc: Global,
    bytes: &[u8],
    map: &VelocityMap,
    bounds: Bounds,
) -> Result<Script, ScriptFault>
    requires bytes { length bytes.now ≤ 536870912 }
    requires linear { curve_of map.now ≡ Linear }
    ensures { Settles result bounds.room (midi_outcomes bounds.blocks bytes.now) }
{
    let mut acts = Vec::new(alloc);
    let division = match read_acts(alloc, bytes, map, &mut acts) {
        Ok(division) => division,
        Err(fault) => return Err(fault),
    };
    match sort_by_tick(&mut acts) {
        Ok(()) => plan_acts(alloc, acts, division, bounds),
        Err(fault) => Err(fault),
    }
}

/// Reads all that happens in a file, in the order of its bytes, and answers its division: the ticks of a quarter note.
#[tactic(auto, unfolding(crate::specs::Chunks::file_outcomes))]
fn read_acts(
    alloc: Global,
    bytes: &[u8],
    map: &VelocityMap,
    acts: &mut Vec<Timed>,
) -> Result<u16, ScriptFault>
    requires bytes { length bytes.now ≤ 536870912 }
    requires linear { curve_of map.now ≡ Linear }
    requires none { acts.old.items ≡ [] }
    ensures come { OnOk result (all_come acts.new.items ≡ file_outcomes bytes.now) }
    ensures division { IfOk result (λ division. division ≡ division_of bytes.now) }
    ensures some { IfOk result (λ division. 0 < division) }
    ensures faults { IfErr result (λ why. Faults why (file_outcomes bytes.now)) }
{
    let header = match read_header(bytes) {
        Ok(header) => header,
        Err((place, kind)) => return Err(refused_at(place, kind)),
    };
    let size = bytes.len() as u32;
    match read_tracks(alloc, header.rest, size, header.tracks, map, acts) {
        Ok(()) => Ok(header.division),
        Err(fault) => Err(fault),
    }
}

/// Puts what happens in the order of ticks. What happens at one tick keeps its order.
fn sort_by_tick(acts: &mut Vec<Timed>) -> Result<(), ScriptFault>
    ensures order { OnOk result (acts.new.items ≡ in_order acts.old.items) }
    ensures time { OnOk result (IsInTime 0 acts.new.items) }
    ensures memory { IfErr result (λ why. why ≡ ScriptFault.Memory) }
{
    match acts.sort_by_key(|timed| timed.tick()) {
        Ok(()) => Ok(()),
        Err(_) => Err(ScriptFault::Memory),
    }
}
