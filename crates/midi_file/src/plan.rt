//! The plan of a MIDI file by what happens in it.

ghost use Rattle.std.specs.Prelude.{ℕ, ◌≡◌, ◌<◌, ◌≤◌, ◌∷◌, ◌++◌, [], length, IfErr, IsFalse, OnOk};
ghost use Rattle.command_set.specs.Command.{IsInRange, content};
ghost use Rattle.script_plan.specs.Plan.{last_due};
ghost use Rattle.midi_file.specs.Track.{Plays, TimedData};
ghost use Rattle.midi_file.specs.Time.{block_of};
ghost use Rattle.midi_file.specs.File.{IsInTime, act_outcomes, is_too_late, timed_plan};
ghost use Rattle.script_outcome.specs.ReaderAnswer.{Settles, Stops, all_given};

use crate::bytes::refused_at;
use crate::time::Clock;
use crate::timed::{Act, Timed};
use command_set::Command;
use script_outcome::{Bounds, ScriptFault, ScriptKind, give};
use script_plan::Script;
use std::alloc::Global;

/// Gives the commands among what happens, in the order of ticks, each at its block.
pub(crate) fn plan_acts(
    alloc: Global,
    acts: Vec<Timed>,
    division: u16,
    bounds: Bounds,
) -> Result<Script, ScriptFault>
    requires division { 0 < division }
    requires order { IsInTime 0 acts.items }
    ensures { Settles result bounds.room (timed_plan bounds.blocks division acts.items) }
{
    let mut clock = Clock::new();
    let mut script = Script::new(alloc);
    for timed in acts {
        let (tick, place, act) = timed.into_parts();
        clock.advance(tick);
        match act {
            Act::Tempo(tempo) => clock.set_tempo(tempo),
            Act::Command(command) => {
                match give_at(&mut script, clock.block(division), place, command, bounds) {
                    Ok(()) => {}
                    Err(fault) => return Err(fault),
                }
            }
        }
    }
    Ok(script)
}

/// Gives a command at a block, which must be one of the run's and fit 32 bits; the place is that of its event.
fn give_at(
    script: &mut Script,
    block: u128,
    place: u32,
    command: Command,
    bounds: Bounds,
) -> Result<(), ScriptFault>
    requires command { IsInRange (content command) }
    requires due { last_due script.old ≤ block }
    requires few { length script.old ≤ bounds.room }
    ensures given { OnOk result (all_given script.new ≡ all_given script.old ++ act_outcomes bounds.blocks place block (Plays (content command))) }
    ensures stops { IfErr result (λ why. Stops why bounds.room (all_given script.old
        ++ act_outcomes bounds.blocks place block (Plays (content command)))) }
    ensures due { OnOk result (last_due script.new ≤ block) }
    ensures few { OnOk result (length script.new ≤ bounds.room) }
{
    if is_too_late(block, bounds) {
        return Err(refused_at(place, ScriptKind::Late));
    }
    give(script, block as u32, command, bounds.room)
}

/// Whether a block is above the greatest or not one of the run's.
fn is_too_late(block: u128, bounds: Bounds) -> bool
    ensures late { result ≡ is_too_late bounds.blocks block }
    ensures fits { IsFalse result → block < 4294967296 }
{
    block > u128::from(u32::MAX) || bounds.is_late(block as u32)
}
