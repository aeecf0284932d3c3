//! The scripts of a run, read and judged one after the other.
ghost use Rattle.std.specs.Prelude.{◌≡◌, ◌+◌, ◌-◌, ◌<◌, ◌≤◌, ℕ, List, Option, All, IfOk, IfErr, IfSome, OnOk, length, map, string_bytes};
ghost use Rattle.outside.specs.Files.{Lacks};
ghost use Rattle.outside.specs.Faults.{Rose};
ghost use Rattle.script_plan.specs.Plan.{PlannedData};
ghost use Rattle.script_outcome.specs.Plan.{Commands};
ghost use Rattle.script_read.specs.Plan.{plan};
ghost use Rattle.play_core.specs.Limits.{command_limit, script_limit, scripts_limit};
ghost use Rattle.turns.specs.Turns.{many_commands};
ghost use Rattle.play_core.specs.Verdict.{Verdict, nothing, of_text, of_scripts, Plays};
ghost use Rattle.play_core.specs.Refused.{IsCaused, IsOfContent, AgreesWith};
ghost use Rattle.play_core.specs.Scan.{IsNext, NextCause, NextTells, AreBelow};

use crate::refusal::PlayRefusal;
use crate::totals::Totals;
use outside::{ReadFault, Shelf, read_all};
use script_outcome::{Bounds, ScriptFault};
use script_plan::Script;
use script_read::read_script;
use std::alloc::Global;
use velocity_map::MapSet;

const SCRIPT_LIMIT: u64 = 16_777_216;

const SCRIPTS_LIMIT: u64 = 67_108_864;

const COMMAND_LIMIT: u32 = 1_000_000;

/// The scripts with these names, each with at most as many commands as a run may have with those before. It touches no file.
pub(crate) fn read_scripts<S: Shelf>(
    alloc: Global,
    shelf: &mut S,
    names: &[String],
    maps: &MapSet,
    blocks: Option<u32>,
) -> Result<Vec<Script>, PlayRefusal>
    requires many { length names.now ≤ 256 }
    requires some { IfSome blocks (λ b. 0 < b) }
    ensures plans { IfOk result (λ scripts. IfSome (S.files shelf.old) (λ told.
        of_scripts told blocks nothing (map string_bytes names.now) ≡ Plays scripts.items)) }
    ensures many { IfOk result (λ scripts. length scripts.items ≡ length names.now) }
    ensures few { IfOk result (λ scripts. many_commands scripts.items ≤ command_limit) }
    ensures below { IfOk result (λ scripts. IfSome blocks (λ b. All (λ one. AreBelow b one) scripts.items)) }
    ensures kept { OnOk result (S.reading shelf.new ≡ S.reading shelf.old) }
    ensures tells { IfErr result (λ why. IfSome (S.files shelf.old) (λ told.
        AgreesWith why (of_scripts told blocks nothing (map string_bytes names.now)))) }
    ensures cause { IfErr result (λ why. IsCaused why blocks (S.files shelf.old) (map string_bytes names.now)
        (S.reading shelf.old) (S.reading shelf.new)) }
    ensures failed { S.failed shelf.new ≡ S.failed shelf.old }
    ensures files { S.files shelf.new ≡ S.files shelf.old }
    ensures writing { S.writing shelf.new ≡ S.writing shelf.old }
{
    let mut scripts = match Vec::with_capacity(alloc, names.len()) {
        Ok(scripts) => scripts,
        Err(_) => return Err(PlayRefusal::Memory),
    };
    let mut totals = Totals {
        scripts: 0,
        bytes: 0,
        commands: 0,
    };
    for name in names {
        let script = match read_next(alloc, shelf, name, maps, blocks, &mut totals) {
            Ok(script) => script,
            Err(why) => return Err(why),
        };
        match scripts.push(script) {
            Ok(()) => {}
            Err(_) => return Err(PlayRefusal::Memory),
        }
    }
    Ok(scripts)
}

// The next script, after those that were counted.
fn read_next<S: Shelf>(
    alloc: Global,
    shelf: &mut S,
    name: &str,
    maps: &MapSet,
    blocks: Option<u32>,
    totals: &mut Totals,
) -> Result<Script, PlayRefusal>
    requires scripts { totals.old.scripts < 256 }
    requires some { IfSome blocks (λ b. 0 < b) }
    requires bytes { totals.old.bytes ≤ scripts_limit }
    requires commands { totals.old.commands ≤ command_limit }
    ensures next { IfOk result (λ script. IsNext (S.files shelf.old) blocks name.now totals.old script totals.new) }
    ensures few { IfOk result (λ script. totals.new.commands ≡ totals.old.commands + length script) }
    ensures one { totals.new.scripts ≤ totals.old.scripts + 1 }
    ensures scripts { IfOk result (λ script. totals.new.scripts ≡ totals.old.scripts + 1) }
    ensures bytes { totals.new.bytes ≤ scripts_limit }
    ensures commands { totals.new.commands ≤ command_limit }
    ensures below { IfOk result (λ script. IfSome blocks (λ b. AreBelow b script)) }
    ensures kept { OnOk result (S.reading shelf.new ≡ S.reading shelf.old) }
    ensures tells { IfErr result (λ why. NextTells why (S.files shelf.old) blocks name.now totals.old) }
    ensures cause { IfErr result (λ why. NextCause why totals.old.scripts (S.files shelf.old) name.now (S.reading shelf.old) (S.reading shelf.new)) }
    ensures failed { S.failed shelf.new ≡ S.failed shelf.old }
    ensures files { S.files shelf.new ≡ S.files shelf.old }
    ensures writing { S.writing shelf.new ≡ S.writing shelf.old }
{
    let text = match read_all(alloc, shelf, name, SCRIPT_LIMIT) {
        Ok(text) => text,
        Err(ReadFault::Failed) => return Err(PlayRefusal::Unread(totals.scripts)),
        Err(ReadFault::TooLong) => return Err(PlayRefusal::LongFile),
        Err(ReadFault::Memory) => return Err(PlayRefusal::Memory),
    };
    match judge_text(alloc, &text, maps, blocks, *totals) {
        Ok(script) => {
            totals.scripts += 1;
            totals.bytes += text.len() as u64;
            totals.commands += script.len() as u32;
            Ok(script)
        }
        Err(why) => Err(why),
    }
}

// The script that this text is, after those that were counted.
fn judge_text(
    alloc: Global,
    text: &[u8],
    maps: &MapSet,
    blocks: Option<u32>,
    totals: Totals,
) -> Result<Script, PlayRefusal>
    requires text { length text.now ≤ script_limit }
    requires some { IfSome blocks (λ b. 0 < b) }
    requires bytes { totals.bytes ≤ scripts_limit }
    requires commands { totals.commands ≤ command_limit }
    ensures plan { IfOk result (λ script. plan text.now blocks (command_limit - totals.commands) ≡ Commands script) }
    ensures fits { IfOk result (λ script. totals.bytes + length text.now ≤ scripts_limit) }
    ensures few { IfOk result (λ script. totals.commands + length script ≤ command_limit) }
    ensures below { IfOk result (λ script. IfSome blocks (λ b. AreBelow b script)) }
    ensures tells { IfErr result (λ why. (after : List PlannedData → Verdict) → AgreesWith why (of_text blocks totals text.now after)) }
    ensures content { IfErr result (λ why. IsOfContent why) }
{
    let bytes = totals.bytes + text.len() as u64;
    if bytes > SCRIPTS_LIMIT {
        return Err(PlayRefusal::LongScripts);
    }
    let bounds = Bounds {
        blocks,
        room: COMMAND_LIMIT - totals.commands,
    };
    match read_script(alloc, text, maps, bounds) {
        Ok(script) => Ok(script),
        Err(ScriptFault::Refused { place, kind }) => Err(PlayRefusal::Fault {
            script: totals.scripts,
            place,
            kind,
        }),
        Err(ScriptFault::TooMany) => Err(PlayRefusal::ManyCommands),
        Err(ScriptFault::Memory) => Err(PlayRefusal::Memory),
    }
}
