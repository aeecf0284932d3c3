//! The command that writes generated scripts.

ghost use Rattle.std.specs.Prelude.{ℕ, List, ◌≡◌, ◌≢◌, ◌≤◌, ◌<◌, ◌*◌, IfErr, IfOk, IfSome, OnErr, OnOk, length, map, option_map, string_bytes};
ghost use Rattle.std.specs.FinMap.{insert};
ghost use Rattle.generator.specs.Generated.{generated_text};
ghost use Rattle.outside.specs.Faults.{HasCause};
ghost use Rattle.outside.specs.Snapshot.{snapshot};
ghost use Rattle.tool_core.specs.Effects.{scripts_of, written};
ghost use Rattle.tool_core.specs.Endings.{Ends, Finishes};
ghost use Rattle.tool_core.specs.Lines as lines;
ghost use Rattle.tool_core.specs.Lines.{script_name};
ghost use Rattle.tool_core.specs.Outcomes.{BeginsOut, WasDone};
ghost use Rattle.tool_core.specs.Reads.{HoldsNone, HoldsNothing};
ghost use Rattle.tool_core.specs.Scripts.{FailsWriting, shown};
ghost use Rattle.tool_core.specs.Words as words;

use crate::failure::{Failure, refuse};
use crate::output_file::{put_report, write_whole};
use crate::output_line::scripts_line;
use fault_lines::say_cannot_write;
use generator::script_text;
use outside::{Failed, Out, Shelf};
use std::alloc::{AllocError, Global};

/// A file that is to be written.
#[derive(Drop)]
pub(crate) struct ScriptFile {
    pub(crate) name: String,
    pub(crate) text: Vec<u8>,
}

/// `gen SEED SCRIPTS COMMANDS`: so many generated scripts, each in a file of its own. All memory is asked for first.
pub(crate) fn generate<S: Shelf, O: Out>(
    alloc: Global,
    seed: u64,
    scripts: u32,
    commands: u32,
    shelf: &mut S,
    out: &mut O,
) -> u8
    requires scripts { scripts ≤ 256 }
    requires commands { commands ≤ 100000 }
    requires all { scripts * commands ≤ 1000000 }
    ensures ends { Ends (words.Gen seed scripts commands) result
        (snapshot (S.files shelf.old) (S.reading shelf.old) (S.writing shelf.old) (O.written out.old) (O.faults out.old))
        (snapshot (S.files shelf.new) (S.reading shelf.new) (S.writing shelf.new) (O.written out.new) (O.faults out.new)) }
    ensures held { WasDone result → HoldsNothing (words.Gen seed scripts commands) (S.held shelf.new) }
{
    match make_scripts(alloc, seed, scripts, commands) {
        Ok(files) => finish_scripts(&files, scripts * commands, shelf, out),
        Err(_) => refuse(out, "", Failure::Memory),
    }
}

/// The files of the first scripts.
fn make_scripts(
    alloc: Global,
    seed: u64,
    scripts: u32,
    commands: u32,
) -> Result<Vec<ScriptFile>, AllocError>
    requires { commands ≤ 100000 }
    ensures { IfOk result (λ files. map shown files.items ≡ scripts_of seed commands scripts) }
{
    let mut files = Vec::new(alloc);
    for script in 0..scripts {
        files.push(make_script(alloc, seed, script, commands)?)?;
    }
    Ok(files)
}

/// The file of a script.
fn make_script(
    alloc: Global,
    seed: u64,
    script: u32,
    commands: u32,
) -> Result<ScriptFile, AllocError>
    requires { commands ≤ 100000 }
    ensures name { IfOk result (λ file. string_bytes file.name ≡ script_name script) }
    ensures text { IfOk result (λ file. file.text.items ≡ generated_text seed script commands) }
{
    Ok(ScriptFile {
        name: name_of(alloc, script)?,
        text: script_text(alloc, seed, script, commands)?,
    })
}

#[tactic(auto, unfolding(crate::specs::Lines::script_name))]
fn name_of(alloc: Global, script: u32) -> Result<String, AllocError>
    ensures { IfOk result (λ name. string_bytes name ≡ script_name script) }
{
    format!(in alloc; "gen-{script}.txt")
}

/// Writes the files, and then the report.
fn finish_scripts<S: Shelf, O: Out>(
    files: &[ScriptFile],
    commands: u32,
    shelf: &mut S,
    out: &mut O,
) -> u8
    requires few { length files.now ≤ 256 }
    ensures finishes { Finishes (record { status = 0; writes = map shown files.now; prints = lines.scripts_line (length files.now) commands }) result
        (snapshot (S.files shelf.old) (S.reading shelf.old) (S.writing shelf.old) (O.written out.old) (O.faults out.old))
        (snapshot (S.files shelf.new) (S.reading shelf.new) (S.writing shelf.new) (O.written out.new) (O.faults out.new)) }
    ensures held { WasDone result → HoldsNone (map shown files.now) (S.held shelf.new) }
{
    match write_scripts(shelf, files) {
        Ok(()) => {
            let line = scripts_line(files.len() as u32, commands);
            put_report(out, 0, line.as_slice())
        }
        Err(at) => {
            say_cannot_write(out, files[at].name.as_str());
            3
        }
    }
}

/// Writes the files one after the other, and answers the number of the one at which writing failed.
fn write_scripts<S: Shelf>(shelf: &mut S, files: &[ScriptFile]) -> Result<(), usize>
    ensures whole { OnOk result (S.files shelf.new ≡ option_map (written (map shown files.now)) (S.files shelf.old)) }
    ensures at { IfErr result (λ at. at < length files.now) }
    ensures failed { IfErr result (λ at. FailsWriting at (map shown files.now) (S.files shelf.old) (S.files shelf.new)) }
    ensures cause { HasCause (S.writing shelf.old) (S.writing shelf.new) (S.reading shelf.old) (S.reading shelf.new) ⊥ result }
    ensures held { OnOk result (HoldsNone (map shown files.now) (S.held shelf.new)) }
{
    for at in 0..files.len() {
        match write_script(shelf, &files[at]) {
            Ok(()) => {}
            Err(_) => return Err(at),
        }
    }
    Ok(())
}

/// Writes a file.
fn write_script<S: Shelf>(shelf: &mut S, file: &ScriptFile) -> Result<(), Failed>
    ensures whole { OnOk result (S.files shelf.new ≡ option_map (λ files.
        insert files (string_bytes file.now.name) file.now.text.items) (S.files shelf.old)) }
    ensures begun { OnErr result (IfSome (S.files shelf.old) (λ files.
        BeginsOut files (S.files shelf.new) (string_bytes file.now.name) file.now.text.items)) }
    ensures cause { HasCause (S.writing shelf.old) (S.writing shelf.new) (S.reading shelf.old) (S.reading shelf.new) ⊥ result }
    ensures held { OnOk result (S.held shelf.new (string_bytes file.now.name) ≡ 0) }
    ensures held_of_others { (other : List ℕ) → other ≢ (string_bytes file.now.name) → S.held shelf.new other ≤ S.held shelf.old other }
{
    write_whole(shelf, file.name.as_str(), file.text.as_slice())
}
