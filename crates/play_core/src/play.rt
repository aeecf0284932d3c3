//! A run: the scripts are read, all is made ready, both files are begun, all turns are played, and the report is put.
ghost use Rattle.std.specs.Prelude.{◌≡◌, ◌≢◌, ◌⊎◌, ◌≤◌, ◌<◌, ◌-◌, ◌==◌, IfSome, IfOk, IfErr, OnOk, length, map, option_map, string_bytes, if◌then◌else◌};
ghost use Rattle.play_core.specs.Words.{IsRequest, request_data};
ghost use Rattle.instrument.specs.Limits.{block_limit};
ghost use Rattle.play_core.specs.Limits.{command_limit};
ghost use Rattle.play_core.specs.Verdict.{verdict};
ghost use Rattle.play_core.specs.Refused.{IsCaused, IsWithin, AgreesWith};
ghost use Rattle.outside.specs.Snapshot.{snapshot};
ghost use Rattle.play_core.specs.Run.{FailedLater, HavePlans, HasReported, IsPlayedRun, IsRun, NamesFailed};
ghost use Rattle.play_core.specs.Headline.{WasPlayed};
ghost use Rattle.play_core.specs.Setup.{IsSetup};
ghost use Rattle.turns.specs.Turns.{plans_of, many_commands};
ghost use Rattle.turns.specs.Written.{Blames, HoldsNothing, name_of};
ghost use Rattle.outside.specs.Faults.{HasCause};
ghost use Rattle.fault_lines.specs.Lines.{Says, cannot_write};
ghost use Rattle.take_files.specs.Files.{wav_header as wav_bytes, order_header as order_bytes};
ghost use Rattle.play_core.specs.Lines.{report};
ghost use Rattle.play_core.specs.Files.{IsStopped, with_two};

use crate::files::write_files;
use crate::lines::{refuse, report_of};
use crate::refusal::PlayRefusal;
use crate::scan::read_scripts;
use crate::setup::{Setup, choose_blocks};
use crate::words::PlayRequest;
use fault_lines::say_cannot_write;
use instrument::Engine;
use outside::{Gate, Out, Shelf, put_all, write_out};
use plain_text::LineText;
use std::alloc::Global;
use std::sync::Wait;
use std::thread::Threads;
use take_files::{order_header, wav_header};
use turns::{Target, play_scripts};
use velocity_map::MapSet;

/// Does what is asked for, and answers the status.
pub(crate) fn play<R: Threads + Wait + Sync, S: Shelf, O: Out, G: Gate>(
    rt: &R,
    alloc: Global,
    request: PlayRequest<'_>,
    shelf: &mut S,
    out: &mut O,
    gate: &G,
    maps: &MapSet,
) -> u8
    requires { IsRequest request }
    ensures run { IsRun (request_data request.entry)
        (snapshot (S.files shelf.old) (S.reading shelf.old) (S.writing shelf.old) (O.written out.old) (O.faults out.old))
        (snapshot (S.files shelf.new) (S.reading shelf.new) (S.writing shelf.new) (O.written out.new) (O.faults out.new)) result }
    ensures names { result ≡ 3 → NamesFailed request.entry.out.now request.entry.order.now (S.failed shelf.old) (S.failed shelf.new)
        (O.written out.old) (O.written out.new) (O.faults out.old) (O.faults out.new) }
    ensures written_out { WasPlayed result → HoldsNothing (S.held shelf.new) request.entry.out.now request.entry.order.now }
{
    match prepare(alloc, shelf, request, maps) {
        Ok(setup) => perform(rt, shelf, out, request, setup, gate),
        Err(why) => refuse(out, why, request.scripts),
    }
}

// Reads the scripts, and makes all ready. It touches no file.
fn prepare<S: Shelf>(
    alloc: Global,
    shelf: &mut S,
    request: PlayRequest<'_>,
    maps: &MapSet,
) -> Result<Setup, PlayRefusal>
    requires { IsRequest request }
    ensures setup { IfOk result (λ setup. IsSetup request.entry.blocks request.entry.places (plans_of setup.cast.players.items) setup) }
    ensures plans { IfOk result (λ setup. HavePlans (request_data request.entry) (S.files shelf.old) (plans_of setup.cast.players.items)) }
    ensures kept { OnOk result (S.reading shelf.new ≡ S.reading shelf.old) }
    ensures tells { IfErr result (λ why. IfSome (S.files shelf.old) (λ told. AgreesWith why (verdict (request_data request.entry) told))) }
    ensures cause { IfErr result (λ why. IsCaused why request.entry.blocks (S.files shelf.old) (map string_bytes request.entry.scripts.now)
        (S.reading shelf.old) (S.reading shelf.new)) }
    ensures few { IfOk result (λ setup. many_commands (plans_of setup.cast.players.items) ≤ command_limit) }
    ensures within { IfErr result (λ why. IsWithin why (length request.entry.scripts.now)) }
    ensures failed { S.failed shelf.new ≡ S.failed shelf.old }
    ensures files { S.files shelf.new ≡ S.files shelf.old }
    ensures writing { S.writing shelf.new ≡ S.writing shelf.old }
{
    let scripts = match read_scripts(alloc, shelf, request.scripts, maps, request.blocks) {
        Ok(scripts) => scripts,
        Err(why) => return Err(why),
    };
    let blocks = match choose_blocks(request.blocks, &scripts) {
        Some(blocks) => blocks,
        None => return Err(PlayRefusal::ManyBlocks),
    };
    match Setup::new(alloc, scripts, blocks, request.places) {
        Ok(setup) => Ok(setup),
        Err(_) => Err(PlayRefusal::Memory),
    }
}

// Makes both files with their first bytes.
fn begin_files<S: Shelf>(shelf: &mut S, request: PlayRequest<'_>, blocks: u32) -> Result<(), Target>
    requires request { IsRequest request }
    requires blocks { blocks ≤ block_limit }
    ensures whole { OnOk result (S.files shelf.new ≡ option_map
        (with_two request.entry.out.now (wav_bytes blocks) request.entry.order.now (order_bytes blocks (length request.entry.scripts.now)))
        (S.files shelf.old)) }
    ensures stopped { IfErr result (λ target. IsStopped target (S.files shelf.old) (S.files shelf.new)
        request.entry.out.now (wav_bytes blocks) request.entry.order.now (order_bytes blocks (length request.entry.scripts.now))) }
    ensures cause { HasCause (S.writing shelf.old) (S.writing shelf.new) (S.reading shelf.old) (S.reading shelf.new) ⊥ result }
    ensures blames { Blames result request.entry.out.now request.entry.order.now (S.failed shelf.old) (S.failed shelf.new) }
{
    let mut line = LineText::new();
    let scripts = request.scripts.len() as u32;
    order_header(Engine::One, blocks, scripts, &mut line);
    let header = wav_header(blocks);
    let text = line.as_slice();
    write_files(shelf, request.out, request.order, &header, text)
}

// Makes the files, plays all turns, and puts the report.
fn perform<R: Threads + Wait + Sync, S: Shelf, O: Out, G: Gate>(
    rt: &R,
    shelf: &mut S,
    out: &mut O,
    request: PlayRequest<'_>,
    setup: Setup,
    gate: &G,
) -> u8
    requires request { IsRequest request }
    requires setup { IsSetup request.blocks request.places (plans_of setup.cast.players.items) setup }
    requires plans { HavePlans (request_data request) (S.files shelf.old) (plans_of setup.cast.players.items) }
    requires few { many_commands (plans_of setup.cast.players.items) ≤ command_limit }
    ensures run { IsPlayedRun (request_data request.entry)
        (snapshot (S.files shelf.old) (S.reading shelf.old) (S.writing shelf.old) (O.written out.old) (O.faults out.old))
        (snapshot (S.files shelf.new) (S.reading shelf.new) (S.writing shelf.new) (O.written out.new) (O.faults out.new)) result }
    ensures names { result ≡ 3 → NamesFailed request.entry.out.now request.entry.order.now (S.failed shelf.old) (S.failed shelf.new)
        (O.written out.old) (O.written out.new) (O.faults out.old) (O.faults out.new) }
    ensures written_out { WasPlayed result → HoldsNothing (S.held shelf.new) request.entry.out.now request.entry.order.now }
{
    let blocks = setup.blocks;
    let commands = setup.commands;
    match begin_files(shelf, request, blocks) {
        Ok(()) => {}
        Err(target) => return stop(shelf, out, request, target),
    }
    let (journal, result) = play_scripts(
        rt,
        setup.cast,
        blocks,
        shelf,
        request.out,
        request.order,
        gate,
    );
    match result {
        Ok(()) => put_report(out, commands, journal.len() as u32, blocks),
        Err(target) => stop(shelf, out, request, target),
    }
}

// Names the file that could not be written. What the shelf holds back of the two files is written out before, as far as that goes.
fn stop<S: Shelf, O: Out>(
    shelf: &mut S,
    out: &mut O,
    request: PlayRequest<'_>,
    target: Target,
) -> u8
    ensures status { result ≡ 3 }
    ensures files { S.files shelf.new ≡ S.files shelf.old }
    ensures reading { S.reading shelf.new ≡ S.reading shelf.old }
    ensures writing { S.writing shelf.old ≤ S.writing shelf.new }
    ensures later { FailedLater (S.failed shelf.old) (S.failed shelf.new) }
    ensures line { Says (cannot_write (name_of target request.entry.out.now request.entry.order.now))
        (O.written out.old) (O.written out.new) (O.faults out.old) (O.faults out.new) }
{
    let _ = write_out(shelf, request.out);
    let _ = write_out(shelf, request.order);
    match target {
        Target::Sound => say_cannot_write(out, request.out),
        Target::Order => say_cannot_write(out, request.order),
    }
    3
}

// Puts the report: of so many commands, so many are in the journal.
fn put_report<O: Out>(out: &mut O, all: u32, commands: u32, blocks: u32) -> u8
    requires { commands ≤ all }
    ensures { HasReported (report (all - commands) blocks commands) (if all - commands == 0 then 0 else 5)
        (O.written out.old) (O.written out.new) (O.faults out.old) (O.faults out.new) result }
{
    let line = report_of(all - commands, blocks, commands);
    match put_all(out, line.as_slice()) {
        Ok(()) => status_of(all - commands),
        Err(_) => 3,
    }
}

fn status_of(left: u32) -> u8
    ensures { result ≡ (if left == 0 then 0 else 5) }
{
    if left == 0 { 0 } else { 5 }
}
