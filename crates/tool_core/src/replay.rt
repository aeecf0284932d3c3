//! The command that plays an order again.

ghost use Rattle.std.specs.Prelude.{◌≡◌, ◌⊎◌, ◌≤◌, IfSome, OnErr, OnOk, option_map};
ghost use Rattle.std.specs.FinMap.{insert};
ghost use Rattle.take_files.specs.Files.{wav};
ghost use Rattle.instrument.specs.Limits.{block_limit};
ghost use Rattle.outside.specs.Faults.{HasCause};
ghost use Rattle.fault_lines.specs.Lines.{Says, out_of_memory};
ghost use Rattle.outside.specs.Snapshot.{snapshot};
ghost use Rattle.tool_core.specs.Effects.{writes};
ghost use Rattle.tool_core.specs.Endings.{Ends, Finishes};
ghost use Rattle.tool_core.specs.Outcomes.{BeginsOut, WasDone};
ghost use Rattle.tool_core.specs.Reads.{ReadsWhole};
ghost use Rattle.tool_core.specs.Words as words;

use crate::failure::{Failure, refuse};
use crate::order::read_order_file;
use crate::output_file::put_ok;
use fault_lines::say_cannot_write;
use outside::{Failed, Out, Shelf, append_all, write_out};
use std::alloc::Global;
use take_files::{Chunk, Order, Playback, wav_header};

/// `replay ORDER OUT`: the sound of an order.
pub(crate) fn replay<S: Shelf, O: Out>(
    alloc: Global,
    file: &str,
    name: &str,
    shelf: &mut S,
    out: &mut O,
) -> u8
    ensures ends { Ends (words.Replay file.now name.now) result
        (snapshot (S.files shelf.old) (S.reading shelf.old) (S.writing shelf.old) (O.written out.old) (O.faults out.old))
        (snapshot (S.files shelf.new) (S.reading shelf.new) (S.writing shelf.new) (O.written out.new) (O.faults out.new)) }
    ensures whole { WasDone result → ReadsWhole (words.Replay file.now name.now) (S.files shelf.old) (S.given shelf.old) (S.given shelf.new) }
    ensures held { WasDone result → S.held shelf.new name.now ≡ 0 }
{
    match read_order_file(alloc, shelf, file) {
        Ok(order) => play_order(alloc, &order, name, shelf, out),
        Err(why) => refuse(out, file, why),
    }
}

/// Writes the sound of an order, and then the report. All memory is asked for first.
fn play_order<S: Shelf, O: Out>(
    alloc: Global,
    order: &Order,
    name: &str,
    shelf: &mut S,
    out: &mut O,
) -> u8
    ensures finishes { Finishes (writes name.now (wav order.now.journal order.now.blocks)) result
        (snapshot (S.files shelf.old) (S.reading shelf.old) (S.writing shelf.old) (O.written out.old) (O.faults out.old))
        (snapshot (S.files shelf.new) (S.reading shelf.new) (S.writing shelf.new) (O.written out.new) (O.faults out.new))
        ⊎ ((result ≡ 8) × (S.files shelf.new ≡ S.files shelf.old) × (S.reading shelf.new ≡ S.reading shelf.old)
        × (S.writing shelf.new ≡ S.writing shelf.old)
        × Says out_of_memory (O.written out.old) (O.written out.new) (O.faults out.old) (O.faults out.new)) }
    ensures given { S.given shelf.new ≡ S.given shelf.old }
    ensures held { WasDone result → S.held shelf.new name.now ≡ 0 }
{
    match Playback::new(alloc, order.engine(), order.entries()) {
        Ok(playback) => finish_sound(shelf, out, name, playback, order.blocks()),
        Err(_) => refuse(out, name, Failure::Memory),
    }
}

/// Writes the sound of a journal that is to be played, and then the report.
fn finish_sound<S: Shelf, O: Out>(
    shelf: &mut S,
    out: &mut O,
    name: &str,
    playback: Playback<'_>,
    blocks: u32,
) -> u8
    requires few { blocks ≤ block_limit }
    requires at { playback.block ≡ 0 }
    ensures finishes { Finishes (writes name.now (wav playback.entry.journal blocks)) result
        (snapshot (S.files shelf.old) (S.reading shelf.old) (S.writing shelf.old) (O.written out.old) (O.faults out.old))
        (snapshot (S.files shelf.new) (S.reading shelf.new) (S.writing shelf.new) (O.written out.new) (O.faults out.new)) }
    ensures given { S.given shelf.new ≡ S.given shelf.old }
    ensures held { WasDone result → S.held shelf.new name.now ≡ 0 }
{
    match write_sound(shelf, name, playback, blocks) {
        Ok(()) => put_ok(out),
        Err(_) => {
            say_cannot_write(out, name);
            3
        }
    }
}

/// Makes the file empty, appends the header and the blocks of a sound file, in chunks of 64 blocks, and has the shelf write out what it
/// holds back of them.
fn write_sound<S: Shelf>(
    shelf: &mut S,
    name: &str,
    mut playback: Playback<'_>,
    blocks: u32,
) -> Result<(), Failed>
    requires few { blocks ≤ block_limit }
    requires at { playback.block ≡ 0 }
    ensures whole { OnOk result (S.files shelf.new ≡ option_map (λ files.
        insert files name.now (wav playback.entry.journal blocks)) (S.files shelf.old)) }
    ensures begun { OnErr result (IfSome (S.files shelf.old) (λ files.
        BeginsOut files (S.files shelf.new) name.now (wav playback.entry.journal blocks))) }
    ensures cause { HasCause (S.writing shelf.old) (S.writing shelf.new) (S.reading shelf.old) (S.reading shelf.new) ⊥ result }
    ensures given { S.given shelf.new ≡ S.given shelf.old }
    ensures held { OnOk result (S.held shelf.new name.now ≡ 0) }
{
    match shelf.create(name) {
        Ok(()) => {}
        Err(failed) => return Err(failed),
    }
    match append_all(shelf, name, &wav_header(blocks)) {
        Ok(()) => {}
        Err(failed) => return Err(failed),
    }
    let mut chunk = Chunk::new();
    let mut from = 0;
    'chunks: while from < blocks {
        let count = (blocks - from).min(64);
        playback.render_chunk(count, &mut chunk);
        match append_all(shelf, name, chunk.as_slice()) {
            Ok(()) => {}
            Err(failed) => return Err(failed),
        }
        from += count;
    }
    match write_out(shelf, name) {
        Ok(()) => Ok(()),
        Err(failed) => Err(failed),
    }
}
