//! The command that compares a sound file with an order.

ghost use Rattle.std.specs.Prelude.{ℕ, List, ◌≡◌, ◌≤◌, Some, IfErr, IfOk, IsErr, OnOk, length};
ghost use Rattle.take_files.specs.Files.{wav};
ghost use Rattle.outside.specs.Files.{file_of, Lacks};
ghost use Rattle.tool_core.specs.Comparisons.{IsCompared};
ghost use Rattle.tool_core.specs.Lines as lines;
ghost use Rattle.tool_core.specs.Orders.{sound_limit};
ghost use Rattle.outside.specs.Snapshot.{snapshot};
ghost use Rattle.tool_core.specs.Effects.{comparison};
ghost use Rattle.tool_core.specs.Endings.{Ends, Puts};
ghost use Rattle.tool_core.specs.Endings.{IsReadFailure};
ghost use Rattle.tool_core.specs.Outcomes.{WasDone};
ghost use Rattle.tool_core.specs.Reads.{GaveAll, ReadsWhole};
ghost use Rattle.tool_core.specs.Words as words;

use crate::comparison::compare_file;
use crate::failure::{Failure, refuse};
use crate::order::read_order_file;
use crate::output_file::put_report;
use crate::output_line::differs_line;
use outside::{Out, Shelf};
use std::alloc::Global;
use take_files::{Order, Playback};

/// `verify ORDER WAV`: whether a file is the sound of an order, and where it differs.
pub(crate) fn verify<S: Shelf, O: Out>(
    alloc: Global,
    file: &str,
    sound: &str,
    shelf: &mut S,
    out: &mut O,
) -> u8
    ensures ends { Ends (words.Verify file.now sound.now) result
        (snapshot (S.files shelf.old) (S.reading shelf.old) (S.writing shelf.old) (O.written out.old) (O.faults out.old))
        (snapshot (S.files shelf.new) (S.reading shelf.new) (S.writing shelf.new) (O.written out.new) (O.faults out.new)) }
    ensures whole { WasDone result → ReadsWhole (words.Verify file.now sound.now) (S.files shelf.old) (S.given shelf.old) (S.given shelf.new) }
{
    match read_order_file(alloc, shelf, file) {
        Ok(order) => match compare_order(alloc, &order, shelf, sound) {
            Ok(offset) => put_comparison(out, offset),
            Err(why) => refuse(out, sound, why),
        },
        Err(why) => refuse(out, file, why),
    }
}

/// The first offset at which a file differs from the sound of an order.
fn compare_order<S: Shelf>(
    alloc: Global,
    order: &Order,
    shelf: &mut S,
    name: &str,
) -> Result<Option<u32>, Failure>
    ensures compared { IfOk result (λ offset. (file : List ℕ) → file_of (S.files shelf.old) name.now ≡ Some file
        → IsCompared file (wav order.now.journal order.now.blocks) offset) }
    ensures within { OnOk result ((file : List ℕ) → file_of (S.files shelf.old) name.now ≡ Some file → length file ≤ sound_limit) }
    ensures lacks { Lacks (S.files shelf.old) name.now → IsErr result }
    ensures kept { OnOk result (S.reading shelf.new ≡ S.reading shelf.old) }
    ensures refused { IfErr result (λ why. IsReadFailure why sound_limit (S.files shelf.old) name.now (S.reading shelf.old) (S.reading shelf.new)) }
    ensures given { OnOk result (GaveAll (S.files shelf.old) name.now (S.given shelf.old) (S.given shelf.new)) }
    ensures files { S.files shelf.new ≡ S.files shelf.old }
    ensures writing { S.writing shelf.new ≡ S.writing shelf.old }
{
    match Playback::new(alloc, order.engine(), order.entries()) {
        Ok(playback) => compare_file(shelf, name, playback, order.blocks()),
        Err(_) => Err(Failure::Memory),
    }
}

/// Puts the report of a comparison, and answers 0 or 7, or 3 where the output fails.
fn put_comparison<O: Out>(out: &mut O, offset: Option<u32>) -> u8
    ensures { Puts (comparison offset).status (comparison offset).prints result
        (O.written out.old) (O.written out.new) (O.faults out.old) (O.faults out.new) }
{
    match offset {
        None => put_same(out),
        Some(offset) => {
            let line = differs_line(offset);
            put_report(out, 7, line.as_slice())
        }
    }
}

#[tactic(auto, unfolding(crate::specs::Lines::same_line))]
fn put_same<O: Out>(out: &mut O) -> u8
    ensures { Puts 0 lines.same_line result (O.written out.old) (O.written out.new) (O.faults out.old) (O.faults out.new) }
{
    put_report(out, 0, b"same\n")
}
