//! The command that plays generated scripts.

ghost use Rattle.std.specs.Prelude.{◌≡◌, ◌≤◌};
ghost use Rattle.tool_core.specs.Lines as lines;
ghost use Rattle.outside.specs.Snapshot.{snapshot};
ghost use Rattle.tool_core.specs.Endings.{Ends};
ghost use Rattle.tool_core.specs.Words as words;

use crate::failure::{Failure, refuse};
use crate::output_file::put_report;
use crate::output_line::{OutputLine, bench_line};
use generator::{Played, play_generated};
use outside::{Out, Shelf};
use std::alloc::Global;

/// `bench SEED BLOCKS`: how many commands of four generated scripts were played in so many blocks, and the sum of all samples.
pub(crate) fn bench<S: Shelf, O: Out>(
    alloc: Global,
    seed: u64,
    blocks: u32,
    shelf: &mut S,
    out: &mut O,
) -> u8
    requires { blocks ≤ 100000 }
    ensures { Ends (words.Bench seed blocks) result
        (snapshot (S.files shelf.old) (S.reading shelf.old) (S.writing shelf.old) (O.written out.old) (O.faults out.old))
        (snapshot (S.files shelf.new) (S.reading shelf.new) (S.writing shelf.new) (O.written out.new) (O.faults out.new)) }
{
    match play_generated(alloc, seed, blocks) {
        Ok(played) => {
            let line = line_of(played, blocks);
            put_report(out, 0, line.as_slice())
        }
        Err(_) => refuse(out, "", Failure::Memory),
    }
}

/// The line of what was played.
fn line_of(played: Played, blocks: u32) -> OutputLine
    ensures { result.items ≡ lines.bench_line played.commands blocks played.sum }
{
    bench_line(played.commands, blocks, played.sum)
}
