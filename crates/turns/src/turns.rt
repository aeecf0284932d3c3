//! All turns of a run.
ghost use Rattle.std.specs.Prelude.{◌≡◌, ◌⊎◌, OnOk, OnErr};
ghost use Rattle.outside.specs.Faults.{HasCause, HasFailed};
ghost use Rattle.take_files.specs.Files.{wav_blocks};
ghost use Rattle.turns.specs.Runs.{AreWritten, CanRun, HaveRun};
ghost use Rattle.turns.specs.Turns.{plans_of};
ghost use Rattle.turns.specs.Written.{order_lines, Blames, HoldsNothing};

use crate::half::Turn;
use crate::target::Target;
use crate::turn::run_turn;
use crate::write::{write_block, write_lines, write_out_both};
use command_queue::Line;
use live_renderer::LiveRenderer;
use outside::{Failed, Gate, Shelf, append_all};
use players::Player;
use std::sync::Wait;
use std::thread::Threads;
use take_files::wav_block;

/// The same as `play_turns`, where a failure also tells which file could not be written.
pub fn run_turns<R: Threads + Wait + Sync, S: Shelf, G: Gate>(
    rt: &R,
    line: &Line,
    renderer: &mut LiveRenderer,
    players: &mut [Player],
    blocks: u32,
    shelf: &mut S,
    sound: &str,
    order: &str,
    gate: &G,
) -> Result<(), Target>
    requires { CanRun line.now renderer.old players.old blocks (S.files shelf.old) sound.now order.now }
    ensures run { HaveRun line.now blocks (plans_of players.old) renderer.new players.new result }
    ensures files { AreWritten sound.now (wav_blocks renderer.new.journal blocks) order.now (order_lines renderer.new.journal)
        (S.files shelf.old) (S.files shelf.new) result }
    ensures cause { HasCause (S.writing shelf.old) (S.writing shelf.new) (S.reading shelf.old) (S.reading shelf.new) ⊥ result }
    ensures reads { S.reads shelf.new ≡ S.reads shelf.old }
    ensures blames { Blames result sound.now order.now (S.failed shelf.old) (S.failed shelf.new) }
    ensures written_out { OnOk result (HoldsNothing (S.held shelf.new) sound.now order.now) }
{
    append_turns(
        rt, line, renderer, players, blocks, shelf, sound, order, gate,
    )?;
    write_out_both(shelf, sound, order)
}

/// Plays all turns, and appends to both files what is made in each.
fn append_turns<R: Threads + Wait + Sync, S: Shelf, G: Gate>(
    rt: &R,
    line: &Line,
    renderer: &mut LiveRenderer,
    players: &mut [Player],
    blocks: u32,
    shelf: &mut S,
    sound: &str,
    order: &str,
    gate: &G,
) -> Result<(), Target>
    requires { CanRun line.now renderer.old players.old blocks (S.files shelf.old) sound.now order.now }
    ensures run { HaveRun line.now blocks (plans_of players.old) renderer.new players.new result }
    ensures files { AreWritten sound.now (wav_blocks renderer.new.journal blocks) order.now (order_lines renderer.new.journal)
        (S.files shelf.old) (S.files shelf.new) result }
    ensures cause { HasCause (S.writing shelf.old) (S.writing shelf.new) (S.reading shelf.old) (S.reading shelf.new) ⊥ result }
    ensures reads { S.reads shelf.new ≡ S.reads shelf.old }
    ensures blames { Blames result sound.now order.now (S.failed shelf.old) (S.failed shelf.new) }
{
    // a line has at most 256 ends, which the proof reads here
    let _ = line.places();
    let actor = players.len() as u32;
    let mut samples = [0i16; 64];
    for t in 0..blocks {
        let seen = renderer.journal().len();
        let turn = Turn {
            number: t,
            line,
            gate,
            actor,
        };
        run_turn(rt, &turn, renderer, &mut samples, players);
        write_block(t, &samples, shelf, sound)?;
        let (_, new) = renderer.journal().split_at(seen);
        write_lines(new, shelf, order)?;
    }
    renderer.render(&mut samples);
    match append_all(shelf, sound, &wav_block(&samples)) {
        Ok(()) => Ok(()),
        Err(_) => Err(Target::Sound),
    }
}

/// Plays all turns. In each the players send what is due, each that has something due on a thread of its own but the last one, which sends
/// on this thread; beside them the renderer renders the block before, and it takes once the last one has sent. Then all that was accepted is
/// taken, and logged at the turn's block; and then the block and the lines of the new entries are appended to the two files. After the last
/// turn the last block is rendered and appended, and the shelf writes out what it holds back (`written_out`). It allocates nothing.
///
/// `Failed` comes only where the shelf's count of faults of writing rose. Wherever it ends, each end accepted the first commands of its
/// script and the others are left in its player; the journal has as many entries of each script as its end accepted, each at or above its
/// due block (`played`); and the files have a prefix of the blocks and of the journal's lines (`begun`). Where all turns were played, both
/// files are whole (`whole`), and an end was refused exactly once in each of its late turns, by which its delays are bounded (`on_time`).
pub fn play_turns<R: Threads + Wait + Sync, S: Shelf, G: Gate>(
    rt: &R,
    line: &Line,
    renderer: &mut LiveRenderer,
    players: &mut [Player],
    blocks: u32,
    shelf: &mut S,
    sound: &str,
    order: &str,
    gate: &G,
) -> Result<(), Failed>
    requires { CanRun line.now renderer.old players.old blocks (S.files shelf.old) sound.now order.now }
    ensures run { HaveRun line.now blocks (plans_of players.old) renderer.new players.new result }
    ensures files { AreWritten sound.now (wav_blocks renderer.new.journal blocks) order.now (order_lines renderer.new.journal)
        (S.files shelf.old) (S.files shelf.new) result }
    ensures cause { HasCause (S.writing shelf.old) (S.writing shelf.new) (S.reading shelf.old) (S.reading shelf.new) ⊥ result }
    ensures reads { S.reads shelf.new ≡ S.reads shelf.old }
    ensures failed_kept { OnOk result (S.failed shelf.new ≡ S.failed shelf.old) }
    ensures failed_name { OnErr result (HasFailed sound.now (S.failed shelf.old) (S.failed shelf.new)
        ⊎ HasFailed order.now (S.failed shelf.old) (S.failed shelf.new)) }
    ensures written_out { OnOk result (HoldsNothing (S.held shelf.new) sound.now order.now) }
{
    match run_turns(
        rt, line, renderer, players, blocks, shelf, sound, order, gate,
    ) {
        Ok(()) => Ok(()),
        Err(_) => Err(Failed),
    }
}
