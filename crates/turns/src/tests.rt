//! Scripts that are played beside each other through lines of few places.

ghost use Rattle.std.specs.Prelude.{◌≡◌, ◌+◌, ◌≤◌, All, IfOk, length, map, sum};
ghost use Rattle.lateness.specs.Late.{AllBelow};
ghost use Rattle.script_plan.specs.Plan.{due_blocks};

use crate::{Cast, new_players, play_scripts};
use command_queue::Line;
use command_set::{Command, Logged};
use live_renderer::{Engine, LiveRenderer};
use outside::{Gate, MemShelf, NoGate, Shelf};
use script_plan::Script;
use std::alloc::Global;
use std::sync::Wait;
use std::sync::atomic::{AtomicU64, Ordering};
use std::test::*;
use std::thread::{self, Threads};

// The taking half waits in each turn until script 0 has sent.
#[derive(Drop)]
struct AfterScript {
    turns: AtomicU64,
    passes: AtomicU64,
}

impl Gate for AfterScript {
    fn pass(&self, actor: u32) {
        if actor == 1 {
            let wanted = self.passes.fetch_add(1, Ordering::SeqCst).wrapping_add(1);
            for _ in 0..10_000_000u64 {
                if self.turns.load(Ordering::SeqCst) >= wanted {
                    break;
                }
                thread::yield_now();
            }
        }
    }

    fn done(&self, actor: u32) {
        if actor == 0 {
            self.turns.fetch_add(1, Ordering::SeqCst);
        }
    }
}

// A script with a command due at each of these blocks, which don't fall and are at most `last`.
fn script_at(alloc: Global, key: u8, blocks: &[u32], last: u32) -> Result<Script, Fail>
    requires { key ≤ 127 }
    ensures { IfOk result (λ script. AllBelow (last + 1) (due_blocks script)) }
{
    let mut script = Script::new(alloc);
    for due in blocks {
        if *due < script.last_due() || *due > last {
            return Err("order".into());
        }
        script.push(*due, Command::NoteOff { channel: 0, key })?;
    }
    Ok(script)
}

// So many scripts with commands due at the same blocks.
fn scripts_at(alloc: Global, count: u8, blocks: &[u32], last: u32) -> Result<Vec<Script>, Fail>
    requires { count ≤ 16 }
    ensures many { IfOk result (λ scripts. length scripts.items ≡ count) }
    ensures due { IfOk result (λ scripts. All (λ script. AllBelow (last + 1) (due_blocks script)) scripts.items) }
{
    let mut scripts = Vec::new(alloc);
    for key in 0..count {
        let script = script_at(alloc, key, blocks, last)?;
        if scripts.push(script).is_err() {
            return Err("memory".into());
        }
    }
    Ok(scripts)
}

// How many commands each script has.
fn counts_of(alloc: Global, scripts: &[Script]) -> Result<Vec<u32>, Fail>
    ensures { IfOk result (λ counts. counts.items ≡ map length scripts.now) }
{
    let mut counts = Vec::new(alloc);
    for script in scripts {
        let Ok(count) = u32::try_from(script.len()) else {
            return Err("many".into());
        };
        counts.push(count)?;
    }
    Ok(counts)
}

fn sum_of(counts: &[u32]) -> u64
    requires { length counts.now ≤ 256 }
    ensures { result ≡ sum counts.now }
{
    counts.iter().map(|count| *count as u64).sum()
}

// Plays scripts over a line of so many places, into the files `s` and `o` of the shelf.
fn play<R: Threads + Wait + Sync, G: Gate>(
    rt: &R,
    alloc: Global,
    places: usize,
    last: u32,
    scripts: Vec<Script>,
    shelf: &mut MemShelf,
    gate: &G,
) -> Result<Vec<Logged>, Fail>
    requires places { (1 ≤ places) × (places ≤ 1000000) }
    requires last { last ≤ 1000 }
    requires few { (1 ≤ length scripts.items) × (length scripts.items ≤ 16) }
    requires due { All (λ script. AllBelow (last + 1) (due_blocks script)) scripts.items }
{
    let counts = counts_of(alloc, scripts.as_slice())?;
    let reserve = sum_of(counts.as_slice()) as usize;
    let (line, taker, ends) = Line::new(alloc, places, counts.as_slice())?;
    let Ok(renderer) = LiveRenderer::new(alloc, taker, Engine::One, reserve) else {
        return Err("memory".into());
    };
    let spare = Vec::with_capacity(alloc, ends.len())?;
    let players = new_players(alloc, &line, ends, scripts)?;
    let (sound, order) = ("s", "o");
    if sound == order || shelf.file(sound).is_none() || shelf.file(order).is_none() {
        return Err("files".into());
    }
    let (journal, answer) = play_scripts(
        rt,
        Cast {
            line,
            renderer,
            players,
            ends: spare,
        },
        last + 1,
        shelf,
        sound,
        order,
        gate,
    );
    answer?;
    Ok(journal)
}

#[test]
fn one_place(rt: HostRuntime) -> Result<(), Fail> {
    let alloc = rt.alloc();
    let mut shelf = MemShelf::new(alloc, &[])?;
    shelf.create("s")?;
    shelf.create("o")?;
    let gate = AfterScript {
        turns: AtomicU64::new(0),
        passes: AtomicU64::new(0),
    };
    let scripts = scripts_at(alloc, 1, &[0, 0, 0], 2)?;
    let journal = play(&rt, alloc, 1, 2, scripts, &mut shelf, &gate)?;
    assert_eq!(rt; journal.len(), 3);
    for (i, logged) in journal.iter().enumerate() {
        assert_eq!(rt; (logged.block as usize, logged.entry.seq as usize), (i, i));
    }
    let text: &[u8] = b"0 0 0 0 off 0 0\n1 0 0 1 off 0 0\n2 0 0 2 off 0 0\n";
    assert_eq!(rt; shelf.file("o").ok_or("o")?, text);
    assert_eq!(rt; shelf.file("s").ok_or("s")?.len(), 384);
    Ok(())
}

// With ample places each command is logged at its due block, and with few at it or above.
#[test]
fn scripts_beside_each_other(rt: HostRuntime) -> Result<(), Fail> {
    let alloc = rt.alloc();
    for (count, places, is_ample) in [
        (1u8, 1usize, false),
        (1, 5, true),
        (2, 1, false),
        (2, 10, true),
        (8, 1, false),
        (8, 40, true),
    ] {
        let mut shelf = MemShelf::new(alloc, &[])?;
        shelf.create("s")?;
        shelf.create("o")?;
        let scripts = scripts_at(alloc, count, &[0, 0, 1, 3, 3], 9)?;
        let journal = play(&rt, alloc, places, 9, scripts, &mut shelf, &NoGate)?;
        let late = journal
            .iter()
            .filter(|logged| logged.block > logged.entry.sent_at)
            .count();
        let early = journal
            .iter()
            .filter(|logged| logged.block < logged.entry.sent_at)
            .count();
        assert_eq!(rt; early, 0);
        if is_ample {
            assert_eq!(rt; (journal.len(), late), (5 * count as usize, 0));
        }
        assert_eq!(rt; shelf.file("s").ok_or("s")?.len(), 1280);
    }
    Ok(())
}
