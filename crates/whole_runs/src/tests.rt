//! Runs of `play` that `tool` verifies, and a renderer at a line of one place.

ghost use Rattle.std.specs.Prelude.{◌≡◌, ◌<◌, length};
ghost use Rattle.command_queue.specs.Ends.{AreEnds};

use crate::play_then_verify;
use cartridge::Cartridge;
use command_queue::{Line, SendEnd};
use command_set::Command;
use instrument::Engine;
use live_renderer::{LiveRenderer, Stop, TakeOne};
use outside::{DiskShelf, MemOut, MemShelf, NoGate, Shelf, SureShelf, append_all, write_out};
use play_core::{play_main, play_never_failing};
use std::alloc::{AllocError, Global};
use std::process::Abort;
use std::rt::Files;
use std::sync::Wait;
use std::test::Fail;
use std::thread::Threads;
use tool_core::tool_main;
use velocity_map::{Curve, MapSet, VelocityMap};

fn words_of(alloc: Global, text: &str) -> Result<Vec<String>, AllocError> {
    let mut all = Vec::new(alloc);
    for word in text.split(' ') {
        all.push(String::from_str(alloc, word)?)?;
    }
    Ok(all)
}

/// Sends one command by the first end; whether it was accepted.
fn send_first<R: Wait>(rt: &R, line: &Line, ends: &mut [SendEnd]) -> bool
    requires { AreEnds line.now ends.old × (0 < length ends.old) }
    ensures { AreEnds line.now ends.new }
{
    let end = &mut ends[0];
    if end.count() < end.quota() {
        line.send(rt, end, 0, Command::Store { slot: 7 }).is_ok()
    } else {
        false
    }
}

#[test]
fn a_renderer_takes_what_waits(rt: HostRuntime) -> Result<(), Fail> {
    let alloc = rt.alloc();
    let (line, taker, mut ends) = Line::new(alloc, 1, &[4])?;
    let Ok(mut renderer) = LiveRenderer::new(alloc, taker, Engine::One, 0) else {
        return Err("no memory".into());
    };
    assert!(rt; renderer.take_one(&rt, &line) == TakeOne::NoRoom);
    assert!(rt; send_first(&rt, &line, ends.as_mut_slice()));
    let first = renderer.take_ready(&rt, alloc, &line)?;
    assert!(rt; first.count == 1 && first.stop == Stop::Budget);
    let second = renderer.take_ready(&rt, alloc, &line)?;
    assert!(rt; second.count == 0 && second.stop == Stop::Empty);
    assert_eq!(rt; renderer.journal().len(), 1);
    Ok(())
}

/// A script of a hundred notes, ten a block.
fn hundred_notes(alloc: Global, script: u32) -> Result<Vec<u8>, AllocError> {
    let mut text = Vec::from_slice(alloc, b"midi 1\n")?;
    for n in 0..100u32 {
        let (due, key) = (n / 10, n % 100 + script % 20);
        let line = format!(in alloc; "{due} on 0 {key} 100\n")?;
        text.extend_from_slice(line.as_bytes())?;
    }
    Ok(text)
}

/// How many notes of each of three scripts stand in the lines of an order: each script's own, in its order, numbered from 0 on, with its due
/// block, and at no block before that. `None` where a line says something else.
fn notes_in(alloc: Global, order: &str) -> Result<Option<[u32; 3]>, Fail> {
    let mut counts = [0u32; 3];
    let mut last = 0u32;
    for line in order.split('\n').skip(1) {
        if line.is_empty() {
            continue;
        }
        let mut found = false;
        for script in 0..3u32 {
            let n = counts[script as usize];
            let (due, key) = (n / 10, n % 100 + script % 20);
            let entry = format!(in alloc; " {due} {script} {n} on 0 {key} 100")?;
            let Some(block) = line.strip_suffix(entry.as_str()) else {
                continue;
            };
            let Ok(block) = block.parse::<u32>() else {
                return Ok(None);
            };
            if block < due || block < last || n >= 100 {
                return Ok(None);
            }
            last = block;
            counts[script as usize] = n + 1;
            found = true;
            break;
        }
        if !found {
            return Ok(None);
        }
    }
    Ok(Some(counts))
}

/// How many notes of three such scripts an order lists, each script's as `notes_in` wants them.
fn notes_listed(alloc: Global, order: &[u8]) -> Result<u32, Fail> {
    let Ok(text) = String::from_utf8(Vec::from_slice(alloc, order)?) else {
        return Err("no text".into());
    };
    match notes_in(alloc, &text)? {
        Some(counts) => Ok(
            counts[0]
                .saturating_add(counts[1])
                .saturating_add(counts[2]),
        ),
        None => Err("another order".into()),
    }
}

/// Whether `tool verify` finds the two files of a run the same.
fn is_verified<S: Shelf>(alloc: Global, shelf: &mut S) -> Result<bool, AllocError> {
    let words = words_of(alloc, "verify o.txt o.wav")?;
    let mut told = MemOut::new(alloc, &[])?;
    let status = tool_main(alloc, &words, shelf, &mut told);
    Ok(status == 0 && told.bytes() == b"same\n".as_slice())
}

/// The files of one script, through ample places and through one place, are found the same; with the last byte of the sound changed they
/// aren't.
fn one_script_is_verified<R: Threads + Wait + Sync + Abort>(
    rt: &R,
    alloc: Global,
    maps: &MapSet,
) -> Result<(), Fail> {
    let cases: [(&str, &[u8], &[u8]); 2] = [
        (
            "o.wav o.txt 100 - a.txt",
            b"midi 1\n0 on 0 69 100\n50 off 0 69\n",
            b"ok blocks 100 commands 2\nsame\n",
        ),
        (
            "o.wav o.txt 10 1 a.txt",
            b"midi 1\n0 on 0 60 100\n0 on 0 64 100\n0 on 0 67 100\n",
            b"ok blocks 10 commands 3\nsame\n",
        ),
    ];
    for (words, script, line) in cases {
        let mut shelf = MemShelf::new(alloc, &[])?;
        shelf.put_file(alloc, "a.txt", script)?;
        let words = words_of(alloc, words)?;
        let check = words_of(alloc, "verify o.txt o.wav")?;
        let mut out = MemOut::new(alloc, &[])?;
        let (status, verified) = play_then_verify(
            rt, alloc, &words, &check, &mut shelf, &mut out, &NoGate, maps,
        );
        assert_eq!(rt; status, 0);
        assert!(rt; verified == Some(0));
        assert_eq!(rt; out.bytes(), line);
        let mut sound = Vec::from_slice(alloc, shelf.file("o.wav").unwrap_or(b""))?;
        let last = sound.pop().unwrap_or(0);
        sound.push(last ^ 1)?;
        shelf.put_file(alloc, "o.wav", &sound)?;
        let mut told = MemOut::new(alloc, &[])?;
        assert_eq!(rt; tool_main(alloc, &check, &mut shelf, &mut told), 7);
        let line = format!(in alloc; "differs at {}\n", sound.len().saturating_sub(1))?;
        assert_eq!(rt; told.bytes(), line.as_bytes());
    }
    Ok(())
}

/// Three scripts of a hundred notes go through one place.
fn three_scripts_share_a_place<R: Threads + Wait + Sync + Abort>(
    rt: &R,
    alloc: Global,
    maps: &MapSet,
) -> Result<(), Fail> {
    let mut shelf = MemShelf::new(alloc, &[])?;
    shelf.put_file(alloc, "a.txt", &hundred_notes(alloc, 0)?)?;
    shelf.put_file(alloc, "b.txt", &hundred_notes(alloc, 1)?)?;
    shelf.put_file(alloc, "c.txt", &hundred_notes(alloc, 2)?)?;
    let words = words_of(alloc, "o.wav o.txt - 1 a.txt b.txt c.txt")?;
    let mut out = MemOut::new(alloc, &[])?;
    let status = play_main(rt, alloc, &words, &mut shelf, &mut out, &NoGate, maps);
    assert!(rt; is_verified(alloc, &mut shelf)?);
    let order = shelf.file("o.txt").unwrap_or(b"");
    let all = notes_listed(alloc, order)?;
    assert!(rt; (status == 0 && all == 300) || (status == 5 && all < 300));
    Ok(())
}

/// Two scripts have a note each at block 0.
fn two_notes_are_due_at_once<R: Threads + Wait + Sync + Abort>(
    rt: &R,
    alloc: Global,
    maps: &MapSet,
) -> Result<(), Fail> {
    let mut shelf = MemShelf::new(alloc, &[])?;
    shelf.put_file(alloc, "a.txt", b"midi 1\n0 on 0 60 100\n")?;
    shelf.put_file(alloc, "b.txt", b"midi 1\n0 on 0 64 100\n")?;
    let words = words_of(alloc, "o.wav o.txt 10 - a.txt b.txt")?;
    let mut out = MemOut::new(alloc, &[])?;
    let status = play_main(rt, alloc, &words, &mut shelf, &mut out, &NoGate, maps);
    assert_eq!(rt; status, 0);
    assert_eq!(rt; out.bytes(), b"ok blocks 10 commands 2\n".as_slice());
    assert!(rt; is_verified(alloc, &mut shelf)?);
    Ok(())
}

/// Two thousand notes.
fn many_notes(alloc: Global) -> Result<Vec<u8>, AllocError> {
    let mut notes = Vec::from_slice(alloc, b"midi 1\n")?;
    for n in 0..2000u32 {
        let key = n % 128;
        let (on, off) = (10 * n, 10 * n + 5);
        let lines = format!(in alloc; "{on} on 0 {key} 100\n{off} off 0 {key}\n")?;
        notes.extend_from_slice(lines.as_bytes())?;
    }
    Ok(notes)
}

/// A cartridge beside two thousand notes, over a shelf that never fails and on disk.
fn a_cartridge_stands_beside_notes<R: Threads + Wait + Sync + Files + Abort>(
    rt: &R,
    alloc: Global,
    maps: &MapSet,
) -> Result<(), Fail> {
    let cartridge = Cartridge::blank(alloc)?.write(alloc, 0)?;
    let notes = many_notes(alloc)?;
    let mut sure = SureShelf::new(alloc);
    sure.put_file(alloc, "cart.syx", &cartridge)?;
    sure.put_file(alloc, "notes.txt", &notes)?;
    let words = words_of(alloc, "o.wav o.txt - - cart.syx notes.txt")?;
    let mut out = MemOut::new(alloc, &[])?;
    assert_eq!(rt;
        play_never_failing(rt, alloc, &words, &mut sure, &mut out, &NoGate, maps),
        0
    );
    assert_eq!(rt; out.bytes(), b"ok blocks 20196 commands 4001\n".as_slice());
    let mut disk = DiskShelf::holding_back(rt);
    disk.create("cart.syx")?;
    append_all(&mut disk, "cart.syx", &cartridge)?;
    write_out(&mut disk, "cart.syx")?;
    disk.create("notes.txt")?;
    append_all(&mut disk, "notes.txt", &notes)?;
    write_out(&mut disk, "notes.txt")?;
    let mut out = MemOut::new(alloc, &[])?;
    let status = play_main(rt, alloc, &words, &mut disk, &mut out, &NoGate, maps);
    assert_eq!(rt; status, 0);
    assert_eq!(rt; out.bytes(), b"ok blocks 20196 commands 4001\n".as_slice());
    assert!(rt; is_verified(alloc, &mut disk)?);
    Ok(())
}

#[test]
fn runs_are_verified(rt: HostRuntime) -> Result<(), Fail> {
    let alloc = rt.alloc();
    let linear = Box::new(alloc, |v: u8| Curve::Linear.value(v))?;
    let soft = Box::new(alloc, |v: u8| Curve::Soft.value(v))?;
    let hard = Box::new(alloc, |v: u8| Curve::Hard.value(v))?;
    let maps = MapSet::new(
        VelocityMap::new(Curve::Linear, linear),
        VelocityMap::new(Curve::Soft, soft),
        VelocityMap::new(Curve::Hard, hard),
    );
    one_script_is_verified(&rt, alloc, &maps)?;
    three_scripts_share_a_place(&rt, alloc, &maps)?;
    two_notes_are_due_at_once(&rt, alloc, &maps)?;
    a_cartridge_stands_beside_notes(&rt, alloc, &maps)
}
