//! Runs of the top call over files in memory.

ghost use Rattle.std.specs.Prelude.{◌≤◌};

use super::*;
use outside::{
    DiskShelf, Gate, MemOut, MemShelf, NoGate, OneByteShelf, Shelf, SureShelf, append_all, read_all,
};
use std::alloc::{AllocError, Global};
use std::process::Abort;
use std::rt::Files;
use std::sync::Wait;
use std::sync::atomic::{AtomicU64, Ordering};
use std::test::Fail;
use std::thread::{self, Threads};
use velocity_map::{Curve, MapSet, VelocityMap};

/// One map for each curve.
macro_rules! make_maps {
    ($alloc:expr) => {{
        let linear = Box::new($alloc, |v: u8| Curve::Linear.value(v))?;
        let soft = Box::new($alloc, |v: u8| Curve::Soft.value(v))?;
        let hard = Box::new($alloc, |v: u8| Curve::Hard.value(v))?;
        MapSet::new(
            VelocityMap::new(Curve::Linear, linear),
            VelocityMap::new(Curve::Soft, soft),
            VelocityMap::new(Curve::Hard, hard),
        )
    }};
}

fn words_of(alloc: Global, text: &str) -> Result<Vec<String>, AllocError> {
    let mut all = Vec::new(alloc);
    for word in text.split(' ') {
        all.push(String::from_str(alloc, word)?)?;
    }
    Ok(all)
}

const NOTE: &[u8] = b"midi 1\n0 on 0 69 100\n50 off 0 69\n";

const THREE: &[u8] = b"midi 1\n0 on 0 60 100\n0 on 0 64 100\n0 on 0 67 100\n";

fn runs_are_written<R: Threads + Wait + Sync + Abort>(
    rt: &R,
    alloc: Global,
    maps: &MapSet,
) -> Result<(), Fail> {
    // words, the script a.txt, the line, the order, and how many bytes the sound has
    let cases: [(&str, &[u8], &[u8], &[u8], usize); 6] = [
        (
            "o.wav o.txt 1 - a.txt",
            b"midi 1\n",
            b"ok blocks 1 commands 0\n",
            b"order engine 1 blocks 1 scripts 1\n",
            172,
        ),
        (
            "o.wav o.txt - - a.txt",
            b"midi 1",
            b"ok blocks 201 commands 0\n",
            b"order engine 1 blocks 201 scripts 1\n",
            25772,
        ),
        (
            "o.wav o.txt 100 - a.txt",
            NOTE,
            b"ok blocks 100 commands 2\n",
            b"order engine 1 blocks 100 scripts 1\n0 0 0 0 on 0 69 100\n50 50 0 1 off 0 69\n",
            12844,
        ),
        (
            "o.wav o.txt - 1 a.txt",
            NOTE,
            b"ok blocks 251 commands 2\n",
            b"order engine 1 blocks 251 scripts 1\n0 0 0 0 on 0 69 100\n50 50 0 1 off 0 69\n",
            32172,
        ),
        (
            "o.wav o.txt 9 - a.txt",
            b"midi 1\nmap soft\n0 bytes 903C40\n",
            b"ok blocks 9 commands 1\n",
            b"order engine 1 blocks 9 scripts 1\n0 0 0 0 on 0 60 96\n",
            1196,
        ),
        (
            "o.wav o.txt 9 2 a.txt a.txt",
            b"midi 1\n0 bytes F043\n3 bytes 10010610F7\n0 off 0 1\n",
            b"script 0 line 4: falls\n",
            b"",
            0,
        ),
    ];
    for (words, script, line, order, size) in cases {
        let mut shelf = MemShelf::new(alloc, &[])?;
        shelf.put_file(alloc, "a.txt", script)?;
        let mut out = MemOut::new(alloc, &[])?;
        let words = words_of(alloc, words)?;
        let status = play_main(rt, alloc, &words, &mut shelf, &mut out, &NoGate, maps);
        assert_eq!(rt; out.bytes(), line);
        assert_eq!(rt; shelf.file("o.txt").unwrap_or(b""), order);
        assert_eq!(rt; shelf.file("o.wav").map_or(0, |sound| sound.len()), size);
        assert_eq!(rt; status, if size > 0 { 0 } else { 4 });
    }
    Ok(())
}

/// A script with no command: the sound file's header and one block of silence.
fn silence_is_written<R: Threads + Wait + Sync + Abort>(
    rt: &R,
    alloc: Global,
    maps: &MapSet,
) -> Result<(), Fail> {
    let words = words_of(alloc, "o.wav o.txt 1 - e.txt")?;
    let mut shelf = MemShelf::new(alloc, &[])?;
    shelf.put_file(alloc, "e.txt", b"midi 1\n")?;
    let mut out = MemOut::new(alloc, &[])?;
    assert_eq!(rt;
        play_main(rt, alloc, &words, &mut shelf, &mut out, &NoGate, maps),
        0
    );
    let mut sound = Vec::from_slice(
        alloc,
        b"RIFF\xa4\0\0\0WAVEfmt \x10\0\0\0\x01\0\x01\0\x44\xac\0\0\x88\x58\x01\0\x02\0\x10\0data\x80\0\0\0",
    )?;
    sound.resize(172, 0)?;
    assert!(rt; shelf.file("o.wav") == Some(sound.as_slice()));
    Ok(())
}

fn samples_are_known<R: Threads + Wait + Sync + Abort>(
    rt: &R,
    alloc: Global,
    maps: &MapSet,
) -> Result<(), Fail> {
    let words = words_of(alloc, "o.wav o.txt 100 - a.txt")?;
    let mut whole = MemShelf::new(alloc, &[])?;
    whole.put_file(alloc, "a.txt", NOTE)?;
    let mut out = MemOut::new(alloc, &[])?;
    assert_eq!(rt;
        play_main(rt, alloc, &words, &mut whole, &mut out, &NoGate, maps),
        0
    );
    let sound = whole.file("o.wav").unwrap_or(b"");
    let header =
        b"RIFF\x24\x32\0\0WAVEfmt \x10\0\0\0\x01\0\x01\0\x44\xac\0\0\x88\x58\x01\0\x02\0\x10\0data\0\x32\0\0";
    assert!(rt; sound.starts_with(header));
    assert_eq!(rt; sound.len(), 12844);
    let samples = [0u8, 0, 8, 0, 24, 0, 47, 0, 79, 0, 118, 0, 164, 0, 217, 0];
    assert_eq!(rt; &sound[44..60], samples.as_slice());
    assert!(rt; sound[44 + 128 * 55..].iter().all(|byte| *byte == 0));
    // A shelf that accepts one byte an append has the same files.
    let mut inner = MemShelf::new(alloc, &[])?;
    inner.put_file(alloc, "a.txt", NOTE)?;
    let mut slow = OneByteShelf { inner };
    assert_eq!(rt;
        play_main(rt, alloc, &words, &mut slow, &mut out, &NoGate, maps),
        0
    );
    assert!(rt; slow.inner.file("o.wav") == whole.file("o.wav"));
    assert!(rt; slow.inner.file("o.txt") == whole.file("o.txt"));
    // A note at the fifth block of five sounds in it.
    let mut late = MemShelf::new(alloc, &[])?;
    late.put_file(alloc, "a.txt", b"midi 1\n4 on 0 69 100\n")?;
    let words = words_of(alloc, "o.wav o.txt 5 - a.txt")?;
    assert_eq!(rt;
        play_main(rt, alloc, &words, &mut late, &mut out, &NoGate, maps),
        0
    );
    let first = whole.file("o.wav").unwrap_or(b"").get(44..172);
    let last = late.file("o.wav").unwrap_or(b"").get(556..684);
    assert!(rt; first.is_some() && first == last);
    Ok(())
}

fn refusals_are_told<R: Threads + Wait + Sync + Abort>(
    rt: &R,
    alloc: Global,
    maps: &MapSet,
) -> Result<(), Fail> {
    // words, the script a.txt beside a good one b.txt, the status, and the line
    let usage = b"usage: play OUT ORDER BLOCKS PLACES SCRIPT...\n".as_slice();
    let cases: [(&str, &[u8], u8, &[u8]); 26] = [
        ("x.wav x.wav 1 - a.txt", NOTE, 1, usage),
        ("o.wav o.txt 01 - a.txt", NOTE, 1, usage),
        ("o.wav o.txt 0 - a.txt", NOTE, 1, usage),
        ("o.wav o.txt 1048577 - a.txt", NOTE, 1, usage),
        ("o.wav o.txt 1 0 a.txt", NOTE, 1, usage),
        ("o.wav o.txt 1 1000001 a.txt", NOTE, 1, usage),
        ("o.wav o.txt 1 -", NOTE, 1, usage),
        ("o.wav o.txt 1 - ", NOTE, 1, usage),
        ("o.wav o.txt 1 - o.wav", NOTE, 1, usage),
        ("--help", NOTE, 1, usage),
        (
            "o.wav o.txt 100 - none.txt",
            NOTE,
            2,
            b"cannot read none.txt\n",
        ),
        (
            "o.wav o.txt 100 - b.txt none.txt a.txt",
            b"midi 2\n",
            2,
            b"cannot read none.txt\n",
        ),
        (
            "o.wav o.txt 100 - a.txt none.txt",
            b"midi 2\n",
            4,
            b"script 0 line 1: kind\n",
        ),
        (
            "o.wav o.txt 100 - b.txt a.txt",
            b"",
            4,
            b"script 1 line 1: kind\n",
        ),
        (
            "o.wav o.txt 100 - a.txt",
            b"midi 1\n0 on 16 60 100\n",
            4,
            b"script 0 line 2: line\n",
        ),
        (
            "o.wav o.txt 5 - a.txt",
            b"midi 1\n5 on 0 69 100\n",
            4,
            b"script 0 line 2: late\n",
        ),
        (
            "o.wav o.txt 100 - a.txt",
            b"midi 1\n5 off 0 1\n4 off 0 1\n",
            4,
            b"script 0 line 3: falls\n",
        ),
        (
            "o.wav o.txt 100 - a.txt",
            b"midi 1\n0 bytes F04310010620F7\n",
            4,
            b"script 0 line 2: message value 32 of 134\n",
        ),
        (
            "o.wav o.txt 100 - a.txt",
            b"midi 1\n0 bytes 903C\n",
            4,
            b"script 0 line 2: cut\n",
        ),
        (
            "o.wav o.txt 100 - a.txt",
            b"\xf0\x43",
            4,
            b"script 0 byte 0: cut\n",
        ),
        (
            "o.wav o.txt 100 - a.txt",
            b"\xf0\x43\x10\x01\x06\x20\xf7",
            4,
            b"script 0 byte 0: message value 32 of 134\n",
        ),
        (
            "o.wav o.txt 100 - a.txt",
            b"edit 1\n0 undo\n",
            4,
            b"script 0 line 2: undo\n",
        ),
        (
            "o.wav o.txt 100 - a.txt",
            b"MThd",
            4,
            b"script 0 byte 4: cut\n",
        ),
        (
            "o.wav o.txt - - a.txt",
            b"midi 1\n1048376 off 0 1\n",
            6,
            b"limit blocks\n",
        ),
        (
            "o.wav o.txt - - a.txt",
            b"midi 1\n4294967295 off 0 1\n",
            6,
            b"limit blocks\n",
        ),
        (
            "o.wav o.txt 1 - a.txt",
            b"midi 1\n0 bytes F043104C00007E00F7\n",
            0,
            b"ok blocks 1 commands 0\n",
        ),
    ];
    for (words, script, status, line) in cases {
        let mut shelf = MemShelf::new(alloc, &[])?;
        shelf.put_file(alloc, "a.txt", script)?;
        shelf.put_file(alloc, "b.txt", NOTE)?;
        let mut out = MemOut::new(alloc, &[])?;
        let words = words_of(alloc, words)?;
        assert_eq!(rt;
            play_main(rt, alloc, &words, &mut shelf, &mut out, &NoGate, maps),
            status
        );
        assert_eq!(rt; out.bytes(), line);
        for name in ["o.wav", "o.txt", "x.wav"] {
            assert!(rt; status == 0 || shelf.file(name).is_none());
        }
        assert!(rt; shelf.file("a.txt") == Some(script) && shelf.file("b.txt") == Some(NOTE));
    }
    Ok(())
}

fn limits_are_told<R: Threads + Wait + Sync + Abort>(
    rt: &R,
    alloc: Global,
    maps: &MapSet,
) -> Result<(), Fail> {
    let mut commands = Vec::new(alloc);
    for _ in 0..1000 {
        commands.extend_from_slice(b"0 off 0 0\n")?;
    }
    let mut many = Vec::from_slice(alloc, b"midi 1\n")?;
    for _ in 0..1000 {
        many.extend_from_slice(&commands)?;
    }
    let mut long = Vec::from_slice(alloc, b"midi 1\n#")?;
    long.resize(14_000_000, b' ')?;
    let mut over = Vec::new(alloc);
    over.resize(16_777_217, 0u8)?;
    let mut shelf = SureShelf::new(alloc);
    shelf.put_file(alloc, "many.txt", &many)?;
    shelf.put_file(alloc, "one.txt", b"midi 1\n0 off 0 0\n")?;
    shelf.put_file(alloc, "over.txt", &over)?;
    shelf.put_file(alloc, "long.txt", &long)?;
    // words and the line
    let cases: [(&str, &[u8]); 3] = [
        ("o.wav o.txt 1 - many.txt one.txt", b"limit commands\n"),
        ("o.wav o.txt 1 - over.txt", b"limit file\n"),
        (
            "o.wav o.txt 1 - long.txt long.txt long.txt long.txt long.txt",
            b"limit scripts\n",
        ),
    ];
    for (words, line) in cases {
        let mut out = MemOut::new(alloc, &[])?;
        let words = words_of(alloc, words)?;
        assert_eq!(rt;
            play_never_failing(rt, alloc, &words, &mut shelf, &mut out, &NoGate, maps),
            6
        );
        assert_eq!(rt; out.bytes(), line);
    }
    Ok(())
}

/// What stands in both files of a run of `NOTE` over 100 blocks before its append of this number is made, those of the headers left out: how
/// many blocks, and how many lines. The first line comes in turn 0, the second one after the block of turn 50.
fn made_before(append: usize) -> (usize, usize)
    ensures { (result.0 ≤ 100) × (result.1 ≤ 2) }
{
    if append == 0 {
        (0, 0)
    } else if append <= 51 {
        (append - 1, 1)
    } else {
        ((append - 2).min(100), 2)
    }
}

/// Each call of a run fails in turn: two reads, two creates, two headers, 100 blocks and two lines, and both files written out.
fn failing_calls_are_told<R: Threads + Wait + Sync + Abort>(
    rt: &R,
    alloc: Global,
    maps: &MapSet,
) -> Result<(), Fail> {
    let words = words_of(alloc, "o.wav o.txt 100 - a.txt")?;
    let mut whole = MemShelf::new(alloc, &[])?;
    whole.put_file(alloc, "a.txt", NOTE)?;
    let mut out = MemOut::new(alloc, &[])?;
    assert_eq!(rt;
        play_main(rt, alloc, &words, &mut whole, &mut out, &NoGate, maps),
        0
    );
    let sound = whole.file("o.wav").unwrap_or(b"");
    let order = whole.file("o.txt").unwrap_or(b"");
    let header = b"order engine 1 blocks 100 scripts 1\n".len();
    let first = header + b"0 0 0 0 on 0 69 100\n".len();
    for call in 0..110usize {
        let mut shelf = MemShelf::new(alloc, &[call as u64])?;
        shelf.put_file(alloc, "a.txt", NOTE)?;
        let mut out = MemOut::new(alloc, &[])?;
        let status = play_main(rt, alloc, &words, &mut shelf, &mut out, &NoGate, maps);
        assert_eq!(rt; status, if call < 2 { 2 } else { 3 });
        let line: &[u8] = match call {
            0 | 1 => b"cannot read a.txt\n",
            3 | 5 | 6 | 57 | 109 => b"cannot write o.txt\n",
            _ => b"cannot write o.wav\n",
        };
        assert_eq!(rt; out.bytes(), line);
        // no file is made before call 3, no order before call 4, and each holds what was appended before
        let (blocks, lines) = made_before(call.max(6) - 6);
        let own = match call {
            0..=2 => None,
            3 | 4 => sound.get(..0),
            _ => sound.get(..44 + 128 * blocks),
        };
        assert!(rt; shelf.file("o.wav") == own);
        let own = match call {
            0..=3 => None,
            4 | 5 => order.get(..0),
            _ => order.get(..[header, first, order.len()][lines]),
        };
        assert!(rt; shelf.file("o.txt") == own);
    }
    // The report can't be put, and the files are whole.
    let mut shelf = MemShelf::new(alloc, &[])?;
    shelf.put_file(alloc, "a.txt", NOTE)?;
    let mut out = MemOut::new(alloc, &[0])?;
    assert_eq!(rt;
        play_main(rt, alloc, &words, &mut shelf, &mut out, &NoGate, maps),
        3
    );
    assert_eq!(rt; out.bytes(), b"".as_slice());
    assert!(rt; shelf.file("o.wav") == whole.file("o.wav"));
    assert!(rt; shelf.file("o.txt") == whole.file("o.txt"));
    Ok(())
}

/// A shelf that holds back has written out both files when a run ends. Where OUT is on a device that accepts nothing, ORDER has what came
/// before the failing write.
fn held_back_is_written_out<R: Threads + Wait + Sync + Files + Abort>(
    rt: &R,
    alloc: Global,
    maps: &MapSet,
) -> Result<(), Fail> {
    let mut inner = DiskShelf::new(rt);
    inner.create("a.txt")?;
    append_all(&mut inner, "a.txt", NOTE)?;
    let order =
        b"order engine 1 blocks 100 scripts 1\n0 0 0 0 on 0 69 100\n50 50 0 1 off 0 69\n".as_slice();
    for (words, status, line) in [
        (
            "o.wav o.txt 100 - a.txt",
            0,
            b"ok blocks 100 commands 2\n".as_slice(),
        ),
        (
            "/dev/full o.txt 100 - a.txt",
            3,
            b"cannot write /dev/full\n".as_slice(),
        ),
    ] {
        let mut shelf = DiskShelf::holding_back(rt);
        let mut out = MemOut::new(alloc, &[])?;
        let words = words_of(alloc, words)?;
        assert_eq!(rt;
            play_main(rt, alloc, &words, &mut shelf, &mut out, &NoGate, maps),
            status
        );
        assert_eq!(rt; out.bytes(), line);
        let Ok(text) = read_all(alloc, &mut inner, "o.txt", 1000) else {
            return Err("o.txt".into());
        };
        assert_eq!(rt; text.as_slice(), order);
    }
    let Ok(sound) = read_all(alloc, &mut inner, "o.wav", 20_000) else {
        return Err("o.wav".into());
    };
    assert_eq!(rt; sound.len(), 12844);
    Ok(())
}

fn many_notes_are_played<R: Threads + Wait + Sync + Abort>(
    rt: &R,
    alloc: Global,
    maps: &MapSet,
) -> Result<(), Fail> {
    let mut script = Vec::from_slice(alloc, b"midi 1\n")?;
    for n in 0..2000u32 {
        let key = n % 128;
        let (on, off) = (10 * n, 10 * n + 5);
        let lines = format!(in alloc; "{on} on 0 {key} 100\n{off} off 0 {key}\n")?;
        script.extend_from_slice(lines.as_bytes())?;
    }
    let mut shelf = SureShelf::new(alloc);
    shelf.put_file(alloc, "notes.txt", &script)?;
    shelf.put_file(alloc, "e.txt", b"midi 1\n7 program 0 3\n")?;
    let mut out = MemOut::new(alloc, &[])?;
    let words = words_of(alloc, "o.wav o.txt - - e.txt notes.txt")?;
    assert_eq!(rt;
        play_never_failing(rt, alloc, &words, &mut shelf, &mut out, &NoGate, maps),
        0
    );
    assert_eq!(rt; out.bytes(), b"ok blocks 20196 commands 4001\n".as_slice());
    Ok(())
}

fn many_scripts_are_played<R: Threads + Wait + Sync + Abort>(
    rt: &R,
    alloc: Global,
    maps: &MapSet,
) -> Result<(), Fail> {
    let mut shelf = MemShelf::new(alloc, &[])?;
    shelf.put_file(alloc, "a.txt", b"midi 1\n0 off 0 1\n")?;
    let mut text = String::from_str(alloc, "o.wav o.txt 3 -")?;
    let mut few = String::from_str(alloc, "o.wav o.txt 3 5")?;
    for _ in 0..256 {
        text.push_str(" a.txt")?;
        few.push_str(" a.txt")?;
    }
    let mut out = MemOut::new(alloc, &[])?;
    let words = words_of(alloc, &text)?;
    assert_eq!(rt;
        play_main(rt, alloc, &words, &mut shelf, &mut out, &NoGate, maps),
        0
    );
    assert_eq!(rt; out.bytes(), b"ok blocks 3 commands 256\n".as_slice());
    let order = shelf.file("o.txt").unwrap_or(b"");
    assert_eq!(rt; order.iter().filter(|byte| **byte == b'\n').count(), 257);
    let words = words_of(alloc, &few)?;
    let status = play_main(rt, alloc, &words, &mut shelf, &mut out, &NoGate, maps);
    assert!(rt; status == 0 || status == 5);
    text.push_str(" a.txt")?;
    let words = words_of(alloc, &text)?;
    assert_eq!(rt;
        play_main(rt, alloc, &words, &mut shelf, &mut out, &NoGate, maps),
        1
    );
    // Two scripts with a note each at block 0 come in one of two orders.
    let mut shelf = MemShelf::new(alloc, &[])?;
    shelf.put_file(alloc, "a.txt", b"midi 1\n0 on 0 60 100\n")?;
    shelf.put_file(alloc, "b.txt", b"midi 1\n0 on 0 64 100\n")?;
    let words = words_of(alloc, "o.wav o.txt 10 - a.txt b.txt")?;
    assert_eq!(rt;
        play_main(rt, alloc, &words, &mut shelf, &mut out, &NoGate, maps),
        0
    );
    let order = shelf.file("o.txt").unwrap_or(b"");
    let first =
        b"order engine 1 blocks 10 scripts 2\n0 0 0 0 on 0 60 100\n0 0 1 0 on 0 64 100\n".as_slice();
    let second =
        b"order engine 1 blocks 10 scripts 2\n0 0 1 0 on 0 64 100\n0 0 0 0 on 0 60 100\n".as_slice();
    assert!(rt; order == first || order == second);
    Ok(())
}

/// Each of two scripts sets its flag and looks for the other's.
#[derive(Drop)]
struct Meeting {
    first: AtomicU64,
    second: AtomicU64,
    met: AtomicU64,
}

impl Gate for Meeting {
    fn pass(&self, actor: u32) {
        let (own, other) = if actor == 0 {
            (&self.first, &self.second)
        } else {
            (&self.second, &self.first)
        };
        if actor < 2 {
            own.store(1, Ordering::SeqCst);
            for _ in 0..10_000_000u64 {
                if other.load(Ordering::SeqCst) == 1 {
                    self.met.fetch_add(1, Ordering::SeqCst);
                    break;
                }
                thread::yield_now();
            }
        }
    }

    fn done(&self, _actor: u32) {}
}

/// The taking half waits in each of the first three turns until the script had its own: it has something due in no more than these.
#[derive(Drop)]
struct AfterScript {
    turns: AtomicU64,
    passes: AtomicU64,
}

impl Gate for AfterScript {
    fn pass(&self, actor: u32) {
        if actor == 1 {
            let pass = self.passes.fetch_add(1, Ordering::SeqCst).wrapping_add(1);
            for _ in 0..10_000_000u64 {
                if self.turns.load(Ordering::SeqCst) >= pass.min(3) {
                    break;
                }
                thread::yield_now();
            }
        }
    }

    fn done(&self, actor: u32) {
        if actor == 0 {
            self.turns.fetch_add(1, Ordering::SeqCst);
        }
    }
}

/// Script 0 waits until the renderer, actor 2, has taken for the last time in its half of the turn.
#[derive(Drop)]
struct AfterTaker {
    taken: AtomicU64,
}

impl Gate for AfterTaker {
    fn pass(&self, actor: u32) {
        if actor == 0 {
            for _ in 0..10_000_000u64 {
                if self.taken.load(Ordering::SeqCst) == 1 {
                    break;
                }
                thread::yield_now();
            }
        }
    }

    fn done(&self, actor: u32) {
        if actor == 2 {
            self.taken.store(1, Ordering::SeqCst);
        }
    }
}

/// One place, one block and two scripts with one command each: the second sends before the renderer takes, and the first after that. It
/// finds a place only where the renderer took in its own half of the turn, and not all at the end.
fn renderer_takes_beside_scripts<R: Threads + Wait + Sync + Abort>(
    rt: &R,
    alloc: Global,
    maps: &MapSet,
) -> Result<(), Fail> {
    let mut shelf = MemShelf::new(alloc, &[])?;
    shelf.put_file(alloc, "a.txt", b"midi 1\n0 off 0 60\n")?;
    shelf.put_file(alloc, "b.txt", b"midi 1\n0 off 0 64\n")?;
    let mut out = MemOut::new(alloc, &[])?;
    let words = words_of(alloc, "o.wav o.txt 1 1 a.txt b.txt")?;
    let gate = AfterTaker {
        taken: AtomicU64::new(0),
    };
    assert_eq!(rt;
        play_main(rt, alloc, &words, &mut shelf, &mut out, &gate, maps),
        0
    );
    assert_eq!(rt; out.bytes(), b"ok blocks 1 commands 2\n".as_slice());
    let order =
        b"order engine 1 blocks 1 scripts 2\n0 0 1 0 off 0 64\n0 0 0 0 off 0 60\n".as_slice();
    assert_eq!(rt; shelf.file("o.txt").unwrap_or(b""), order);
    Ok(())
}

fn scripts_run_side_by_side<R: Threads + Wait + Sync + Abort>(
    rt: &R,
    alloc: Global,
    maps: &MapSet,
) -> Result<(), Fail> {
    let mut shelf = MemShelf::new(alloc, &[])?;
    shelf.put_file(alloc, "a.txt", b"midi 1\n0 off 0 60\n")?;
    shelf.put_file(alloc, "b.txt", THREE)?;
    let mut out = MemOut::new(alloc, &[])?;
    let words = words_of(alloc, "o.wav o.txt 10 - a.txt a.txt")?;
    let gate = Meeting {
        first: AtomicU64::new(0),
        second: AtomicU64::new(0),
        met: AtomicU64::new(0),
    };
    assert_eq!(rt;
        play_main(rt, alloc, &words, &mut shelf, &mut out, &gate, maps),
        0
    );
    assert_eq!(rt; gate.met.load(Ordering::SeqCst), 2);
    // One place: a script that has its turn before anything is taken is refused in each turn. A single script has, also where no gate
    // holds the taking half back.
    let cases: [(&str, u8, &[u8], &[u8]); 3] = [
        (
            "o.wav o.txt 10 1 b.txt",
            0,
            b"ok blocks 10 commands 3\n",
            b"order engine 1 blocks 10 scripts 1\n0 0 0 0 on 0 60 100\n1 0 0 1 on 0 64 100\n2 0 0 2 on 0 67 100\n",
        ),
        (
            "o.wav o.txt 3 1 b.txt",
            0,
            b"ok blocks 3 commands 3\n",
            b"order engine 1 blocks 3 scripts 1\n0 0 0 0 on 0 60 100\n1 0 0 1 on 0 64 100\n2 0 0 2 on 0 67 100\n",
        ),
        (
            "o.wav o.txt 1 1 b.txt",
            5,
            b"left 2 blocks 1 commands 1\n",
            b"order engine 1 blocks 1 scripts 1\n0 0 0 0 on 0 60 100\n",
        ),
    ];
    for (words, status, line, order) in cases {
        let gate = AfterScript {
            turns: AtomicU64::new(0),
            passes: AtomicU64::new(0),
        };
        let words = words_of(alloc, words)?;
        let mut out = MemOut::new(alloc, &[])?;
        let held = play_main(rt, alloc, &words, &mut shelf, &mut out, &gate, maps);
        assert_eq!(rt; held, status);
        assert_eq!(rt; out.bytes(), line);
        assert_eq!(rt; shelf.file("o.txt").unwrap_or(b""), order);
        let mut out = MemOut::new(alloc, &[])?;
        let free = play_main(rt, alloc, &words, &mut shelf, &mut out, &NoGate, maps);
        assert_eq!(rt; free, status);
        assert_eq!(rt; out.bytes(), line);
        assert_eq!(rt; shelf.file("o.txt").unwrap_or(b""), order);
    }
    Ok(())
}

#[test]
fn small_runs(rt: HostRuntime) -> Result<(), Fail> {
    let alloc = rt.alloc();
    let maps = make_maps!(alloc);
    runs_are_written(&rt, alloc, &maps)?;
    silence_is_written(&rt, alloc, &maps)?;
    samples_are_known(&rt, alloc, &maps)?;
    refusals_are_told(&rt, alloc, &maps)?;
    failing_calls_are_told(&rt, alloc, &maps)?;
    held_back_is_written_out(&rt, alloc, &maps)?;
    scripts_run_side_by_side(&rt, alloc, &maps)?;
    renderer_takes_beside_scripts(&rt, alloc, &maps)?;
    limits_are_told(&rt, alloc, &maps)?;
    many_notes_are_played(&rt, alloc, &maps)?;
    many_scripts_are_played(&rt, alloc, &maps)?;
    Ok(())
}
