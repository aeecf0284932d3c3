//! Runs of the program over shelves and outputs in memory.

mod librarian;

use crate::{tool_main, tool_never_failing};
use cartridge::Cartridge;
use generator::script_text;
use librarian::{cartridge_message, voice_message};
use outside::{MemOut, MemShelf, OneByteShelf, SureShelf};
use std::alloc::{AllocError, Global};
use std::test::Fail;
use sysex_frame::write_voice;
use voice_record::Voice;

fn words_of(alloc: Global, words: &[&str]) -> Result<Vec<String>, AllocError> {
    let mut all = Vec::new(alloc);
    for word in words {
        all.push(String::from_str(alloc, word)?)?;
    }
    Ok(all)
}

/// The words that single spaces separate.
fn split_words(alloc: Global, words: &str) -> Result<Vec<String>, AllocError> {
    let mut all = Vec::new(alloc);
    for word in words.split(' ') {
        all.push(String::from_str(alloc, word)?)?;
    }
    Ok(all)
}

/// The status of a command on a file `f`.
fn status_on(
    alloc: Global,
    words: &[&str],
    file: &[u8],
    out: &mut MemOut,
) -> Result<u8, AllocError> {
    let words = words_of(alloc, words)?;
    let mut shelf = MemShelf::new(alloc, &[])?;
    shelf.put_file(alloc, "f", file)?;
    Ok(tool_main(alloc, &words, &mut shelf, out))
}

/// A SysEx message of another manufacturer with this many bytes.
fn foreign(alloc: Global, length: usize) -> Result<Vec<u8>, AllocError> {
    let mut bytes = Vec::new(alloc);
    bytes.extend_from_slice(b"\xFE\xF0")?;
    for _ in 2..length {
        bytes.push(0)?;
    }
    bytes.push(0xF7)?;
    Ok(bytes)
}

#[test]
fn files_are_judged(rt: HostRuntime) -> Result<(), Fail> {
    let alloc = rt.alloc();
    let long = foreign(alloc, 5001)?;
    let short = foreign(alloc, 5000)?;
    let voice = write_voice(0, &Voice::init());
    let mut two = Vec::new(alloc);
    two.extend_from_slice(b"\xF0\x43\x10\x01\x06\x10\xF7\xF0\x43\x00\x00\x01\x1B")?;
    two.extend_from_slice(&[0; 156])?;
    two.push(0xF7)?;
    let rows: [(&[&str], &[u8], u8, &[u8]); 22] = [
        (
            &["check", "f"],
            &two,
            0,
            b"param 134 16\nvoice ..........\nmessages 2\n",
        ),
        (&["check", "f"], b"", 0, b"messages 0\n"),
        (&["check", "f"], b"\xF0\xF7", 0, b"other\nmessages 1\n"),
        (&["check", "f"], b"\xF0\x43\xF7", 4, b"fault 0 short 3\n"),
        (
            &["check", "f"],
            b"\xF0\x43\x20\x00\xF7",
            0,
            b"request\nmessages 1\n",
        ),
        (
            &["check", "f"],
            b"\xF0\x43\x10\xF8\x01\x06\x10\xF7",
            0,
            b"param 134 16\nmessages 1\n",
        ),
        (
            &["check", "f"],
            b"\xF0\x43\x10\x01\x06\x20\xF7",
            4,
            b"fault 0 value 32 of 134\n",
        ),
        (
            &["check", "f"],
            b"\x90\x3C\x40\xF0\x43\x30\x00\x00\xF7",
            0,
            b"other\nmessages 1\n",
        ),
        (
            &["check", "f"],
            b"\xF0\x43\x00\x09\xF7",
            4,
            b"fault 0 length 5 wanted 4104\n",
        ),
        (&["check", "f"], b"\xF0\xF7\x90\x3C", 4, b"cut\n"),
        (&["check", "f"], b"\x90", 4, b"cut\n"),
        (
            &["check", "f"],
            &voice,
            0,
            b"voice INIT VOICE\nmessages 1\n",
        ),
        (&["check", "f"], &short, 0, b"other\nmessages 1\n"),
        (&["check", "f"], &long, 4, b"fault 1 long\n"),
        (&["list", "f"], &long, 4, b"fault 1 long\n"),
        (&["list", "f"], b"\xF0\x43\xF7", 4, b"no cartridge\n"),
        (&["pick", "f", "0", "o"], &voice, 4, b"no cartridge\n"),
        (&["pack", "o", "f"], b"\xF0\x43\xF7", 4, b"no voice\n"),
        (&["pack", "o", "f", "g"], &voice, 2, b"cannot read g\n"),
        (&["check", "g"], b"", 2, b"cannot read g\n"),
        (
            &["pick", "f", "32", "o"],
            b"",
            1,
            b"usage: tool COMMAND WORDS...\n",
        ),
        (
            &["pack", "f", "f"],
            b"",
            1,
            b"usage: tool COMMAND WORDS...\n",
        ),
    ];
    for (words, file, status, printed) in rows {
        let mut out = MemOut::new(alloc, &[])?;
        assert_eq!(rt; status_on(alloc, words, file, &mut out)?, status);
        assert_eq!(rt; out.bytes(), printed);
    }
    Ok(())
}

/// An order of one note over 100 blocks.
const NOTE: &[u8] =
    b"order engine 1 blocks 100 scripts 1\n0 0 0 0 on 0 69 100\n50 50 0 1 off 0 69\n";

/// The header of its sound and the samples 0, 8, 24, 47, 79, 118, 164, 217.
const PREFIX: &[u8] =
    b"RIFF\x24\x32\0\0WAVEfmt \x10\0\0\0\x01\0\x01\0\x44\xAC\0\0\x88\x58\x01\0\x02\0\x10\0data\0\x32\0\0\
\0\0\x08\0\x18\0\x2F\0\x4F\0\x76\0\xA4\0\xD9\0";

/// The bytes of the file to which an order is replayed, and none where it isn't.
fn replayed(alloc: Global, order: &[u8]) -> Result<Vec<u8>, AllocError> {
    let mut shelf = MemShelf::new(alloc, &[])?;
    shelf.put_file(alloc, "f", order)?;
    let mut out = MemOut::new(alloc, &[])?;
    let words = words_of(alloc, &["replay", "f", "w"])?;
    let status = tool_main(alloc, &words, &mut shelf, &mut out);
    match shelf.file("w") {
        Some(sound) if status == 0 => sound.to_vec(alloc),
        _ => Ok(Vec::new(alloc)),
    }
}

/// The status of a comparison of an order and a sound file.
fn verified(alloc: Global, order: &[u8], sound: &[u8], out: &mut MemOut) -> Result<u8, AllocError> {
    let mut shelf = MemShelf::new(alloc, &[])?;
    shelf.put_file(alloc, "f", order)?;
    shelf.put_file(alloc, "w", sound)?;
    let words = words_of(alloc, &["verify", "f", "w"])?;
    Ok(tool_main(alloc, &words, &mut shelf, out))
}

/// The bytes with one of them changed.
fn changed(alloc: Global, bytes: &[u8], at: usize) -> Result<Vec<u8>, AllocError> {
    let mut all = bytes.to_vec(alloc)?;
    if let Some(byte) = all.get_mut(at) {
        *byte ^= 1;
    }
    Ok(all)
}

#[test]
fn an_order_is_replayed_and_verified(rt: HostRuntime) -> Result<(), Fail> {
    let alloc = rt.alloc();
    let sound = replayed(alloc, NOTE)?;
    assert_eq!(rt; sound.len(), 12844);
    assert!(rt; sound.as_slice().starts_with(PREFIX));
    let mut longer = sound.as_slice().to_vec(alloc)?;
    longer.push(0)?;
    let mut shorter = sound.as_slice().to_vec(alloc)?;
    let _ = shorter.pop();
    let size = changed(alloc, sound.as_slice(), 4)?;
    let last = changed(alloc, sound.as_slice(), 12843)?;
    let rows: [(&[u8], u8, &[u8]); 7] = [
        (sound.as_slice(), 0, b"same\n"),
        (last.as_slice(), 7, b"differs at 12843\n"),
        (longer.as_slice(), 7, b"differs at 12844\n"),
        (shorter.as_slice(), 7, b"differs at 12843\n"),
        (size.as_slice(), 7, b"differs at 4\n"),
        (b"", 7, b"differs at 0\n"),
        (PREFIX, 7, b"differs at 60\n"),
    ];
    for (file, status, printed) in rows {
        let mut out = MemOut::new(alloc, &[])?;
        assert_eq!(rt; verified(alloc, NOTE, file, &mut out)?, status);
        assert_eq!(rt; out.bytes(), printed);
    }
    Ok(())
}

#[test]
fn orders_are_judged(rt: HostRuntime) -> Result<(), Fail> {
    let alloc = rt.alloc();
    let usage = b"usage: tool COMMAND WORDS...\n";
    let rows: [(&[&str], &[u8], u8, &[u8]); 13] = [
        (&["replay", "f", "o"], NOTE, 0, b"ok\n"),
        (&["verify", "f", "f"], NOTE, 7, b"differs at 0\n"),
        (&["replay", "f", "o"], b"", 4, b"order line 1: line\n"),
        (
            &["replay", "f", "o"],
            b"order engine 1 blocks 9 scripts 1\n0 0 0 0 on 0 69 0\n",
            4,
            b"order line 2: line\n",
        ),
        (
            &["verify", "f", "g"],
            b"order engine 1 blocks 9 scripts 1\n5 5 0 0 on 0 69 100\n4 4 0 1 off 0 69\n",
            4,
            b"order line 3: block\n",
        ),
        (
            &["replay", "f", "o"],
            b"order engine 1 blocks 9 scripts 1\n0 0 1 0 on 0 69 100\n",
            4,
            b"order line 2: script\n",
        ),
        (
            &["replay", "f", "o"],
            b"order engine 1 blocks 9 scripts 1\n0 0 0 1 on 0 69 100\n",
            4,
            b"order line 2: sequence\n",
        ),
        (&["replay", "g", "o"], NOTE, 2, b"cannot read g\n"),
        (&["verify", "g", "f"], NOTE, 2, b"cannot read g\n"),
        (&["verify", "f", "g"], NOTE, 2, b"cannot read g\n"),
        (&["replay", "f", "f"], NOTE, 1, usage),
        (&["replay", "f", ""], NOTE, 1, usage),
        (&["verify", "f"], NOTE, 1, usage),
    ];
    for (words, file, status, printed) in rows {
        let mut out = MemOut::new(alloc, &[])?;
        assert_eq!(rt; status_on(alloc, words, file, &mut out)?, status);
        assert_eq!(rt; out.bytes(), printed);
    }
    Ok(())
}

/// Adds the two lower-case digits of each byte.
fn push_hex(text: &mut Vec<u8>, bytes: &[u8]) -> Result<(), AllocError> {
    for byte in bytes {
        text.push(hex_digit(*byte / 16))?;
        text.push(hex_digit(*byte % 16))?;
    }
    Ok(())
}

fn hex_digit(value: u8) -> u8 {
    if value < 10 {
        b'0' + value
    } else {
        b'W'.saturating_add(value)
    }
}

/// A voice whose second operator sounds through the first.
fn other_voice() -> Voice {
    let mut voice = Voice::init();
    let _ = voice.set(100, 99);
    voice
}

/// An order over two blocks: some entries, and then a line with bytes in hex and some entries after it.
fn order_with(
    alloc: Global,
    before: &[u8],
    bytes: &[u8],
    after: &[u8],
) -> Result<Vec<u8>, AllocError> {
    let mut text = Vec::new(alloc);
    text.extend_from_slice(b"order engine 1 blocks 2 scripts 1\n")?;
    text.extend_from_slice(before)?;
    push_hex(&mut text, bytes)?;
    text.extend_from_slice(after)?;
    Ok(text)
}

#[test]
fn a_program_takes_a_voice_of_the_cartridge(rt: HostRuntime) -> Result<(), Fail> {
    let alloc = rt.alloc();
    let voice = other_voice();
    let mut cartridge = Cartridge::blank(alloc)?;
    cartridge.store(1, &voice);
    let program = order_with(
        alloc,
        b"0 0 0 0 cartridge ",
        cartridge.payload(),
        b"\n0 0 0 1 program 0 33\n0 0 0 2 on 0 69 100\n",
    )?;
    let taken = order_with(
        alloc,
        b"0 0 0 0 voice ",
        &voice.bytes(),
        b"\n0 0 0 1 on 0 69 100\n",
    )?;
    let other = order_with(
        alloc,
        b"0 0 0 0 cartridge ",
        cartridge.payload(),
        b"\n0 0 0 1 program 0 34\n0 0 0 2 on 0 69 100\n",
    )?;
    let sound = replayed(alloc, program.as_slice())?;
    assert_eq!(rt; sound.len(), 300);
    let mut out = MemOut::new(alloc, &[])?;
    assert_eq!(rt;
        verified(alloc, taken.as_slice(), sound.as_slice(), &mut out)?,
        0
    );
    assert_eq!(rt;
        verified(alloc, other.as_slice(), sound.as_slice(), &mut out)?,
        7
    );
    assert!(rt; out.bytes().starts_with(b"same\ndiffers at "));
    Ok(())
}

#[test]
fn a_pedal_holds_a_note(rt: HostRuntime) -> Result<(), Fail> {
    let alloc = rt.alloc();
    let held = replayed(
        alloc,
        b"order engine 1 blocks 2 scripts 1\n0 0 0 0 control 0 64 127\n0 0 0 1 on 0 69 100\n1 0 0 2 off 0 69\n",
    )?;
    let released = replayed(
        alloc,
        b"order engine 1 blocks 2 scripts 1\n0 0 0 0 on 0 69 100\n1 0 0 1 off 0 69\n",
    )?;
    let place = held.iter().zip(released.iter()).position(|(a, b)| *a != *b);
    assert_eq!(rt; (held.len(), released.len()), (300, 300));
    assert!(rt; matches!(place, Some(at) if at >= 172));
    Ok(())
}

#[test]
fn every_command_is_replayed(rt: HostRuntime) -> Result<(), Fail> {
    let alloc = rt.alloc();
    let mut text = order_with(
        alloc,
        b"0 0 0 0 voice ",
        &other_voice().bytes(),
        b"\n0 0 0 1 param 135 6\n0 0 0 2 store 31\n0 0 0 3 cartridge ",
    )?;
    push_hex(&mut text, Cartridge::blank(alloc)?.payload())?;
    text.extend_from_slice(
        b"\n0 0 0 4 bend 0 9000\n0 0 0 5 control 0 1 20\n0 0 0 6 control 0 64 64\n0 0 0 7 on 0 60 90\n\
1 0 0 8 off 0 60\n1 1 0 9 control 0 64 0\n1 1 0 10 program 0 0\n1 1 0 11 on 0 64 1\n1 1 0 12 control 0 123 0\n",
    )?;
    let sound = replayed(alloc, text.as_slice())?;
    assert_eq!(rt; sound.len(), 300);
    let other = changed(alloc, sound.as_slice(), 200)?;
    let mut out = MemOut::new(alloc, &[])?;
    assert_eq!(rt;
        verified(alloc, text.as_slice(), sound.as_slice(), &mut out)?,
        0
    );
    assert_eq!(rt;
        verified(alloc, text.as_slice(), other.as_slice(), &mut out)?,
        7
    );
    assert_eq!(rt; out.bytes(), b"same\ndiffers at 200\n".as_slice());
    Ok(())
}

/// The status of a command on a shelf with these files, whose call number `fail` fails, and what it wrote to `w`.
fn failing(
    alloc: Global,
    words: &[&str],
    files: &[(&str, &[u8])],
    fail: u64,
    out: &mut MemOut,
) -> Result<(u8, Option<Vec<u8>>), AllocError> {
    let words = words_of(alloc, words)?;
    let mut shelf = MemShelf::new(alloc, &[fail])?;
    for (name, bytes) in files {
        shelf.put_file(alloc, name, bytes)?;
    }
    let status = tool_main(alloc, &words, &mut shelf, out);
    let written = match shelf.file("w") {
        Some(bytes) => Some(bytes.to_vec(alloc)?),
        None => None,
    };
    Ok((status, written))
}

#[test]
fn a_failing_call_of_replay_is_told(rt: HostRuntime) -> Result<(), Fail> {
    let alloc = rt.alloc();
    let whole = replayed(alloc, NOTE)?;
    assert_eq!(rt; whole.len(), 12844);
    // Two reads of the order, the create, the header, two chunks of 64 and 36 blocks, and what is held back is written out.
    for fail in 0..8u64 {
        let mut out = MemOut::new(alloc, &[])?;
        let (status, written) = failing(
            alloc,
            &["replay", "f", "w"],
            &[("f", NOTE)],
            fail,
            &mut out,
        )?;
        let (wanted, line, size): (u8, &[u8], Option<usize>) = match fail {
            0 | 1 => (2, b"cannot read f\n", None),
            2 => (3, b"cannot write w\n", None),
            3 => (3, b"cannot write w\n", Some(0)),
            4 => (3, b"cannot write w\n", Some(44)),
            5 => (3, b"cannot write w\n", Some(8236)),
            6 => (3, b"cannot write w\n", Some(12844)),
            _ => (0, b"ok\n", Some(12844)),
        };
        assert_eq!(rt; status, wanted);
        assert_eq!(rt; out.bytes(), line);
        assert_eq!(rt; written.as_ref().map(|bytes| bytes.len()), size);
        if let Some(bytes) = written {
            assert!(rt; whole.as_slice().starts_with(bytes.as_slice()));
        }
    }
    let mut silent = MemOut::new(alloc, &[0])?;
    let (status, written) = failing(alloc, &["replay", "f", "w"], &[("f", NOTE)], 9, &mut silent)?;
    assert_eq!(rt; status, 3);
    assert!(rt; silent.bytes().is_empty());
    assert_eq!(rt; written.map_or(0, |bytes| bytes.len()), 12844);
    Ok(())
}

#[test]
fn a_failing_call_of_verify_is_told(rt: HostRuntime) -> Result<(), Fail> {
    let alloc = rt.alloc();
    let sound = replayed(alloc, NOTE)?;
    let files: [(&str, &[u8]); 2] = [("f", NOTE), ("w", sound.as_slice())];
    // Two reads of the order; of the sound file one for the header, one for its blocks, one at its end.
    for fail in 0..6u64 {
        let mut out = MemOut::new(alloc, &[])?;
        let (status, _) = failing(alloc, &["verify", "f", "w"], &files, fail, &mut out)?;
        let (wanted, line): (u8, &[u8]) = match fail {
            0 | 1 => (2, b"cannot read f\n"),
            2 | 3 | 4 => (2, b"cannot read w\n"),
            _ => (0, b"same\n"),
        };
        assert_eq!(rt; status, wanted);
        assert_eq!(rt; out.bytes(), line);
    }
    // Of two that are not there the first is named.
    let mut out = MemOut::new(alloc, &[])?;
    let (status, _) = failing(alloc, &["verify", "f", "w"], &[], 9, &mut out)?;
    assert_eq!(rt; status, 2);
    assert_eq!(rt; out.bytes(), b"cannot read f\n".as_slice());
    let mut silent = MemOut::new(alloc, &[0])?;
    assert_eq!(rt; verified(alloc, NOTE, sound.as_slice(), &mut silent)?, 3);
    assert!(rt; silent.bytes().is_empty());
    Ok(())
}

#[test]
fn a_sound_file_that_differs_is_read_to_its_end(rt: HostRuntime) -> Result<(), Fail> {
    let alloc = rt.alloc();
    let order = b"order engine 1 blocks 2000 scripts 1\n0 0 0 0 on 0 69 100\n";
    let sound = replayed(alloc, order)?;
    assert_eq!(rt; sound.len(), 256_044);
    let other = changed(alloc, sound.as_slice(), 50)?;
    let files: [(&str, &[u8]); 2] = [("f", order), ("w", other.as_slice())];
    // Two reads of the order; of the sound file one for the header and one in which the difference lies, then three whole pieces
    // and a part, and the read at its end.
    let read: &[u8] = b"cannot read w\n";
    for (fail, wanted, line) in [
        (3u64, 2u8, read),
        (4, 2, read),
        (5, 2, read),
        (6, 2, read),
        (7, 2, read),
        (8, 7, b"differs at 50\n"),
    ] {
        let mut out = MemOut::new(alloc, &[])?;
        let (status, _) = failing(alloc, &["verify", "f", "w"], &files, fail, &mut out)?;
        assert_eq!(rt; status, wanted, "{fail}");
        assert_eq!(rt; out.bytes(), line);
    }
    Ok(())
}

#[test]
fn a_refused_order_is_read_to_its_end(rt: HostRuntime) -> Result<(), Fail> {
    let alloc = rt.alloc();
    let mut order = Vec::from_slice(
        alloc,
        b"order engine 1 blocks 100 scripts 1\n0 0 0 0 on 0 69 0\n",
    )?;
    for _ in 0..7000 {
        order.extend_from_slice(b"0 0 0 0 on\n")?;
    }
    let files: [(&str, &[u8]); 1] = [("f", order.as_slice())];
    // Two chunks of the order, and its end. The sound file is not looked at: that it is not there is not told.
    for (words, fail, wanted, line) in [
        (
            ["replay", "f", "w"],
            1u64,
            2u8,
            b"cannot read f\n".as_slice(),
        ),
        (["replay", "f", "w"], 2, 2, b"cannot read f\n"),
        (["replay", "f", "w"], 3, 4, b"order line 2: line\n"),
        (["verify", "f", "w"], 2, 2, b"cannot read f\n"),
        (["verify", "f", "w"], 3, 4, b"order line 2: line\n"),
    ] {
        let mut out = MemOut::new(alloc, &[])?;
        let (status, written) = failing(alloc, &words, &files, fail, &mut out)?;
        assert_eq!(rt; status, wanted);
        assert_eq!(rt; out.bytes(), line);
        assert!(rt; written.is_none());
    }
    Ok(())
}

#[test]
fn a_shelf_may_take_one_byte_at_a_time(rt: HostRuntime) -> Result<(), Fail> {
    let alloc = rt.alloc();
    let whole = replayed(alloc, NOTE)?;
    let mut inner = MemShelf::new(alloc, &[])?;
    inner.put_file(alloc, "f", NOTE)?;
    inner.put_file(alloc, "c", &cartridge_message(alloc, 3, 3, 5)?)?;
    inner.put_file(alloc, "v", &voice_message(3))?;
    let mut slow = OneByteShelf { inner };
    for (words, printed) in [
        ("pick c 3 p", b"ok\n".as_slice()),
        ("pack q v p", b"ok\n"),
        ("replay f w", b"ok\n"),
        ("verify f w", b"same\n"),
        ("gen 0 1 1", b"scripts 1 commands 1\n"),
    ] {
        let words = split_words(alloc, words)?;
        let mut out = MemOut::new(alloc, &[])?;
        assert_eq!(rt; tool_main(alloc, &words, &mut slow, &mut out), 0);
        assert_eq!(rt; out.bytes(), printed);
    }
    assert_eq!(rt; slow.inner.file("w"), Some(whole.as_slice()));
    assert_eq!(rt; slow.inner.file("p"), Some(voice_message(3).as_slice()));
    let packed = cartridge_message(alloc, 0, 1, 0)?;
    assert_eq!(rt; slow.inner.file("q"), Some(packed.as_slice()));
    Ok(())
}

#[test]
fn a_shelf_may_tell_nothing(rt: HostRuntime) -> Result<(), Fail> {
    let alloc = rt.alloc();
    let mut shelf = SureShelf::new(alloc);
    shelf.put_file(alloc, "f", NOTE)?;
    let rows: [(&[&str], u8, &[u8]); 6] = [
        (&["replay", "f", "w"], 0, b"ok\n"),
        (&["check", "g"], 0, b"messages 0\n"),
        (&["verify", "f", "w"], 7, b"differs at 0\n"),
        (&["replay", "g", "w"], 4, b"order line 1: line\n"),
        (&["gen", "0", "1", "1"], 0, b"scripts 1 commands 1\n"),
        (&["gen", "0", "1"], 1, b"usage: tool COMMAND WORDS...\n"),
    ];
    for (words, status, printed) in rows {
        let words = words_of(alloc, words)?;
        let mut out = MemOut::new(alloc, &[])?;
        assert_eq!(rt;
            tool_never_failing(alloc, &words, &mut shelf, &mut out),
            status
        );
        assert_eq!(rt; out.bytes(), printed);
    }
    let gen_words = words_of(alloc, &["gen", "0", "1", "1"])?;
    let mut silent = MemOut::new(alloc, &[0])?;
    assert_eq!(rt;
        tool_never_failing(alloc, &gen_words, &mut shelf, &mut silent),
        3
    );
    Ok(())
}

#[test]
fn scripts_are_generated_and_played(rt: HostRuntime) -> Result<(), Fail> {
    let alloc = rt.alloc();
    let usage = b"usage: tool COMMAND WORDS...\n";
    let rows: [(&[&str], u8, &[u8]); 15] = [
        (&["gen", "0", "1", "1"], 0, b"scripts 1 commands 1\n"),
        (&["gen", "0", "1", "0"], 0, b"scripts 1 commands 0\n"),
        (&["gen", "7", "3", "5"], 0, b"scripts 3 commands 15\n"),
        (
            &["gen", "18446744073709551615", "1", "1"],
            0,
            b"scripts 1 commands 1\n",
        ),
        (&["bench", "0", "1"], 0, b"commands 0 blocks 1 sum 0\n"),
        (
            &["bench", "1", "400"],
            0,
            b"commands 400 blocks 400 sum 3814002\n",
        ),
        (
            &["bench", "1", "4000"],
            0,
            b"commands 4000 blocks 4000 sum 28504844\n",
        ),
        (&["gen", "0", "0", "1"], 1, usage),
        (&["gen", "0", "257", "1"], 1, usage),
        (&["gen", "0", "1", "100001"], 1, usage),
        (&["gen", "0", "100", "10001"], 1, usage),
        (&["gen", "18446744073709551616", "1", "1"], 1, usage),
        (&["gen", "01", "1", "1"], 1, usage),
        (&["bench", "0", "0"], 1, usage),
        (&["bench", "0", "100001"], 1, usage),
    ];
    for (words, status, printed) in rows {
        let mut out = MemOut::new(alloc, &[])?;
        assert_eq!(rt; status_on(alloc, words, b"", &mut out)?, status);
        assert_eq!(rt; out.bytes(), printed);
    }
    Ok(())
}

#[test]
fn generated_scripts_are_written(rt: HostRuntime) -> Result<(), Fail> {
    let alloc = rt.alloc();
    let rows: [(&[&str], &[u8]); 2] = [
        (&["gen", "0", "1", "1"], b"midi 1\n7 on 0 73 26\n"),
        (&["gen", "0", "1", "0"], b"midi 1\n"),
    ];
    for (words, text) in rows {
        let words = words_of(alloc, words)?;
        let mut shelf = MemShelf::new(alloc, &[])?;
        let mut out = MemOut::new(alloc, &[])?;
        assert_eq!(rt; tool_main(alloc, &words, &mut shelf, &mut out), 0);
        assert_eq!(rt; shelf.file("gen-0.txt"), Some(text));
        assert!(rt; shelf.file("gen-1.txt").is_none());
    }
    Ok(())
}

#[test]
fn failures_of_gen_and_bench_are_told(rt: HostRuntime) -> Result<(), Fail> {
    let alloc = rt.alloc();
    let words = words_of(alloc, &["gen", "7", "3", "5"])?;
    let first = script_text(alloc, 7, 0, 5)?;
    let second = script_text(alloc, 7, 1, 5)?;
    let third = script_text(alloc, 7, 2, 5)?;
    let all: [Option<&[u8]>; 3] = [
        Some(first.as_slice()),
        Some(second.as_slice()),
        Some(third.as_slice()),
    ];
    // Of each file the create, the append, and what is held back is written out.
    let cases: [(&[u64], &[u64], u8, &[u8], [Option<&[u8]>; 3]); 5] = [
        (&[], &[], 0, b"scripts 3 commands 15\n", all),
        (
            &[3],
            &[],
            3,
            b"cannot write gen-1.txt\n",
            [all[0], None, None],
        ),
        (
            &[4],
            &[],
            3,
            b"cannot write gen-1.txt\n",
            [all[0], Some(b""), None],
        ),
        (
            &[5],
            &[],
            3,
            b"cannot write gen-1.txt\n",
            [all[0], all[1], None],
        ),
        (&[], &[0], 3, b"", all),
    ];
    for (fails, silent, status, printed, files) in cases {
        let mut shelf = MemShelf::new(alloc, fails)?;
        let mut out = MemOut::new(alloc, silent)?;
        assert_eq!(rt; tool_main(alloc, &words, &mut shelf, &mut out), status);
        assert_eq!(rt; out.bytes(), printed);
        assert_eq!(rt; shelf.file("gen-0.txt"), files[0]);
        assert_eq!(rt; shelf.file("gen-1.txt"), files[1]);
        assert_eq!(rt; shelf.file("gen-2.txt"), files[2]);
    }
    let bench = words_of(alloc, &["bench", "0", "1"])?;
    let mut shelf = MemShelf::new(alloc, &[])?;
    let mut out = MemOut::new(alloc, &[0])?;
    assert_eq!(rt; tool_main(alloc, &bench, &mut shelf, &mut out), 3);
    assert_eq!(rt; out.bytes(), b"".as_slice());
    Ok(())
}
