//! Texts of every kind of command, and texts that nearly are.

use super::*;
use cartridge::Cartridge;
use std::alloc::{AllocError, Global};
use std::process::Abort;
use std::test::Fail;
use voice_record::Voice;

/// Whether the command has this text, and the text reads as a command with the same text.
fn has_text(rt: &impl Abort, alloc: Global, command: &Command, text: &[u8]) -> bool {
    assert!(rt; command.in_range() && text.len() <= 8202);
    let mut line = LineText::new();
    command.write_text(&mut line);
    let read = Command::read_text(alloc, text).expect(rt, "a command");
    let mut again = LineText::new();
    read.write_text(&mut again);
    line.as_slice() == text && again.as_slice() == text
}

#[test]
fn numbers_in_words(rt: HostRuntime) -> Result<(), Fail> {
    let note = Command::NoteOn {
        channel: 0,
        key: 69,
        velocity: 100,
    };
    let rows: [(Command, &[u8]); 8] = [
        (note, b"on 0 69 100"),
        (
            Command::NoteOff {
                channel: 15,
                key: 127,
            },
            b"off 15 127",
        ),
        (
            Command::Bend {
                channel: 3,
                value: 16383,
            },
            b"bend 3 16383",
        ),
        (
            Command::Control {
                channel: 0,
                number: 64,
                value: 127,
            },
            b"control 0 64 127",
        ),
        (
            Command::Program {
                channel: 9,
                number: 0,
            },
            b"program 9 0",
        ),
        (
            Command::Param {
                number: 134,
                value: 31,
            },
            b"param 134 31",
        ),
        (
            Command::Param {
                number: 155,
                value: 63,
            },
            b"param 155 63",
        ),
        (Command::Store { slot: 31 }, b"store 31"),
    ];
    for (command, text) in rows.iter() {
        assert!(rt; has_text(&rt, rt.alloc(), command, text), "{text:?}");
    }
    texts_are_unique();
    Ok(())
}

/// A text with one byte changed.
fn changed(alloc: Global, text: &[u8], at: usize, byte: u8) -> Result<Vec<u8>, AllocError> {
    let mut copy = Vec::from_slice(alloc, text)?;
    if at < copy.len() {
        copy[at] = byte;
    }
    Ok(copy)
}

fn is_refused(rt: &impl Abort, alloc: Global, text: &[u8]) -> bool {
    assert!(rt; text.len() <= 8203);
    let read = Command::read_text(alloc, text);
    matches!(&read, Err(TextFault::NotCommand))
}

/// The text of a command.
fn written(rt: &impl Abort, alloc: Global, command: &Command) -> Result<Vec<u8>, AllocError> {
    assert!(rt; command.in_range());
    let mut line = LineText::new();
    command.write_text(&mut line);
    Vec::from_slice(alloc, line.as_slice())
}

#[test]
fn a_voice_in_hex(rt: HostRuntime) -> Result<(), Fail> {
    let alloc = rt.alloc();
    let voice = Command::Voice(Box::new(alloc, Voice::init())?);
    let text = written(&rt, alloc, &voice)?;
    assert_eq!(rt; text.len(), 316);
    assert!(rt; text.starts_with(b"voice 6363636363636300270000"));
    assert!(rt; text.ends_with(b"494e495420564f494345"));
    assert!(rt; has_text(&rt, alloc, &voice, &text));
    // upper case, a rate of 100, a byte of 131, and no digit
    for (at, byte) in [(299, b'E'), (7, b'4'), (6, b'8'), (6, b'g')] {
        let near = changed(alloc, &text, at, byte)?;
        assert!(rt; is_refused(&rt, alloc, &near), "{at}");
    }
    Ok(())
}

#[test]
fn a_cartridge_in_hex(rt: HostRuntime) -> Result<(), Fail> {
    let alloc = rt.alloc();
    let cartridge = Command::Cartridge(Box::new(alloc, Cartridge::blank(alloc)?)?);
    let mut text = written(&rt, alloc, &cartridge)?;
    assert_eq!(rt; text.len(), 8202);
    assert!(rt; text.starts_with(b"cartridge 6363636363636300270000"));
    assert!(rt; has_text(&rt, alloc, &cartridge, &text));
    // bit 7 of a byte, a rate of 100, and an unused bit beside the last algorithm
    for (at, byte) in [(10, b'e'), (11, b'4'), (8166, b'2')] {
        let near = changed(alloc, &text, at, byte)?;
        assert!(rt; is_refused(&rt, alloc, &near), "{at}");
    }
    text.push(b'0')?;
    assert!(rt; is_refused(&rt, alloc, &text));
    Ok(())
}

#[test]
fn near_misses(rt: HostRuntime) -> Result<(), Fail> {
    let rows: [&[u8]; 24] = [
        b"",
        b"on",
        b"on ",
        b"on 0 69",
        b"on 0 69 100 ",
        b"on 0 69 100 1",
        b"on  0 69 100",
        b" on 0 69 100",
        b"On 0 69 100",
        b"on 00 69 100",
        b"on 0 69 +1",
        b"on 0 69 0",
        b"on 0 69 128",
        b"on 16 69 100",
        b"off 0 128",
        b"bend 0 16384",
        b"control 0 2 0",
        b"program 0 128",
        b"param 134 32",
        b"param 156 0",
        b"store 32",
        b"voice",
        b"voice 63",
        b"cartridge ",
    ];
    for text in rows {
        assert!(rt; is_refused(&rt, rt.alloc(), text), "{text:?}");
    }
    Ok(())
}
