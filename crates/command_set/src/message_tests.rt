//! Commands of messages, as a reader of a stream answers them.

ghost use Rattle.std.specs.Prelude.{◌≡◌, ◌≤◌};
ghost use Rattle.velocity_map.specs.Curve.{curve_value};

use super::*;
use cartridge::Cartridge;
use midi_stream::MidiReader;
use std::alloc::{AllocError, Global};
use std::test::Fail;
use sysex_frame::FrameFault;
use velocity_map::{Curve, VelocityMap};

/// What the last message of a stream tells.
fn told(
    alloc: Global,
    stream: &[u8],
    map: &VelocityMap,
) -> Result<Result<Option<Command>, CommandFault>, AllocError> {
    let mut reader = MidiReader::new(alloc)?;
    let mut last = Ok(None);
    for byte in stream {
        if let Some(message) = reader.feed(*byte) {
            last = from_message(alloc, message, reader.sysex(), map);
        }
    }
    Ok(last)
}

/// Whether this is a command with this text, or none where the text is empty.
fn has_text(told: &Result<Option<Command>, CommandFault>, text: &[u8]) -> bool {
    match told {
        Ok(Some(command)) => {
            let mut line = LineText::new();
            if command.in_range() {
                command.write_text(&mut line);
            }
            line.as_slice() == text
        }
        Ok(None) => text.is_empty(),
        Err(_) => false,
    }
}

#[test]
fn messages_are_commands(rt: HostRuntime) -> Result<(), Fail> {
    let alloc = rt.alloc();
    let rule = Box::new(
        alloc,
        |v: u8| -> u8
            requires least { 1 ≤ v }
            requires most { v ≤ 127 }
            ensures { result ≡ curve_value Curve.Soft v }
        { Curve::Soft.value(v) },
    )?;
    let map = VelocityMap::new(Curve::Soft, rule);
    let rows: [(&[u8], &[u8]); 16] = [
        (b"\x90\x3C\x40", b"on 0 60 96"),
        (b"\x9F\x7F\x7F", b"on 15 127 127"),
        (b"\x90\x3C\x00", b"off 0 60"),
        (b"\x83\x3C\x40", b"off 3 60"),
        (b"\xA0\x3C\x40", b""),
        (b"\xB0\x01\x7F", b"control 0 1 127"),
        (b"\xB0\x7B\x00", b"control 0 123 0"),
        (b"\xB0\x07\x7F", b""),
        (b"\xC5\x07", b"program 5 7"),
        (b"\xD0\x40", b""),
        (b"\xE3\x7F\x7F", b"bend 3 16383"),
        (b"\xF0\x43\x10\x01\x06\x10\xF7", b"param 134 16"),
        (b"\xF0\x43\x10\x4C\x00\x00\x7E\x00\xF7", b""),
        (b"\xF0\x43\x20\x09\xF7", b""),
        (b"\xF0\x7E\x00\xF7", b""),
        (b"\xF0\x43\x30\x00\x00\xF7", b""),
    ];
    for (stream, text) in rows {
        let told = told(alloc, stream, &map)?;
        assert!(rt; has_text(&told, text), "{stream:?}");
    }
    Ok(())
}

#[test]
fn messages_are_refused(rt: HostRuntime) -> Result<(), Fail> {
    let alloc = rt.alloc();
    let rule = Box::new(
        alloc,
        |v: u8| -> u8
            ensures { result ≡ curve_value Curve.Linear v }
        { v },
    )?;
    let map = VelocityMap::new(Curve::Linear, rule);
    let rows: [(&[u8], FrameFault); 2] = [
        (
            b"\xF0\x43\x10\x01\x06\x20\xF7",
            FrameFault::ParamValue {
                number: 134,
                value: 32,
            },
        ),
        (b"\xF0\x43\xF7", FrameFault::Short { length: 3 }),
    ];
    for (stream, fault) in rows {
        let refused = told(alloc, stream, &map)?.err();
        assert_eq!(rt; refused, Some(CommandFault::Frame(fault)));
    }
    let mut long = Vec::new(alloc);
    long.resize(6000, 0u8)?;
    if let [first, .., last] = long.as_mut_slice() {
        *first = 0xF0;
        *last = 0xF7;
    }
    let refused = told(alloc, &long, &map)?.err();
    assert_eq!(rt; refused, Some(CommandFault::TooLong { length: 6000 }));
    Ok(())
}

#[test]
fn dumps_are_commands(rt: HostRuntime) -> Result<(), Fail> {
    let alloc = rt.alloc();
    let rule = Box::new(
        alloc,
        |v: u8| -> u8
            ensures { result ≡ curve_value Curve.Linear v }
        { v },
    )?;
    let map = VelocityMap::new(Curve::Linear, rule);
    let message = Cartridge::blank(alloc)?.write(alloc, 0)?;
    let cartridge = told(alloc, &message, &map)?;
    let text = format!(in alloc;
        "cartridge {}",
        hex::encode(alloc, Cartridge::blank(alloc)?.payload())?
    )?;
    assert!(rt; has_text(&cartridge, text.as_bytes()));
    let mut message = Vec::from_slice(alloc, b"\xF0\x43\x00\x00\x01\x1B")?;
    message.resize(162, 0u8)?;
    message.push(0xF7)?;
    let voice = told(alloc, &message, &map)?;
    let text = format!(in alloc; "voice {}", hex::encode(alloc, [0u8; 155])?)?;
    assert!(rt; has_text(&voice, text.as_bytes()));
    Ok(())
}
