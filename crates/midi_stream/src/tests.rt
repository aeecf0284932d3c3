//! Streams, byte by byte, and their messages.

use crate::{MidiMessage, MidiReader};
use std::alloc::{AllocError, Global};
use std::test::Fail;

/// All messages of a stream.
fn messages(alloc: Global, stream: &[u8]) -> Result<Vec<MidiMessage>, AllocError> {
    let mut reader = MidiReader::new(alloc)?;
    let mut messages = Vec::new(alloc);
    for byte in stream {
        if let Some(message) = reader.feed(*byte) {
            messages.push(message)?;
        }
    }
    Ok(messages)
}

/// The stream with a timing clock before each byte.
fn with_clocks(alloc: Global, stream: &[u8]) -> Result<Vec<u8>, AllocError> {
    let mut bytes = Vec::new(alloc);
    for byte in stream {
        bytes.push(0xF8)?;
        bytes.push(*byte)?;
    }
    Ok(bytes)
}

/// A SysEx message of this many bytes.
fn sysex(alloc: Global, length: usize) -> Result<Vec<u8>, AllocError> {
    let mut bytes = Vec::new(alloc);
    bytes.push(0xF0)?;
    for _ in 2..length {
        bytes.push(0)?;
    }
    bytes.push(0xF7)?;
    Ok(bytes)
}

#[test]
fn reads_streams(rt: HostRuntime) -> Result<(), Fail> {
    let alloc = rt.alloc();
    let rows: [(&[u8], &[MidiMessage]); 12] = [
        (
            b"\xF0\x43\x10\xF8\x01\x06\x10\xF7",
            &[MidiMessage::SysEx { length: 7 }],
        ),
        (
            b"\x90\x3C\x64\xFE\x40\x64\x3C\x00",
            &[
                MidiMessage::NoteOn {
                    channel: 0,
                    key: 60,
                    velocity: 100,
                },
                MidiMessage::NoteOn {
                    channel: 0,
                    key: 64,
                    velocity: 100,
                },
                MidiMessage::NoteOff {
                    channel: 0,
                    key: 60,
                },
            ],
        ),
        (
            b"\xF0\x43\x90\x3C\x64",
            &[MidiMessage::NoteOn {
                channel: 0,
                key: 60,
                velocity: 100,
            }],
        ),
        (b"\x3C\x64\x90\x3C\xF1\x64", &[]),
        (
            b"\x8F\x3C\x40",
            &[MidiMessage::NoteOff {
                channel: 15,
                key: 60,
            }],
        ),
        (
            b"\xA1\x3C\x10",
            &[MidiMessage::KeyPressure {
                channel: 1,
                key: 60,
                value: 16,
            }],
        ),
        (
            b"\xB2\x07\xFF\x64",
            &[MidiMessage::Control {
                channel: 2,
                number: 7,
                value: 100,
            }],
        ),
        (
            b"\xC3\x05\x06",
            &[
                MidiMessage::Program {
                    channel: 3,
                    number: 5,
                },
                MidiMessage::Program {
                    channel: 3,
                    number: 6,
                },
            ],
        ),
        (
            b"\xD4\x7F",
            &[MidiMessage::ChannelPressure {
                channel: 4,
                value: 127,
            }],
        ),
        (
            b"\xE5\x01\x40",
            &[MidiMessage::Bend {
                channel: 5,
                value: 8193,
            }],
        ),
        (b"\xF0\xF6\xF7\x90", &[]),
        (b"\xF0\xF7", &[MidiMessage::SysEx { length: 2 }]),
    ];
    for (stream, wanted) in rows {
        let found = messages(alloc, stream)?;
        assert_eq!(rt; found.as_slice(), wanted);
        let clocked = with_clocks(alloc, stream)?;
        let found = messages(alloc, clocked.as_slice())?;
        assert_eq!(rt; found.as_slice(), wanted);
    }
    Ok(())
}

#[test]
fn keeps_whole_messages(rt: HostRuntime) -> Result<(), Fail> {
    let alloc = rt.alloc();
    for length in [2usize, 5000, 5001, 6000] {
        let bytes = sysex(alloc, length)?;
        let mut reader = MidiReader::new(alloc)?;
        let mut last = None;
        for byte in bytes.as_slice() {
            assert!(rt; last.is_none());
            last = reader.feed(*byte);
        }
        let wanted = if length <= 5000 {
            MidiMessage::SysEx {
                length: length as u32,
            }
        } else {
            MidiMessage::SysExTooLong {
                length: length as u32,
            }
        };
        assert_eq!(rt; last, Some(wanted));
        if length <= 5000 {
            assert_eq!(rt; reader.sysex(), bytes.as_slice());
        }
        assert!(rt; reader.at_rest());
    }
    Ok(())
}

#[test]
fn rests_between_messages(rt: HostRuntime) -> Result<(), Fail> {
    let rows: [(&[u8], bool); 11] = [
        (b"", true),
        (b"\x3C", true),
        (b"\xF0", false),
        (b"\xF0\x43\xF7", true),
        (b"\x90", false),
        (b"\x90\x3C", false),
        (b"\x90\x3C\x64", true),
        (b"\x90\x3C\x64\x3C\xF8", false),
        (b"\xC0", false),
        (b"\xC0\x01", true),
        (b"\x90\xF6", true),
    ];
    for (stream, rests) in rows {
        let mut reader = MidiReader::new(rt.alloc())?;
        for byte in stream {
            let _ = reader.feed(*byte);
        }
        assert_eq!(rt; reader.at_rest(), rests);
    }
    Ok(())
}
