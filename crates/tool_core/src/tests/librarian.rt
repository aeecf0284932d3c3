//! Runs of the commands on files of voices.

ghost use Rattle.std.specs.Prelude.{◌≤◌};

use super::{split_words, words_of};
use crate::tool_main;
use cartridge::Cartridge;
use outside::{MemOut, MemShelf};
use std::alloc::{AllocError, Global};
use std::test::Fail;
use sysex_frame::write_voice;
use voice_record::Voice;

/// A letter and a number below 100.
fn numbered(alloc: Global, letter: &str, k: u8) -> Result<String, AllocError> {
    let mut name = String::from_str(alloc, letter)?;
    if k >= 10 {
        name.push((b'0' + k / 10) as char)?;
    }
    name.push((b'0' + k % 10) as char)?;
    Ok(name)
}

/// A voice with an algorithm and a name of its own.
fn named_voice(k: u8) -> Voice {
    let mut voice = Voice::init();
    let _ = voice.set(134, k);
    let _ = voice.set(145, b'A' + k % 32);
    voice
}

/// Its message.
pub fn voice_message(k: u8) -> [u8; 163] {
    write_voice(0, &named_voice(k))
}

/// The message of a cartridge with the voice 3 in two slots.
pub fn cartridge_message(
    alloc: Global,
    first: u8,
    second: u8,
    device: u8,
) -> Result<Vec<u8>, AllocError>
    requires first { first ≤ 31 }
    requires second { second ≤ 31 }
    requires device { device ≤ 15 }
{
    let mut cartridge = Cartridge::blank(alloc)?;
    cartridge.store(first, &named_voice(3));
    cartridge.store(second, &named_voice(3));
    cartridge.write(alloc, device)
}

#[test]
fn a_librarian_keeps_voices(rt: HostRuntime) -> Result<(), Fail> {
    let alloc = rt.alloc();
    let mut shelf = MemShelf::new(alloc, &[])?;
    let mut out = MemOut::new(alloc, &[])?;
    let mut pack = words_of(alloc, &["pack", "c"])?;
    for k in 0..32u8 {
        let name = numbered(alloc, "v", k)?;
        shelf.put_file(alloc, name.as_str(), &voice_message(k))?;
        pack.push(name)?;
    }
    assert_eq!(rt; tool_main(alloc, &pack, &mut shelf, &mut out), 0);
    let check = words_of(alloc, &["check", "c"])?;
    assert_eq!(rt; tool_main(alloc, &check, &mut shelf, &mut out), 0);
    assert_eq!(rt; out.bytes(), b"ok\ncartridge\nmessages 1\n".as_slice());
    let mut names = MemOut::new(alloc, &[])?;
    let list = words_of(alloc, &["list", "c"])?;
    assert_eq!(rt; tool_main(alloc, &list, &mut shelf, &mut names), 0);
    assert_eq!(rt; names.bytes().len(), 32 * 13 + 22);
    assert!(rt; names.bytes().starts_with(b"0 ANIT VOICE\n1 BNIT VOICE\n"));
    for k in 0..32u8 {
        let name = numbered(alloc, "p", k)?;
        let slot = numbered(alloc, "", k)?;
        let pick = words_of(alloc, &["pick", "c", slot.as_str(), name.as_str()])?;
        assert_eq!(rt; tool_main(alloc, &pick, &mut shelf, &mut out), 0);
        assert_eq!(rt;
            shelf.file(name.as_str()),
            Some(voice_message(k).as_slice())
        );
    }
    Ok(())
}

/// What stands in the file that is written.
#[derive(Clone, Copy)]
enum Written {
    Nothing,
    Empty,
    Voice,
    Packed,
}

/// A call that is not made.
const NONE: u64 = 99;

/// The shelf's call and the put that fail; the status, what is printed, and what stands in `w` after it. Of a voice there are two
/// reads, of a cartridge three; then come the create, the append, and what is held back is written out.
const ROWS: [(&str, u64, u64, u8, &[u8], Written); 23] = [
    (
        "check v",
        NONE,
        NONE,
        0,
        b"voice DNIT VOICE\nmessages 1\n",
        Written::Nothing,
    ),
    ("check v", 0, NONE, 2, b"cannot read v\n", Written::Nothing),
    ("check v", 1, NONE, 2, b"cannot read v\n", Written::Nothing),
    ("check v", NONE, 0, 3, b"", Written::Nothing),
    ("list c", 0, NONE, 2, b"cannot read c\n", Written::Nothing),
    ("list c", 2, NONE, 2, b"cannot read c\n", Written::Nothing),
    ("list c", NONE, 0, 3, b"", Written::Nothing),
    ("pick c 3 w", NONE, NONE, 0, b"ok\n", Written::Voice),
    (
        "pick c 3 w",
        0,
        NONE,
        2,
        b"cannot read c\n",
        Written::Nothing,
    ),
    (
        "pick c 3 w",
        2,
        NONE,
        2,
        b"cannot read c\n",
        Written::Nothing,
    ),
    (
        "pick c 3 w",
        3,
        NONE,
        3,
        b"cannot write w\n",
        Written::Nothing,
    ),
    (
        "pick c 3 w",
        4,
        NONE,
        3,
        b"cannot write w\n",
        Written::Empty,
    ),
    (
        "pick c 3 w",
        5,
        NONE,
        3,
        b"cannot write w\n",
        Written::Voice,
    ),
    ("pick c 3 w", NONE, 0, 3, b"", Written::Voice),
    ("pack w v v", NONE, NONE, 0, b"ok\n", Written::Packed),
    (
        "pack w v v",
        0,
        NONE,
        2,
        b"cannot read v\n",
        Written::Nothing,
    ),
    (
        "pack w v v",
        3,
        NONE,
        2,
        b"cannot read v\n",
        Written::Nothing,
    ),
    (
        "pack w v v",
        4,
        NONE,
        3,
        b"cannot write w\n",
        Written::Nothing,
    ),
    (
        "pack w v v",
        5,
        NONE,
        3,
        b"cannot write w\n",
        Written::Empty,
    ),
    (
        "pack w v v",
        6,
        NONE,
        3,
        b"cannot write w\n",
        Written::Packed,
    ),
    ("pack w v v", NONE, 0, 3, b"", Written::Packed),
    (
        "pack w x v",
        NONE,
        NONE,
        2,
        b"cannot read x\n",
        Written::Nothing,
    ),
    ("pack w c x", NONE, NONE, 4, b"no voice\n", Written::Nothing),
];

#[test]
fn librarian_meets(rt: HostRuntime) -> Result<(), Fail> {
    let alloc = rt.alloc();
    let voice = voice_message(3);
    let cartridge = cartridge_message(alloc, 3, 3, 5)?;
    let packed = cartridge_message(alloc, 0, 1, 0)?;
    for (words, fail, silent, status, printed, written) in ROWS {
        let words = split_words(alloc, words)?;
        let mut shelf = MemShelf::new(alloc, &[fail])?;
        shelf.put_file(alloc, "c", &cartridge)?;
        shelf.put_file(alloc, "v", &voice)?;
        let mut out = MemOut::new(alloc, &[silent])?;
        assert_eq!(rt; tool_main(alloc, &words, &mut shelf, &mut out), status);
        assert_eq!(rt; out.bytes(), printed);
        let whole: Option<&[u8]> = match written {
            Written::Nothing => None,
            Written::Empty => Some(b""),
            Written::Voice => Some(&voice),
            Written::Packed => Some(packed.as_slice()),
        };
        assert_eq!(rt; shelf.file("w"), whole);
        assert_eq!(rt; shelf.file("c"), Some(cartridge.as_slice()));
        assert_eq!(rt; shelf.file("v"), Some(voice.as_slice()));
    }
    Ok(())
}
