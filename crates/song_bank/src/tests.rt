//! Songs with a bank before them.

ghost use Rattle.std.specs.Prelude.{◌≡◌, ◌<◌, None, true};
ghost use Rattle.midi_file.specs.Chunks.{header_fault, track_count};
ghost use Rattle.script_read.specs.Plan.{is_midi_file};

use super::*;
use std::alloc::{AllocError, Global};
use std::test::Fail;

/// The song with the streams' messages before it.
fn embedded(alloc: Global, song: &[u8], streams: &[&[u8]]) -> Result<Vec<u8>, AllocError>
    requires name { is_midi_file song.now ≡ true }
    requires header { header_fault song.now ≡ None }
    requires tracks { track_count song.now < 65535 }
{
    let mut bank = Bank::new(alloc);
    for stream in streams {
        bank.add_stream(alloc, stream)?;
    }
    if bank.len() > 536_870_912 {
        return Ok(Vec::new(alloc));
    }
    let mut out = bank.first_chunks(alloc, song)?;
    out.extend_from_slice(after_header(song))?;
    Ok(out)
}

#[test]
#[tactic(auto, unfolding(midi_file::specs::Chunks::header_fault))]
fn songs_have_their_bank_first(rt: HostRuntime) -> Result<(), Fail> {
    let alloc = rt.alloc();
    let song: &[u8] =
        b"MThd\0\0\0\x08\0\0\0\x01\0\x60\xAA\xBBMTrk\0\0\0\x08\0\x90\x3C\x64\0\xFF\x2F\0rest";
    let parameter: &[u8] = b"\xF0\x43\x10\x01\x06\x10\xF7";
    let channels: &[u8] = b"\xF0\xF7\xC2\x05\x07\x91\x3C\x00\xF8\xE0\x01\x40";
    let out = embedded(alloc, song, &[parameter, channels])?;
    let wanted: &[u8] = b"MThd\0\0\0\x08\0\x01\0\x02\0\x60\xAA\xBBMTrk\0\0\0\x1F\
\0\xF0\x06\x43\x10\x01\x06\x10\xF7\
\0\xF0\x01\xF7\0\xC2\x05\0\xC2\x07\0\x81\x3C\x40\0\xE0\x01\x40\0\xFF\x2F\0\
MTrk\0\0\0\x08\0\x90\x3C\x64\0\xFF\x2F\0rest";
    assert_eq!(rt; out.as_slice(), wanted);
    // a message of 163 bytes: its length takes two
    let mut voice = Vec::from_slice(alloc, b"\xF0\x43\x00\x00\x01\x1B")?;
    voice.resize(162, 0u8)?;
    voice.push(0xF7)?;
    let out = embedded(alloc, song, &[&voice])?;
    let begin: &[u8] =
        b"MThd\0\0\0\x08\0\x01\0\x02\0\x60\xAA\xBBMTrk\0\0\0\xAA\0\xF0\x81\x22\x43\0";
    assert!(rt; out.starts_with(begin));
    Ok(())
}
