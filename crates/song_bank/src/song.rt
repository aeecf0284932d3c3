//! The header of a song.

ghost use Rattle.std.specs.Prelude.{◌≡◌, ◌+◌, ◌<◌, ◌≤◌, ◌++◌, length, OnOk, None};
ghost use Rattle.midi_file.specs.Chunks.{after_chunk, chunk_length, header_fault, track_count};
ghost use Rattle.song_bank.specs.Song.{header_with_track};

use byteorder::{BigEndian, ByteOrder};
use std::alloc::AllocError;

/// How many tracks a song counts.
#[tactic(auto, unfolding(midi_file::specs::Chunks::header_fault))]
pub fn track_count(song: &[u8]) -> u16
    requires { header_fault song.now ≡ None }
    ensures { result ≡ track_count song.now }
{
    BigEndian::read_u16(&song[10..])
}

/// The bytes of a song after its header.
#[tactic(auto, unfolding(midi_file::specs::Chunks::header_fault))]
pub fn after_header(song: &[u8]) -> &[u8]
    requires { header_fault song.now ≡ None }
    ensures { result.now ≡ after_chunk song.now }
{
    &song[header_size(song)..]
}

/// How many bytes the header has, with its name and its length.
#[tactic(auto, unfolding(midi_file::specs::Chunks::header_fault))]
fn header_size(song: &[u8]) -> usize
    requires { header_fault song.now ≡ None }
    ensures size { result ≡ 8 + chunk_length song.now }
    ensures within { result ≤ length song.now }
    ensures least { 14 ≤ result }
{
    8 + BigEndian::read_u32(&song[4..]) as usize
}

/// Adds the header of a song, with format 1 and one more track.
pub(crate) fn push_header(bytes: &mut Vec<u8>, song: &[u8]) -> Result<(), AllocError>
    requires header { header_fault song.now ≡ None }
    requires tracks { track_count song.now < 65535 }
    ensures { OnOk result (bytes.new.items ≡ bytes.old.items ++ header_with_track song.now) }
{
    let size = header_size(song);
    let tracks = track_count(song) + 1;
    bytes.extend_from_slice(&song[..8])?;
    bytes.extend_from_slice(&1u16.to_be_bytes())?;
    bytes.extend_from_slice(&tracks.to_be_bytes())?;
    bytes.extend_from_slice(&song[12..size])
}
