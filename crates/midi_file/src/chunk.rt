//! The chunks of a MIDI file.

ghost use Rattle.std.specs.Prelude.{ℕ, List, ◌≡◌, ◌+◌, ◌<◌, ◌≤◌, ◌++◌, length, Some, None, IfErr, IfOk, OnOk};
ghost use Rattle.velocity_map.specs.declared.curve.Curve.TheVariants.{Linear};
ghost use Rattle.velocity_map.specs.Map.{curve_of};
ghost use Rattle.midi_file.specs.Chunks.{after_chunk, chunk_bytes, chunk_cut, chunk_length, division_of, header_fault, is_track};
ghost use Rattle.midi_file.specs.Chunks.{track_count, tracks_outcomes};
ghost use Rattle.midi_file.specs.FileSoFar.{Faults, all_come};

use crate::bytes::refused_at;
use crate::timed::Timed;
use crate::track::read_track;
use byteorder::{BigEndian, ByteOrder};
use script_outcome::{ScriptFault, ScriptKind};
use std::alloc::Global;
use velocity_map::VelocityMap;

/// The bytes of a chunk's name and its length.
const HEAD: usize = 8;

/// The least length of a header.
const HEADER: usize = 6;

/// What the header says: how many tracks there are, and how many ticks a quarter note has; and the bytes after it.
#[derive(Clone, Copy, Debug, Drop)]
pub(crate) struct Header<'a> {
    pub(crate) tracks: u16,
    pub(crate) division: u16,
    pub(crate) rest: &'a [u8],
}

/// A chunk: whether it is a track, its bytes, and those after it.
#[derive(Clone, Copy, Debug, Drop)]
struct Chunk<'a> {
    is_track: bool,
    bytes: &'a [u8],
    rest: &'a [u8],
}

/// Reads the header of a file. An error names the byte where it is wrong.
#[tactic(auto, unfolding(crate::specs::Chunks::header_fault))]
pub(crate) fn read_header(bytes: &[u8]) -> Result<Header<'_>, (u32, ScriptKind)>
    ensures good { IfOk result (λ h. header_fault bytes.now ≡ None) }
    ensures bad { IfErr result (λ fault. header_fault bytes.now ≡ Some fault) }
    ensures tracks { IfOk result (λ h. h.tracks ≡ track_count bytes.now) }
    ensures division { IfOk result (λ h. h.division ≡ division_of bytes.now) }
    ensures some { IfOk result (λ h. 0 < h.division) }
    ensures rest { IfOk result (λ h. h.rest.now ≡ after_chunk bytes.now) }
    ensures shorter { IfOk result (λ h. length h.rest.now < length bytes.now) }
{
    if bytes.len() < HEAD {
        return Err((4, ScriptKind::Cut));
    }
    let length = chunk_length(bytes);
    if length < HEADER {
        return Err((4, ScriptKind::Header));
    }
    if bytes.len() < HEAD + length {
        return Err((4, ScriptKind::Cut));
    }
    if BigEndian::read_u16(&bytes[8..]) > 1 {
        return Err((8, ScriptKind::Format));
    }
    let division = BigEndian::read_u16(&bytes[12..]);
    if division == 0 || division >= 0x8000 {
        return Err((12, ScriptKind::Division));
    }
    Ok(Header {
        tracks: BigEndian::read_u16(&bytes[10..]),
        division,
        rest: &bytes[HEAD + length..],
    })
}

/// The length that a chunk says.
fn chunk_length(bytes: &[u8]) -> usize
    requires { 8 ≤ length bytes.now }
    ensures value { result ≡ chunk_length bytes.now }
    ensures small { result < 4294967296 }
{
    BigEndian::read_u32(&bytes[4..]) as usize
}

/// Reads so many tracks from the last bytes of a file of this size, and adds what happens in them. Other chunks are passed over.
pub(crate) fn read_tracks(
    alloc: Global,
    bytes: &[u8],
    size: u32,
    tracks: u16,
    map: &VelocityMap,
    acts: &mut Vec<Timed>,
) -> Result<(), ScriptFault>
    requires within { length bytes.now < size }
    requires short { size ≤ 536870912 }
    requires linear { curve_of map.now ≡ Linear }
    ensures come { OnOk result (all_come acts.new.items ≡ all_come acts.old.items ++ tracks_outcomes size size tracks bytes.now) }
    ensures faults { IfErr result (λ why. Faults why (all_come acts.old.items ++ tracks_outcomes size size tracks bytes.now)) }
{
    let mut wanted = tracks;
    let mut rest = bytes;
    while wanted > 0 {
        let chunk = match read_chunk(size, rest) {
            Ok(chunk) => chunk,
            Err(place) => return Err(refused_at(place, ScriptKind::Cut)),
        };
        if chunk.is_track {
            let end = size - chunk.rest.len() as u32;
            match read_track(alloc, chunk.bytes, end, map, acts) {
                Ok(()) => wanted -= 1,
                Err(fault) => return Err(fault),
            }
        }
        rest = chunk.rest;
    }
    Ok(())
}

/// Reads the next chunk of the last bytes of a file of this size. An error names the byte at which the file's end cuts it off.
#[tactic(auto, unfolding(crate::specs::Chunks::chunk_cut))]
fn read_chunk(size: u32, bytes: &[u8]) -> Result<Chunk<'_>, u32>
    requires within { length bytes.now < size }
    requires short { size ≤ 536870912 }
    ensures whole { IfOk result (λ c. chunk_cut size bytes.now ≡ None) }
    ensures cut { IfErr result (λ place. chunk_cut size bytes.now ≡ Some place) }
    ensures track { IfOk result (λ c. c.is_track ≡ is_track bytes.now) }
    ensures bytes { IfOk result (λ c. c.bytes.now ≡ chunk_bytes bytes.now) }
    ensures rest { IfOk result (λ c. c.rest.now ≡ after_chunk bytes.now) }
    ensures parts { IfOk result (λ c. length c.bytes.now + length c.rest.now + 8 ≡ length bytes.now) }
{
    let place = size - bytes.len() as u32;
    if bytes.len() < 4 {
        return Err(place);
    }
    if bytes.len() < HEAD {
        return Err(place + 4);
    }
    let length = chunk_length(bytes);
    if bytes.len() < HEAD + length {
        return Err(place + 4);
    }
    Ok(Chunk {
        is_track: bytes.starts_with(b"MTrk"),
        bytes: &bytes[HEAD..HEAD + length],
        rest: &bytes[HEAD + length..],
    })
}
