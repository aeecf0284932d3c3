//! A file that is compared with the sound of a journal, chunk by chunk.

ghost use Rattle.std.specs.Prelude.{ℕ, List, ◌≡◌, ◌+◌, ◌-◌, ◌*◌, ◌<◌, ◌≤◌, ◌++◌, Option, IfErr, IfNone, IfOk, IfSome};
ghost use Rattle.std.specs.Prelude.{IsErr, OnOk, drop, length, take};
ghost use Rattle.take_files.specs.Files.{wav, wav_blocks};
ghost use Rattle.instrument.specs.Limits.{block_limit};
ghost use Rattle.outside.specs.Faults.{HasCause};
ghost use Rattle.outside.specs.Files.{file_of, Lacks};
ghost use Rattle.outside.specs.Faults.{more_by};
ghost use Rattle.tool_core.specs.Comparisons.{GoesOn, IsCompared, IsPrefix, IsStep, IsWhole, IsWithin};
ghost use Rattle.tool_core.specs.Reads.{GaveAll, HasGiven};
ghost use Rattle.tool_core.specs.Orders.{sound_limit};
ghost use Rattle.tool_core.specs.Endings.{IsReadFailure};

use crate::failure::Failure;
use arrayvec::ArrayVec;
use outside::{Failed, Shelf};
use take_files::{Chunk, Playback, wav_header};

/// A chunk of the sound: the bytes of up to 512 blocks.
type SoundChunk = ArrayVec<u8, 65536>;

/// The most bytes of a sound file.
const SOUND_LIMIT: u32 = 140_000_000;

/// The first offset at which a file differs from the sound of a journal that is to be played. The file is read to its end first,
/// whatever is found before, and each of its bytes once.
pub(crate) fn compare_file<S: Shelf>(
    shelf: &mut S,
    name: &str,
    playback: Playback<'_>,
    blocks: u32,
) -> Result<Option<u32>, Failure>
    requires few { blocks ≤ block_limit }
    requires at { playback.block ≡ 0 }
    ensures compared { IfOk result (λ offset. (file : List ℕ) → file_of (S.files shelf.old) name.now ≡ Some file
        → IsCompared file (wav playback.entry.journal blocks) offset) }
    ensures within { OnOk result ((file : List ℕ) → file_of (S.files shelf.old) name.now ≡ Some file → length file ≤ sound_limit) }
    ensures lacks { Lacks (S.files shelf.old) name.now → IsErr result }
    ensures kept { OnOk result (S.reading shelf.new ≡ S.reading shelf.old) }
    ensures refused { IfErr result (λ why. IsReadFailure why sound_limit (S.files shelf.old) name.now (S.reading shelf.old) (S.reading shelf.new)) }
    ensures given { OnOk result (GaveAll (S.files shelf.old) name.now (S.given shelf.old) (S.given shelf.new)) }
    ensures files { S.files shelf.new ≡ S.files shelf.old }
    ensures writing { S.writing shelf.new ≡ S.writing shelf.old }
{
    let size = 44 + 128 * blocks;
    let mut at = 0;
    let offset = match compare_sound(shelf, name, playback, blocks, &mut at) {
        Ok(offset) => offset,
        Err(_) => return Err(Failure::Unread),
    };
    match measure(shelf, name, at) {
        Ok(count) => Ok(offset_of(offset, size, count)),
        Err(why) => Err(why),
    }
}

/// The first offset at which a file of this length differs from a sound of this size, where the first that was found within the sound is known.
fn offset_of(offset: Option<u32>, size: u32, count: u32) -> Option<u32>
    ensures { (file whole : List ℕ) → size ≡ length whole → count ≡ length file → IsPrefix file whole offset → IsCompared file whole result }
{
    match offset {
        Some(offset) => Some(offset),
        None if count > size => Some(size),
        None => None,
    }
}

/// The first offset at which a file differs from the sound of a journal that is to be played, or none where it begins with it; `at` becomes
/// the offset up to which it was read.
fn compare_sound<S: Shelf>(
    shelf: &mut S,
    name: &str,
    mut playback: Playback<'_>,
    blocks: u32,
    at: &mut u32,
) -> Result<Option<u32>, Failed>
    requires few { blocks ≤ block_limit }
    requires block { playback.block ≡ 0 }
    requires begin { at.old ≡ 0 }
    ensures compared { IfOk result (λ offset. (file : List ℕ) → file_of (S.files shelf.old) name.now ≡ Some file
        → IsPrefix file (wav playback.entry.journal blocks) offset) }
    ensures within { IfOk result (λ offset. IfSome offset (λ p. p < 44 + 128 * blocks)) }
    ensures given { OnOk result (HasGiven (S.given shelf.old) at.new (S.given shelf.new)) }
    ensures read { OnOk result ((file : List ℕ) → file_of (S.files shelf.old) name.now ≡ Some file → at.new ≤ length file) }
    ensures near { OnOk result (at.new ≤ 44 + 128 * blocks) }
    ensures cause { HasCause (S.reading shelf.old) (S.reading shelf.new) (S.writing shelf.old) (S.writing shelf.new)
        (Lacks (S.files shelf.old) name.now) result }
    ensures files { S.files shelf.new ≡ S.files shelf.old }
{
    match compare_sound_chunk(shelf, name, at, &wav_header(blocks)) {
        Ok(None) => {}
        Ok(Some(offset)) => return Ok(Some(offset)),
        Err(failed) => return Err(failed),
    }
    let mut chunk = SoundChunk::new();
    let mut from = 0;
    'chunks: while from < blocks {
        let count = (blocks - from).min(512);
        render_sound_chunk(&mut playback, count, &mut chunk);
        let begin = *at;
        match compare_sound_chunk(shelf, name, at, chunk.as_slice()) {
            Ok(None) => {}
            Ok(Some(offset)) => return Ok(Some(begin + offset)),
            Err(failed) => return Err(failed),
        }
        from += count;
    }
    Ok(None)
}

/// The bytes of the next blocks, up to 512, in the place of the chunk.
fn render_sound_chunk(playback: &mut Playback<'_>, count: u32, into: &mut SoundChunk)
    requires few { count ≤ 512 }
    requires blocks { playback.old.block + count ≤ block_limit }
    ensures bytes { wav_blocks playback.old.journal (playback.old.block + count)
        ≡ wav_blocks playback.old.journal playback.old.block ++ into.new.items }
    ensures journal { playback.new.journal ≡ playback.old.journal }
    ensures block { playback.new.block ≡ playback.old.block + count }
    ensures size { length into.new.items ≡ 128 * count }
{
    into.clear();
    let mut chunk = Chunk::new();
    let mut done = 0;
    'chunks: while done < count {
        let some = (count - done).min(64);
        playback.render_chunk(some, &mut chunk);
        add_chunk(into, chunk.as_slice());
        done += some;
    }
}

/// Adds a chunk of the playback to a chunk that has room for it.
fn add_chunk(into: &mut SoundChunk, chunk: &[u8])
    requires { length into.old.items + length chunk.now ≤ 65536 }
    ensures { into.new.items ≡ into.old.items ++ chunk.now }
{
    let _ = into.try_extend_from_slice(chunk);
}

/// The first offset, counted from `at` on, at which a file differs from a chunk that should stand there, or none where the chunk does. `at`
/// goes on to where it was read.
fn compare_sound_chunk<S: Shelf>(
    shelf: &mut S,
    name: &str,
    at: &mut u32,
    chunk: &[u8],
) -> Result<Option<u32>, Failed>
    requires low { at.old ≤ 140000000 }
    requires short { length chunk.now ≤ 65536 }
    ensures compared { IfOk result (λ offset. (file : List ℕ) → file_of (S.files shelf.old) name.now ≡ Some file
        → IsPrefix (drop at.old file) chunk.now offset) }
    ensures within { IfOk result (λ offset. IfSome offset (λ p. p < length chunk.now)) }
    ensures given { OnOk result ((before : ℕ) → HasGiven before at.old (S.given shelf.old) → HasGiven before at.new (S.given shelf.new)) }
    ensures read { OnOk result ((file : List ℕ) → file_of (S.files shelf.old) name.now ≡ Some file → at.old ≤ length file → at.new ≤ length file) }
    ensures near { OnOk result (at.new ≤ at.old + length chunk.now) }
    ensures whole { IfOk result (λ offset. IfNone offset (at.new ≡ at.old + length chunk.now)) }
    ensures cause { HasCause (S.reading shelf.old) (S.reading shelf.new) (S.writing shelf.old) (S.writing shelf.new)
        (Lacks (S.files shelf.old) name.now) result }
    ensures files { S.files shelf.new ≡ S.files shelf.old }
{
    let mut done = 0usize;
    'comparing: while done < chunk.len() {
        let wanted = &chunk[done..];
        let mut buffer = [0u8; 65536];
        match compare_some(shelf, name, at, wanted, &mut buffer[..wanted.len()]) {
            Ok(Comparison::Same(count)) => done += count,
            Ok(Comparison::Differs(offset)) => return Ok(Some((done + offset) as u32)),
            Err(failed) => return Err(failed),
        }
    }
    Ok(None)
}

/// Bytes that were compared: so many are the same, or the first that differs is here.
#[derive(Clone, Copy, Debug, PartialEq, Eq)]
pub(crate) enum Comparison {
    Same(usize),
    Differs(usize),
}

/// Compares the bytes that one read of a file gives at an offset, which goes on by as many, with those that should stand there.
fn compare_some<S: Shelf>(
    shelf: &mut S,
    name: &str,
    at: &mut u32,
    wanted: &[u8],
    buffer: &mut [u8],
) -> Result<Comparison, Failed>
    requires some { 0 < length wanted.now }
    requires room { length buffer.old ≡ length wanted.now }
    requires short { length wanted.now ≤ 65536 }
    requires low { at.old ≤ 140065536 }
    ensures step { IfOk result (λ step. (file : List ℕ) → file_of (S.files shelf.old) name.now ≡ Some file
        → IsStep step (drop at.old file) wanted.now) }
    ensures within { IfOk result (λ step. IsWithin step (length wanted.now)) }
    ensures given { OnOk result ((before : ℕ) → HasGiven before at.old (S.given shelf.old) → HasGiven before at.new (S.given shelf.new)) }
    ensures read { OnOk result ((file : List ℕ) → file_of (S.files shelf.old) name.now ≡ Some file → at.old ≤ length file → at.new ≤ length file) }
    ensures near { OnOk result (at.new ≤ at.old + length wanted.now) }
    ensures on { IfOk result (λ step. GoesOn step at.old at.new) }
    ensures cause { HasCause (S.reading shelf.old) (S.reading shelf.new) (S.writing shelf.old) (S.writing shelf.new)
        (Lacks (S.files shelf.old) name.now) result }
    ensures files { S.files shelf.new ≡ S.files shelf.old }
{
    match shelf.read_at(name, u64::from(*at), buffer) {
        Ok(count) => {
            *at += count as u32;
            Ok(compare_chunk(&buffer[..count], wanted))
        }
        Err(failed) => Err(failed),
    }
}

/// Compares the next bytes of a file, none where it has ended, with those that should stand there.
fn compare_chunk(chunk: &[u8], wanted: &[u8]) -> Comparison
    requires some { 0 < length wanted.now }
    requires fits { length chunk.now ≤ length wanted.now }
    ensures step { (rest : List ℕ) → take (length chunk.now) rest ≡ chunk.now → (length chunk.now ≡ 0 → length rest ≡ 0)
        → IsStep result rest wanted.now }
    ensures within { IsWithin result (length wanted.now) }
    ensures whole { IsWhole result (length chunk.now) }
{
    let size = chunk.len();
    for i in 0..size {
        if chunk[i] != wanted[i] {
            return Comparison::Differs(i);
        }
    }
    if size == 0 {
        Comparison::Differs(0)
    } else {
        Comparison::Same(size)
    }
}

/// The length of a file of at most 140,000,000 bytes that is read from an offset on, at which it has not ended.
fn measure<S: Shelf>(shelf: &mut S, name: &str, from: u32) -> Result<u32, Failure>
    requires { from ≤ 140000000 }
    ensures length { IfOk result (λ size. (file : List ℕ) → file_of (S.files shelf.old) name.now ≡ Some file → from ≤ length file
        → size ≡ length file) }
    ensures within { IfOk result (λ size. size ≤ sound_limit) }
    ensures lacks { Lacks (S.files shelf.old) name.now → IsErr result }
    ensures kept { OnOk result (S.reading shelf.new ≡ S.reading shelf.old) }
    ensures refused { IfErr result (λ why. IsReadFailure why sound_limit (S.files shelf.old) name.now (S.reading shelf.old) (S.reading shelf.new)) }
    ensures given { IfOk result (λ size. (before : ℕ) → HasGiven before from (S.given shelf.old) → S.given shelf.new ≡ more_by before size) }
    ensures files { S.files shelf.new ≡ S.files shelf.old }
    ensures writing { S.writing shelf.new ≡ S.writing shelf.old }
{
    let mut at = from;
    'measuring: loop {
        let count = match count_some(shelf, name, at) {
            Ok(count) => count,
            Err(_) => return Err(Failure::Unread),
        };
        if count == 0 {
            return Ok(at);
        }
        if count > SOUND_LIMIT - at {
            return Err(Failure::TooLarge);
        }
        at += count;
    }
}

/// How many bytes one read of a file gives at an offset, none where it has ended.
fn count_some<S: Shelf>(shelf: &mut S, name: &str, at: u32) -> Result<u32, Failed>
    ensures more { IfOk result (λ count. (file : List ℕ) → file_of (S.files shelf.old) name.now ≡ Some file → count ≤ length file - at) }
    ensures ended { IfOk result (λ count. (file : List ℕ) → file_of (S.files shelf.old) name.now ≡ Some file → count ≡ 0 → length file ≤ at) }
    ensures lacks { Lacks (S.files shelf.old) name.now → IsErr result }
    ensures cause { HasCause (S.reading shelf.old) (S.reading shelf.new) (S.writing shelf.old) (S.writing shelf.new)
        (Lacks (S.files shelf.old) name.now) result }
    ensures given { IfOk result (λ count. S.given shelf.new ≡ more_by (S.given shelf.old) count) }
    ensures files { S.files shelf.new ≡ S.files shelf.old }
{
    let mut chunk = [0u8; 65536];
    match shelf.read_at(name, u64::from(at), &mut chunk) {
        Ok(count) => Ok(count as u32),
        Err(failed) => Err(failed),
    }
}
