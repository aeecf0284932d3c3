//! Bytes that come while a program runs: the trait of an input, one in memory, and the standard input.
ghost use Rattle.std.specs.Prelude.{◌≡◌, ◌≤◌, ◌⊎◌, ℕ, List, [], Option, Some, length, take, drop, IfOk, OnErr, IsErr, option_map};
ghost use Rattle.outside.specs.Faults.{HasCause, one_more};
ghost use Rattle.outside.specs.Calls.{FailsNext, next_of};
ghost use Rattle.outside.specs.Input.{HasEnded, before_rest, kept_bytes, kept_calls, kept_faults, stdin_bytes, stdin_faults};

use crate::Failed;
use crate::copy::copy_from;
use crate::failures::Failures;
use std::alloc::{AllocError, Global};
use std::io::Read;

/// Bytes that come one after the other, and perhaps not yet.
pub trait Input {
    /// The bytes that are left, where the input tells them.
    ghost left: { Self → Option (List ℕ) };

    /// How often a read has failed. It doesn't fall.
    ghost faults: { Self → ℕ };

    /// Waits until bytes are there or the input has ended, places the first of them at the start of `into`, and answers how many: none only
    /// where the input has ended or there is no room for a byte. A read that fails takes no byte.
    fn read(&mut self, into: &mut [u8]) -> Result<usize, Failed>
        ensures count { IfOk result (λ count. count ≤ length into.old) }
        ensures rest { IfOk result (λ count. drop count into.new ≡ drop count into.old) }
        ensures bytes { IfOk result (λ count. left self.old ≡ option_map (before_rest (take count into.new)) (left self.new)) }
        ensures ended { IfOk result (λ count. count ≡ 0 → (length into.old ≡ 0) ⊎ HasEnded (left self.new)) }
        ensures failed { OnErr result (left self.new ≡ left self.old) }
        ensures cause { HasCause (faults self.old) (faults self.new) 0 0 ⊥ result };
}

/// An input in memory. It tells its bytes, gives at most so many of them in a read, counts its reads from 0 and fails those of a list.
#[derive(Drop)]
pub struct MemInput {
    bytes: Vec<u8>,
    at: u64,
    piece: usize,
    failures: Failures,
    faults: u64,
}

impl MemInput {
    /// An input of these bytes that gives at most `piece` of them in a read, but one at least, and whose reads of these numbers fail.
    pub fn new(
        alloc: Global,
        bytes: &[u8],
        piece: usize,
        fails: &[u64],
    ) -> Result<MemInput, AllocError>
        ensures left { IfOk result (λ input. kept_bytes input ≡ Some bytes.now) }
        ensures calls { IfOk result (λ input. kept_calls input ≡ record { made = 0; listed = fails.now }) }
        ensures faults { IfOk result (λ input. kept_faults input ≡ 0) }
    {
        Ok(MemInput {
            bytes: bytes.to_vec(alloc)?,
            at: 0,
            piece,
            failures: Failures::new(alloc, fails)?,
            faults: 0,
        })
    }
}

// Copies the next bytes to the start of the buffer, and counts them off.
fn give(bytes: &[u8], at: &mut u64, into: &mut [u8]) -> usize
    ensures count { result ≤ length into.old }
    ensures rest { drop result into.new ≡ drop result into.old }
    ensures bytes { drop at.old bytes.now ≡ before_rest (take result into.new) (drop at.new bytes.now) }
    ensures ended { result ≡ 0 → (length into.old ≡ 0) ⊎ (drop at.new bytes.now ≡ []) }
{
    let count = copy_from(bytes, *at, into);
    *at += count as u64;
    count
}

// How many bytes a read may give: no more than there is room for, and no more than a piece, but one at least where there is room.
fn room_for(room: usize, piece: usize) -> usize
    ensures within { result ≤ room }
    ensures some { result ≡ 0 → room ≡ 0 }
{
    room.min(piece.max(1))
}

impl Input for MemInput {
    ghost left = { kept_bytes };

    ghost faults = { kept_faults };

    fn read(&mut self, into: &mut [u8]) -> Result<usize, Failed>
        ensures count { IfOk result (λ count. count ≤ length into.old) }
        ensures rest { IfOk result (λ count. drop count into.new ≡ drop count into.old) }
        ensures bytes { IfOk result (λ count. kept_bytes self.old ≡ option_map (before_rest (take count into.new)) (kept_bytes self.new)) }
        ensures ended { IfOk result (λ count. count ≡ 0 → (length into.old ≡ 0) ⊎ HasEnded (kept_bytes self.new)) }
        ensures failed { OnErr result (kept_bytes self.new ≡ kept_bytes self.old) }
        ensures cause { HasCause (kept_faults self.old) (kept_faults self.new) 0 0 ⊥ result }

        // The read is counted. Where it is listed it fails, and else it doesn't; the count of faults rises by one exactly where it fails.
        ensures called { kept_calls self.new ≡ next_of (kept_calls self.old) }
        ensures listed { FailsNext (kept_calls self.old) → IsErr result }
        ensures unlisted { ¬ FailsNext (kept_calls self.old) → kept_faults self.new ≡ kept_faults self.old }
        ensures by_one { OnErr result (kept_faults self.new ≡ one_more (kept_faults self.old)) }
    {
        if self.failures.fails_now() {
            self.faults = self.faults.saturating_add(1);
            return Err(Failed);
        }
        let room = room_for(into.len(), self.piece);
        Ok(give(&self.bytes, &mut self.at, &mut into[..room]))
    }
}

/// The standard input, by its reader. It tells no content. A read waits until bytes are there, and gives at most 4096 of them.
#[derive(Drop)]
pub struct StdIn<R> {
    reader: R,
    faults: u64,
}

impl<R: Read + Drop> StdIn<R> {
    /// The bytes of this reader, with no fault counted yet.
    pub fn new(reader: R) -> StdIn<R>
        ensures { stdin_faults result ≡ 0 }
    {
        StdIn { reader, faults: 0 }
    }
}

impl<R: Read + Drop> Input for StdIn<R> {
    ghost left = { stdin_bytes };

    ghost faults = { stdin_faults };

    fn read(&mut self, into: &mut [u8]) -> Result<usize, Failed>
        ensures count { IfOk result (λ count. count ≤ length into.old) }
        ensures rest { IfOk result (λ count. drop count into.new ≡ drop count into.old) }
        ensures bytes { IfOk result (λ count. stdin_bytes self.old ≡ option_map (before_rest (take count into.new)) (stdin_bytes self.new)) }
        ensures ended { IfOk result (λ count. count ≡ 0 → (length into.old ≡ 0) ⊎ HasEnded (stdin_bytes self.new)) }
        ensures failed { OnErr result (stdin_bytes self.new ≡ stdin_bytes self.old) }
        ensures cause { HasCause (stdin_faults self.old) (stdin_faults self.new) 0 0 ⊥ result }

        // The count of faults rises by one exactly where the read fails.
        ensures by_one { OnErr result (stdin_faults self.new ≡ one_more (stdin_faults self.old)) }
    {
        let mut chunk = [0u8; 4096];
        let room = into.len().min(4096);
        match self.reader.read(&mut chunk[..room]) {
            Ok(count) => {
                into[..count].copy_from_slice(&chunk[..count]);
                Ok(count)
            }
            Err(_) => {
                self.faults = self.faults.saturating_add(1);
                Err(Failed)
            }
        }
    }
}
