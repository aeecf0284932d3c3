//! An output in memory.
ghost use Rattle.std.specs.Prelude.{◌≡◌, ◌≤◌, ◌<◌, ◌+◌, [], Some, length, take, IfOk, OnErr, IsErr, option_map};
ghost use Rattle.outside.specs.Files.{said};
ghost use Rattle.outside.specs.Faults.{HasCause, one_more};
ghost use Rattle.outside.specs.Calls.{FailsNext, next_of};
ghost use Rattle.outside.specs.Memory.{put_bytes, put_calls, put_faults};

use crate::failures::Failures;
use crate::{Failed, Out};
use std::alloc::{AllocError, Global};

/// An output in memory. It tells its bytes, counts its calls from 0 and fails those of a list.
#[derive(Drop)]
pub struct MemOut {
    bytes: Vec<u8>,
    failures: Failures,
    faults: u64,
}

impl MemOut {
    /// An output without bytes, whose calls of these numbers fail.
    pub fn new(alloc: Global, fails: &[u64]) -> Result<MemOut, AllocError>
        ensures written { IfOk result (λ out. put_bytes out ≡ Some []) }
        ensures calls { IfOk result (λ out. put_calls out ≡ record { made = 0; listed = fails.now }) }
        ensures faults { IfOk result (λ out. put_faults out ≡ 0) }
    {
        Ok(MemOut {
            bytes: Vec::new(alloc),
            failures: Failures::new(alloc, fails)?,
            faults: 0,
        })
    }

    /// All bytes that were put.
    pub fn bytes(&self) -> &[u8]
        ensures { put_bytes self.now ≡ Some result.now }
    {
        &self.bytes
    }
}

impl Out for MemOut {
    ghost written = { put_bytes };

    ghost faults = { put_faults };

    fn put(&mut self, bytes: &[u8]) -> Result<usize, Failed>
        ensures count { IfOk result (λ count. count ≤ length bytes.now) }
        ensures some { IfOk result (λ count. 0 < length bytes.now → 0 < count) }
        ensures added { IfOk result (λ count.
            put_bytes self.new ≡ option_map (said (take count bytes.now)) (put_bytes self.old)) }
        ensures failed { OnErr result (put_bytes self.new ≡ put_bytes self.old) }
        ensures cause { HasCause (put_faults self.old) (put_faults self.new) 0 0 ⊥ result }

        // The call is counted. Where it is listed it fails; the count of faults rises by one exactly where it fails. All the bytes are added.
        ensures called { put_calls self.new ≡ next_of (put_calls self.old) }
        ensures listed { FailsNext (put_calls self.old) → IsErr result }
        ensures by_one { OnErr result (put_faults self.new ≡ one_more (put_faults self.old)) }
        ensures whole { IfOk result (λ count. count ≡ length bytes.now) }
    {
        if self.failures.fails_now() {
            self.faults = self.faults.saturating_add(1);
            return Err(Failed);
        }
        match self.bytes.extend_from_slice(bytes) {
            Ok(()) => Ok(bytes.len()),
            Err(_) => {
                self.faults = self.faults.saturating_add(1);
                Err(Failed)
            }
        }
    }
}
