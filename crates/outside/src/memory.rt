//! A shelf in memory.
ghost use Rattle.std.specs.Prelude.{◌≡◌, ◌≢◌, ◌≤◌, ◌<◌, ◌+◌, ℕ, List, [], Some, length, take, drop, IfOk, OnOk, OnErr, IfSome, IsSomeAnd, IsErr, option_map};
ghost use Rattle.std.specs.FinMap.{empty, get, insert};
ghost use Rattle.outside.specs.Files.{Lacks, ReadsFrom, appended, created, file_of};
ghost use Rattle.outside.specs.Faults.{HasCause, HasFailed, more_by, one_more};
ghost use Rattle.outside.specs.Memory.{failed_names, reading_faults, read_bytes, read_calls, shelf_calls, shelf_files, shelf_held, writing_faults};
ghost use Rattle.outside.specs.Calls.{FailsNext, next_of};

use crate::copy::copy_from;
use crate::failed_names::FailedNames;
use crate::failures::Failures;
use crate::store::{Store, append_to, find, put};
use crate::{Failed, Shelf};
use std::alloc::{AllocError, Global};
use std::collections::BTreeMap;

/// Files in memory. It tells them, counts its calls from 0 and fails those of a list.
#[derive(Drop)]
pub struct MemShelf {
    alloc: Global,
    files: Store,
    failures: Failures,
    reading: u64,
    writing: u64,
    reads: u64,
    given: u64,
    failed: FailedNames,
}

impl MemShelf {
    /// A shelf without files, whose calls of these numbers fail.
    pub fn new(alloc: Global, fails: &[u64]) -> Result<MemShelf, AllocError>
        ensures files { IfOk result (λ shelf. shelf_files shelf ≡ Some empty) }
        ensures calls { IfOk result (λ shelf. shelf_calls shelf ≡ record { made = 0; listed = fails.now }) }
        ensures reading { IfOk result (λ shelf. reading_faults shelf ≡ 0) }
        ensures writing { IfOk result (λ shelf. writing_faults shelf ≡ 0) }
        ensures reads { IfOk result (λ shelf. read_calls shelf ≡ 0) }
        ensures given { IfOk result (λ shelf. read_bytes shelf ≡ 0) }
        ensures failed { IfOk result (λ shelf. failed_names shelf ≡ Some []) }
    {
        Ok(MemShelf {
            alloc,
            files: BTreeMap::new(alloc),
            failures: Failures::new(alloc, fails)?,
            reading: 0,
            writing: 0,
            reads: 0,
            given: 0,
            failed: FailedNames::new(alloc),
        })
    }

    /// Puts a whole file in the place of what the name was. It is no call that is counted.
    pub fn put_file(&mut self, alloc: Global, name: &str, bytes: &[u8]) -> Result<(), AllocError>
        ensures ok { OnOk result (shelf_files self.new ≡
            option_map (λ files. insert files name.now bytes.now) (shelf_files self.old)) }
        ensures err { OnErr result (shelf_files self.new ≡ shelf_files self.old) }
        ensures calls { shelf_calls self.new ≡ shelf_calls self.old }
        ensures reading { reading_faults self.new ≡ reading_faults self.old }
        ensures writing { writing_faults self.new ≡ writing_faults self.old }
        ensures reads { read_calls self.new ≡ read_calls self.old }
        ensures given { read_bytes self.new ≡ read_bytes self.old }
        ensures failed { failed_names self.new ≡ failed_names self.old }
    {
        put(&mut self.files, alloc, name, bytes.to_vec(alloc)?)
    }

    /// The bytes of the named file, and `None` exactly where there is no such file.
    pub fn file(&self, name: &str) -> Option<&[u8]>
        ensures { option_map (λ file. file.now) result ≡ file_of (shelf_files self.entry.now) name.now }
    {
        find(&self.files, name)
    }
}

impl Shelf for MemShelf {
    ghost files = { shelf_files };

    ghost reading = { reading_faults };

    ghost writing = { writing_faults };

    ghost reads = { read_calls };

    ghost given = { read_bytes };

    ghost failed = { failed_names };

    ghost held = { shelf_held };

    fn read_at(&mut self, name: &str, at: u64, into: &mut [u8]) -> Result<usize, Failed>
        ensures count { IfOk result (λ count. count ≤ length into.old) }
        ensures rest { IfOk result (λ count. drop count into.new ≡ drop count into.old) }
        ensures bytes { IfOk result (λ count. IfSome (shelf_files self.old) (λ told.
            IsSomeAnd (get told name.now) (λ file. ReadsFrom file at count into.new))) }
        ensures files { shelf_files self.new ≡ shelf_files self.old }
        ensures lacks { Lacks (shelf_files self.old) name.now → IsErr result }
        ensures cause { HasCause (reading_faults self.old) (reading_faults self.new) (writing_faults self.old) (writing_faults self.new)
            (Lacks (shelf_files self.old) name.now) result }
        ensures reads { read_calls self.new ≡ one_more (read_calls self.old) }
        ensures given { IfOk result (λ count. read_bytes self.new ≡ more_by (read_bytes self.old) count) }
        ensures gave_none { OnErr result (read_bytes self.new ≡ read_bytes self.old) }
        ensures failed_kept { failed_names self.new ≡ failed_names self.old }
        ensures held { (any : List ℕ) → shelf_held self.new any ≤ shelf_held self.old any }

        // The call is counted. Where it is listed it fails and its count rises by one; else it fails only for a lacking name.
        ensures called { shelf_calls self.new ≡ next_of (shelf_calls self.old) }
        ensures listed { FailsNext (shelf_calls self.old) → IsErr result × (reading_faults self.new ≡ one_more (reading_faults self.old)) }
        ensures unlisted { ¬ FailsNext (shelf_calls self.old) → reading_faults self.new ≡ reading_faults self.old }
        ensures only_lacking { ¬ FailsNext (shelf_calls self.old) → OnErr result (Lacks (shelf_files self.old) name.now) }
    {
        self.reads = self.reads.saturating_add(1);
        if self.failures.fails_now() {
            self.reading = self.reading.saturating_add(1);
            return Err(Failed);
        }
        match find(&self.files, name) {
            Some(bytes) => {
                let count = copy_from(bytes, at, into);
                self.given = self.given.saturating_add(count as u64);
                Ok(count)
            }
            None => Err(Failed),
        }
    }

    fn create(&mut self, name: &str) -> Result<(), Failed>
        ensures made { OnOk result (shelf_files self.new ≡ option_map (created name.now) (shelf_files self.old)) }
        ensures failed { OnErr result (shelf_files self.new ≡ shelf_files self.old) }
        ensures cause { HasCause (writing_faults self.old) (writing_faults self.new) (reading_faults self.old) (reading_faults self.new) ⊥ result }
        ensures reads { read_calls self.new ≡ read_calls self.old }
        ensures given { read_bytes self.new ≡ read_bytes self.old }
        ensures failed_kept { OnOk result (failed_names self.new ≡ failed_names self.old) }
        ensures failed_name { OnErr result (HasFailed name.now (failed_names self.old) (failed_names self.new)) }
        ensures forgotten { OnOk result (shelf_held self.new name.now ≡ 0) }
        ensures held { (other : List ℕ) → other ≢ name.now → shelf_held self.new other ≤ shelf_held self.old other }

        // The call is counted. Where it is listed it fails; its count rises by one exactly where it fails.
        ensures called { shelf_calls self.new ≡ next_of (shelf_calls self.old) }
        ensures listed { FailsNext (shelf_calls self.old) → IsErr result }
        ensures by_one { OnErr result (writing_faults self.new ≡ one_more (writing_faults self.old)) }
    {
        if self.failures.fails_now() {
            self.writing = self.writing.saturating_add(1);
            self.failed.add(name);
            return Err(Failed);
        }
        match put(&mut self.files, self.alloc, name, Vec::new(self.alloc)) {
            Ok(()) => Ok(()),
            Err(_) => {
                self.writing = self.writing.saturating_add(1);
                self.failed.add(name);
                Err(Failed)
            }
        }
    }

    fn append(&mut self, name: &str, bytes: &[u8]) -> Result<usize, Failed>
        ensures count { IfOk result (λ count. count ≤ length bytes.now) }
        ensures some { IfOk result (λ count. 0 < length bytes.now → 0 < count) }
        ensures added { IfOk result (λ count.
            shelf_files self.new ≡ option_map (appended name.now (take count bytes.now)) (shelf_files self.old)) }
        ensures failed { OnErr result (shelf_files self.new ≡ shelf_files self.old) }
        ensures lacks { Lacks (shelf_files self.old) name.now → IsErr result }
        ensures cause { HasCause (writing_faults self.old) (writing_faults self.new) (reading_faults self.old) (reading_faults self.new)
            (Lacks (shelf_files self.old) name.now) result }
        ensures reads { read_calls self.new ≡ read_calls self.old }
        ensures given { read_bytes self.new ≡ read_bytes self.old }
        ensures failed_kept { OnOk result (failed_names self.new ≡ failed_names self.old) }
        ensures failed_name { OnErr result (HasFailed name.now (failed_names self.old) (failed_names self.new)) }
        ensures written_out { OnOk result (bytes.now ≡ [] → shelf_held self.new name.now ≡ 0) }
        ensures held { (other : List ℕ) → other ≢ name.now → shelf_held self.new other ≤ shelf_held self.old other }

        // The call is counted. Where it is listed it fails and its count rises by one; else the count stays at a lacking name,
        // and rises by one where the call fails at a file that is there. All the bytes are added.
        ensures called { shelf_calls self.new ≡ next_of (shelf_calls self.old) }
        ensures listed { FailsNext (shelf_calls self.old) → IsErr result × (writing_faults self.new ≡ one_more (writing_faults self.old)) }
        ensures unlisted { ¬ FailsNext (shelf_calls self.old)
            → Lacks (shelf_files self.old) name.now → writing_faults self.new ≡ writing_faults self.old }
        ensures by_one { ¬ Lacks (shelf_files self.old) name.now → OnErr result (writing_faults self.new ≡ one_more (writing_faults self.old)) }
        ensures whole { IfOk result (λ count. count ≡ length bytes.now) }
    {
        if self.failures.fails_now() {
            self.writing = self.writing.saturating_add(1);
            self.failed.add(name);
            return Err(Failed);
        }
        match append_to(&mut self.files, self.alloc, name, bytes) {
            Ok(true) => Ok(bytes.len()),
            Ok(false) => {
                self.failed.add(name);
                Err(Failed)
            }
            Err(_) => {
                self.writing = self.writing.saturating_add(1);
                self.failed.add(name);
                Err(Failed)
            }
        }
    }
}
