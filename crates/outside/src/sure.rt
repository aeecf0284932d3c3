//! A shelf that never fails.
ghost use Rattle.std.specs.Prelude.{◌≡◌, ◌≢◌, ◌≤◌, ◌<◌, ◌+◌, ℕ, List, [], None, length, take, drop, IfOk, OnOk, OnErr, IfSome, IsSomeAnd, IsOk, IsErr, option_map};
ghost use Rattle.std.specs.FinMap.{empty, get, insert};
ghost use Rattle.outside.specs.Files.{Lacks, ReadsFrom, appended, content, created};
ghost use Rattle.outside.specs.Faults.{HasCause, HasFailed, more_by, one_more};
ghost use Rattle.outside.specs.Sure.{served, sure_failed, sure_faults, sure_files, sure_given, sure_held, sure_reads};

use crate::copy::copy_from;
use crate::store::{Store, find, put};
use crate::{Failed, Shelf};
use std::alloc::{AllocError, Global};
use std::collections::BTreeMap;

/// Serves reads from memory, an unknown name as empty, and swallows what is written. It tells no files and never fails.
#[derive(Drop)]
pub struct SureShelf {
    files: Store,
    reads: u64,
    given: u64,
}

impl SureShelf {
    /// A shelf that serves each name as empty. It allocates nothing.
    pub fn new(alloc: Global) -> SureShelf
        ensures served { served result ≡ empty }
        ensures untold { sure_files result ≡ None }
        ensures reading { sure_faults result ≡ 0 }
        ensures writing { sure_faults result ≡ 0 }
        ensures reads { sure_reads result ≡ 0 }
        ensures given { sure_given result ≡ 0 }
    {
        SureShelf {
            files: BTreeMap::new(alloc),
            reads: 0,
            given: 0,
        }
    }

    /// Serves these bytes under this name from now on.
    pub fn put_file(&mut self, alloc: Global, name: &str, bytes: &[u8]) -> Result<(), AllocError>
        ensures ok { OnOk result (served self.new ≡ insert (served self.old) name.now bytes.now) }
        ensures err { OnErr result (served self.new ≡ served self.old) }
        ensures reads { sure_reads self.new ≡ sure_reads self.old }
        ensures given { sure_given self.new ≡ sure_given self.old }
    {
        put(&mut self.files, alloc, name, bytes.to_vec(alloc)?)
    }
}

impl Shelf for SureShelf {
    ghost files = { sure_files };

    ghost reading = { sure_faults };

    ghost writing = { sure_faults };

    ghost reads = { sure_reads };

    ghost given = { sure_given };

    ghost failed = { sure_failed };

    ghost held = { sure_held };

    fn read_at(&mut self, name: &str, at: u64, into: &mut [u8]) -> Result<usize, Failed>
        ensures count { IfOk result (λ count. count ≤ length into.old) }
        ensures rest { IfOk result (λ count. drop count into.new ≡ drop count into.old) }
        ensures bytes { IfOk result (λ count. IfSome (sure_files self.old) (λ told.
            IsSomeAnd (get told name.now) (λ file. ReadsFrom file at count into.new))) }
        ensures files { sure_files self.new ≡ sure_files self.old }
        ensures lacks { Lacks (sure_files self.old) name.now → IsErr result }
        ensures cause { HasCause (sure_faults self.old) (sure_faults self.new) (sure_faults self.old) (sure_faults self.new)
            (Lacks (sure_files self.old) name.now) result }
        ensures reads { sure_reads self.new ≡ one_more (sure_reads self.old) }
        ensures given { IfOk result (λ count. sure_given self.new ≡ more_by (sure_given self.old) count) }
        ensures gave_none { OnErr result (sure_given self.new ≡ sure_given self.old) }
        ensures failed_kept { sure_failed self.new ≡ sure_failed self.old }
        ensures held { (any : List ℕ) → sure_held self.new any ≤ sure_held self.old any }

        // It never fails, and reads what it serves, an unknown name as empty.
        ensures sure { IsOk result }
        ensures serves { IfOk result (λ count. ReadsFrom (content (served self.old) name.now) at count into.new) }
        ensures same { served self.new ≡ served self.old }
    {
        self.reads = self.reads.saturating_add(1);
        let count = match find(&self.files, name) {
            Some(bytes) => copy_from(bytes, at, into),
            None => copy_from(b"", at, into),
        };
        self.given = self.given.saturating_add(count as u64);
        Ok(count)
    }

    fn create(&mut self, _name: &str) -> Result<(), Failed>
        ensures made { OnOk result (sure_files self.new ≡ option_map (created _name.now) (sure_files self.old)) }
        ensures failed { OnErr result (sure_files self.new ≡ sure_files self.old) }
        ensures cause { HasCause (sure_faults self.old) (sure_faults self.new) (sure_faults self.old) (sure_faults self.new) ⊥ result }
        ensures reads { sure_reads self.new ≡ sure_reads self.old }
        ensures given { sure_given self.new ≡ sure_given self.old }
        ensures failed_kept { OnOk result (sure_failed self.new ≡ sure_failed self.old) }
        ensures failed_name { OnErr result (HasFailed _name.now (sure_failed self.old) (sure_failed self.new)) }
        ensures forgotten { OnOk result (sure_held self.new _name.now ≡ 0) }
        ensures held { (other : List ℕ) → other ≢ _name.now → sure_held self.new other ≤ sure_held self.old other }

        // It never fails, and serves as before.
        ensures sure { IsOk result }
        ensures same { served self.new ≡ served self.old }
    {
        Ok(())
    }

    fn append(&mut self, _name: &str, bytes: &[u8]) -> Result<usize, Failed>
        ensures count { IfOk result (λ count. count ≤ length bytes.now) }
        ensures some { IfOk result (λ count. 0 < length bytes.now → 0 < count) }
        ensures added { IfOk result (λ count.
            sure_files self.new ≡ option_map (appended _name.now (take count bytes.now)) (sure_files self.old)) }
        ensures failed { OnErr result (sure_files self.new ≡ sure_files self.old) }
        ensures lacks { Lacks (sure_files self.old) _name.now → IsErr result }
        ensures cause { HasCause (sure_faults self.old) (sure_faults self.new) (sure_faults self.old) (sure_faults self.new)
            (Lacks (sure_files self.old) _name.now) result }
        ensures reads { sure_reads self.new ≡ sure_reads self.old }
        ensures given { sure_given self.new ≡ sure_given self.old }
        ensures failed_kept { OnOk result (sure_failed self.new ≡ sure_failed self.old) }
        ensures failed_name { OnErr result (HasFailed _name.now (sure_failed self.old) (sure_failed self.new)) }
        ensures written_out { OnOk result (bytes.now ≡ [] → sure_held self.new _name.now ≡ 0) }
        ensures held { (other : List ℕ) → other ≢ _name.now → sure_held self.new other ≤ sure_held self.old other }

        // It never fails, swallows all, and serves as before.
        ensures sure { IsOk result }
        ensures whole { IfOk result (λ count. count ≡ length bytes.now) }
        ensures same { served self.new ≡ served self.old }
    {
        Ok(bytes.len())
    }
}
