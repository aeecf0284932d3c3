//! A shelf that adds one byte an append.
ghost use Rattle.std.specs.Prelude.{◌≡◌, ◌≢◌, [], ◌≤◌, ◌<◌, List, ℕ, length, take, option_map, IfOk, OnOk, OnErr, IsErr};
ghost use Rattle.outside.specs.Files.{Lacks, appended};
ghost use Rattle.outside.specs.Faults.{HasCause, HasFailed};

use crate::shelf::{Failed, Shelf};

/// Serves as the shelf inside does, but adds at most one byte in each append: for tests of what is written in pieces.
#[derive(Drop)]
pub struct OneByteShelf<S> {
    /// The shelf that serves.
    pub inner: S,
}

impl<S: Shelf> Shelf for OneByteShelf<S> {
    ghost files = { λ shelf. S.files shelf.inner };

    ghost reading = { λ shelf. S.reading shelf.inner };

    ghost writing = { λ shelf. S.writing shelf.inner };

    ghost reads = { λ shelf. S.reads shelf.inner };

    ghost given = { λ shelf. S.given shelf.inner };

    ghost failed = { λ shelf. S.failed shelf.inner };

    ghost held = { λ shelf. S.held shelf.inner };

    fn read_at(&mut self, name: &str, at: u64, into: &mut [u8]) -> Result<usize, Failed> {
        self.inner.read_at(name, at, into)
    }

    fn create(&mut self, name: &str) -> Result<(), Failed> {
        self.inner.create(name)
    }

    fn append(&mut self, name: &str, bytes: &[u8]) -> Result<usize, Failed>
        ensures count { IfOk result (λ count. count ≤ length bytes.now) }
        ensures some { IfOk result (λ count. 0 < length bytes.now → 0 < count) }
        ensures added { IfOk result (λ count.
            S.files self.new.inner ≡ option_map (appended name.now (take count bytes.now)) (S.files self.old.inner)) }
        ensures failed { OnErr result (S.files self.new.inner ≡ S.files self.old.inner) }
        ensures lacks { Lacks (S.files self.old.inner) name.now → IsErr result }
        ensures cause { HasCause (S.writing self.old.inner) (S.writing self.new.inner) (S.reading self.old.inner) (S.reading self.new.inner)
            (Lacks (S.files self.old.inner) name.now) result }
        ensures reads { S.reads self.new.inner ≡ S.reads self.old.inner }
        ensures given { S.given self.new.inner ≡ S.given self.old.inner }
        ensures failed_kept { OnOk result (S.failed self.new.inner ≡ S.failed self.old.inner) }
        ensures failed_name { OnErr result (HasFailed name.now (S.failed self.old.inner) (S.failed self.new.inner)) }
        ensures written_out { OnOk result (bytes.now ≡ [] → S.held self.new.inner name.now ≡ 0) }
        ensures held { (other : List ℕ) → other ≢ name.now → S.held self.new.inner other ≤ S.held self.old.inner other }

        // It takes one byte, where there is one.
        ensures one_byte { IfOk result (λ count. count ≤ 1) }
    {
        if bytes.is_empty() {
            self.inner.append(name, bytes)
        } else {
            self.inner.append(name, &bytes[..1])
        }
    }
}
