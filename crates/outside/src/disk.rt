//! The files of the system, and its standard output.
ghost use Rattle.std.specs.Prelude.{◌≡◌, ◌≢◌, ◌≤◌, ◌<◌, ◌+◌, ℕ, List, [], length, take, drop, IfOk, OnOk, OnErr, IfSome, IsSomeAnd, IsErr, option_map};
ghost use Rattle.std.specs.FinMap.{get};
ghost use Rattle.outside.specs.Files.{Lacks, ReadsFrom, appended, created, said};
ghost use Rattle.outside.specs.Faults.{HasCause, HasFailed, more_by, one_more};
ghost use Rattle.outside.specs.Held.{held_by};
ghost use Rattle.outside.specs.Disk.{disk_failed, disk_files, disk_given, disk_held, disk_reading, disk_reads, disk_writing, output_bytes, output_faults};

use crate::held::HeldFiles;
use crate::{Failed, Out, Shelf};
use std::fs::File;
use std::io;
use std::io::{Read, Seek, SeekFrom, Write};
use std::rt::Files;

/// The files of the system. It tells no content.
///
/// The two files that were appended to last stay open. A shelf by `new` writes each piece at once. One by `holding_back` keeps
/// up to 8192 bytes of each of the two back: they are written out when there is no room for more, when no bytes are
/// appended to the file (as `write_out` does), when it is read, and when its place is needed for a third file. A failing write is
/// counted by the call that makes it; its bytes are still held back then, so what a file has is always what was
/// appended first. What is still held back when the shelf goes is lost. Files are told apart by their names' bytes.
#[derive(Drop)]
pub struct DiskShelf<'a, R: Files> {
    rt: &'a R,
    reading: u64,
    writing: u64,
    reads: u64,
    given: u64,
    held: HeldFiles<R::File>,
}

impl<'a, R: Files> DiskShelf<'a, R> {
    /// The files of this system, with no fault counted yet. Each piece is written at once.
    pub fn new(rt: &'a R) -> DiskShelf<'a, R>
        ensures reading { disk_reading result ≡ 0 }
        ensures writing { disk_writing result ≡ 0 }
        ensures reads { disk_reads result ≡ 0 }
        ensures given { disk_given result ≡ 0 }
    {
        DiskShelf {
            rt,
            reading: 0,
            writing: 0,
            reads: 0,
            given: 0,
            held: HeldFiles::new(false),
        }
    }

    /// The same, but small pieces are held back. Whoever appends to a file has it written out at the end, by `write_out`.
    pub fn holding_back(rt: &'a R) -> DiskShelf<'a, R>
        ensures reading { disk_reading result ≡ 0 }
        ensures writing { disk_writing result ≡ 0 }
        ensures reads { disk_reads result ≡ 0 }
        ensures given { disk_given result ≡ 0 }
    {
        DiskShelf {
            rt,
            reading: 0,
            writing: 0,
            reads: 0,
            given: 0,
            held: HeldFiles::new(true),
        }
    }
}

impl<R: Files> Shelf for DiskShelf<'_, R> {
    ghost files = { disk_files };

    ghost reading = { disk_reading };

    ghost writing = { disk_writing };

    ghost reads = { disk_reads };

    ghost given = { disk_given };

    ghost failed = { disk_failed };

    ghost held = { disk_held };

    fn read_at(&mut self, name: &str, at: u64, into: &mut [u8]) -> Result<usize, Failed>
        ensures count { IfOk result (λ count. count ≤ length into.old) }
        ensures rest { IfOk result (λ count. drop count into.new ≡ drop count into.old) }
        ensures bytes { IfOk result (λ count. IfSome (disk_files self.old) (λ told.
            IsSomeAnd (get told name.now) (λ file. ReadsFrom file at count into.new))) }
        ensures files { disk_files self.new ≡ disk_files self.old }
        ensures lacks { Lacks (disk_files self.old) name.now → IsErr result }
        ensures cause { HasCause (disk_reading self.old) (disk_reading self.new) (disk_writing self.old) (disk_writing self.new)
            (Lacks (disk_files self.old) name.now) result }
        ensures reads { disk_reads self.new ≡ one_more (disk_reads self.old) }
        ensures given { IfOk result (λ count. disk_given self.new ≡ more_by (disk_given self.old) count) }
        ensures gave_none { OnErr result (disk_given self.new ≡ disk_given self.old) }
        ensures failed_kept { disk_failed self.new ≡ disk_failed self.old }
        ensures held { (any : List ℕ) → disk_held self.new any ≤ disk_held self.old any }

        // The count of reading faults rises by one exactly where the call fails.
        ensures by_one { OnErr result (disk_reading self.new ≡ one_more (disk_reading self.old)) }
    {
        self.reads = self.reads.saturating_add(1);
        match read_file(self.rt, &mut self.held, name, at, into) {
            Ok(count) => {
                self.given = self.given.saturating_add(count as u64);
                Ok(count)
            }
            Err(_) => {
                self.reading = self.reading.saturating_add(1);
                Err(Failed)
            }
        }
    }

    fn create(&mut self, name: &str) -> Result<(), Failed>
        ensures made { OnOk result (disk_files self.new ≡ option_map (created name.now) (disk_files self.old)) }
        ensures failed { OnErr result (disk_files self.new ≡ disk_files self.old) }
        ensures cause { HasCause (disk_writing self.old) (disk_writing self.new) (disk_reading self.old) (disk_reading self.new) ⊥ result }
        ensures reads { disk_reads self.new ≡ disk_reads self.old }
        ensures given { disk_given self.new ≡ disk_given self.old }
        ensures failed_kept { OnOk result (disk_failed self.new ≡ disk_failed self.old) }
        ensures failed_name { OnErr result (HasFailed name.now (disk_failed self.old) (disk_failed self.new)) }
        ensures forgotten { OnOk result (disk_held self.new name.now ≡ 0) }
        ensures held { (other : List ℕ) → other ≢ name.now → disk_held self.new other ≤ disk_held self.old other }

        // The count of writing faults rises by one exactly where the call fails.
        ensures by_one { OnErr result (disk_writing self.new ≡ one_more (disk_writing self.old)) }
    {
        self.held.forget(name);
        match File::create(self.rt, name) {
            Ok(_) => Ok(()),
            Err(_) => {
                self.writing = self.writing.saturating_add(1);
                Err(Failed)
            }
        }
    }

    fn append(&mut self, name: &str, bytes: &[u8]) -> Result<usize, Failed>
        ensures count { IfOk result (λ count. count ≤ length bytes.now) }
        ensures some { IfOk result (λ count. 0 < length bytes.now → 0 < count) }
        ensures added { IfOk result (λ count.
            disk_files self.new ≡ option_map (appended name.now (take count bytes.now)) (disk_files self.old)) }
        ensures failed { OnErr result (disk_files self.new ≡ disk_files self.old) }
        ensures lacks { Lacks (disk_files self.old) name.now → IsErr result }
        ensures cause { HasCause (disk_writing self.old) (disk_writing self.new) (disk_reading self.old) (disk_reading self.new)
            (Lacks (disk_files self.old) name.now) result }
        ensures reads { disk_reads self.new ≡ disk_reads self.old }
        ensures given { disk_given self.new ≡ disk_given self.old }
        ensures failed_kept { OnOk result (disk_failed self.new ≡ disk_failed self.old) }
        ensures failed_name { OnErr result (HasFailed name.now (disk_failed self.old) (disk_failed self.new)) }
        ensures written_out { OnOk result (bytes.now ≡ [] → disk_held self.new name.now ≡ 0) }
        ensures held { (other : List ℕ) → other ≢ name.now → disk_held self.new other ≤ disk_held self.old other }

        // The count of writing faults rises by one exactly where the call fails.
        ensures by_one { OnErr result (disk_writing self.new ≡ one_more (disk_writing self.old)) }
    {
        match self.held.append(self.rt, name, bytes) {
            Ok(count) if count > 0 || bytes.is_empty() => Ok(count),
            _ => {
                self.writing = self.writing.saturating_add(1);
                Err(Failed)
            }
        }
    }
}

fn read_file<R: Files>(
    rt: &R,
    held: &mut HeldFiles<R::File>,
    name: &str,
    at: u64,
    into: &mut [u8],
) -> io::Result<usize>
    ensures count { IfOk result (λ count. count ≤ length into.old) }
    ensures rest { IfOk result (λ count. drop count into.new ≡ drop count into.old) }
    ensures held { (any : List ℕ) → held_by held.new any ≤ held_by held.old any }
{
    held.write_out(name)?;
    let mut file = File::open(rt, name)?;
    file.seek(SeekFrom::Start(at))?;
    let mut chunk = [0u8; 4096];
    let room = into.len().min(4096);
    let count = file.read(&mut chunk[..room])?;
    into[..count].copy_from_slice(&chunk[..count]);
    Ok(count)
}

/// The standard output. It tells no content.
#[derive(Drop)]
pub struct StdOut<'a, R> {
    rt: &'a R,
    faults: u64,
}

impl<'a, R: Print> StdOut<'a, R> {
    /// The standard output, with no fault counted yet.
    pub fn new(rt: &'a R) -> StdOut<'a, R>
        ensures { output_faults result ≡ 0 }
    {
        StdOut { rt, faults: 0 }
    }
}

impl<R: Print> Out for StdOut<'_, R> {
    ghost written = { output_bytes };

    ghost faults = { output_faults };

    fn put(&mut self, bytes: &[u8]) -> Result<usize, Failed>
        ensures count { IfOk result (λ count. count ≤ length bytes.now) }
        ensures some { IfOk result (λ count. 0 < length bytes.now → 0 < count) }
        ensures added { IfOk result (λ count.
            output_bytes self.new ≡ option_map (said (take count bytes.now)) (output_bytes self.old)) }
        ensures failed { OnErr result (output_bytes self.new ≡ output_bytes self.old) }
        ensures cause { HasCause (output_faults self.old) (output_faults self.new) 0 0 ⊥ result }

        // The count of faults rises by one exactly where the call fails.
        ensures by_one { OnErr result (output_faults self.new ≡ one_more (output_faults self.old)) }
    {
        match io::writer(self.rt).write(bytes) {
            Ok(count) if count > 0 || bytes.is_empty() => Ok(count),
            _ => {
                self.faults = self.faults.saturating_add(1);
                Err(Failed)
            }
        }
    }
}
