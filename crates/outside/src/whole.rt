//! Whole files read, and whole pieces appended or put.
ghost use Rattle.std.specs.Prelude.{◌≡◌, ◌≢◌, ◌⊎◌, ℕ, List, ◌≤◌, ◌<◌, ◌+◌, length, option_map, IfOk, OnOk, OnErr, IfSome, IsSomeAnd, IsErr, IsErrOf};
ghost use Rattle.std.specs.FinMap.{get};
ghost use Rattle.outside.specs.Files.{Lacks, AppendedSome, SaidSome, appended, said};
ghost use Rattle.outside.specs.Faults.{Rose, HasCause, HasFailed, more_by};
ghost use Rattle.outside.specs.declared.whole.ReadFault.TheVariants.{Memory};

use crate::{Failed, Out, Shelf};
use std::alloc::{AllocError, Global};

/// Why a whole file was not read.
#[derive(Clone, Copy, Debug, PartialEq, Eq)]
pub enum ReadFault {
    Failed,
    TooLong,
    Memory,
}

impl From<AllocError> for ReadFault {
    ghost from_gives = { λ _ e. e ≡ Memory };

    fn from(_: AllocError) -> Self {
        ReadFault::Memory
    }
}

/// The whole file, of at most `limit` bytes.
pub fn read_all<S: Shelf>(
    alloc: Global,
    shelf: &mut S,
    name: &str,
    limit: u64,
) -> Result<Vec<u8>, ReadFault>
    ensures whole { IfOk result (λ bytes. IfSome (S.files shelf.old) (λ told. get told name.now ≡ Some bytes.items)) }
    ensures within { IfOk result (λ bytes. length bytes.items ≤ limit) }
    ensures files { S.files shelf.new ≡ S.files shelf.old }
    ensures too_long { IsErrOf result ReadFault.TooLong → IfSome (S.files shelf.old) (λ told.
        IsSomeAnd (get told name.now) (λ file. limit < length file)) }
    ensures failed { IsErrOf result ReadFault.Failed →
        Rose (S.reading shelf.old) (S.reading shelf.new) ⊎ Lacks (S.files shelf.old) name.now }
    ensures lacks { Lacks (S.files shelf.old) name.now → IsErrOf result ReadFault.Failed }
    ensures later { S.reading shelf.old ≤ S.reading shelf.new }
    ensures kept { OnOk result (S.reading shelf.new ≡ S.reading shelf.old) }
    ensures kept_long { IsErrOf result ReadFault.TooLong → S.reading shelf.new ≡ S.reading shelf.old }
    ensures kept_memory { IsErrOf result ReadFault.Memory → S.reading shelf.new ≡ S.reading shelf.old }
    ensures writing { S.writing shelf.new ≡ S.writing shelf.old }
    ensures reads { S.reads shelf.new ≤ S.reads shelf.old + limit + 2 }
    ensures given { IfOk result (λ bytes. S.given shelf.new ≡ more_by (S.given shelf.old) (length bytes.items)) }
    ensures given_long { IsErrOf result ReadFault.TooLong → (more : ℕ) × (limit < more) × (S.given shelf.new ≡ more_by (S.given shelf.old) more) }
    ensures failed_kept { S.failed shelf.new ≡ S.failed shelf.old }
    ensures held { (any : List ℕ) → S.held shelf.new any ≤ S.held shelf.old any }
{
    let mut bytes = Vec::new(alloc);
    let mut chunk = [0u8; 4096];
    let mut at = 0u64;
    'reading: loop {
        let count = match shelf.read_at(name, at, &mut chunk) {
            Ok(count) => count,
            Err(_) => return Err(ReadFault::Failed),
        };
        if count == 0 {
            return Ok(bytes);
        }
        if count as u64 > limit - at {
            return Err(ReadFault::TooLong);
        }
        bytes.extend_from_slice(&chunk[..count])?;
        at += count as u64;
    }
}

/// Appends all the bytes. After `Failed` the first of them may have been appended.
pub fn append_all<S: Shelf>(shelf: &mut S, name: &str, bytes: &[u8]) -> Result<(), Failed>
    ensures all { OnOk result (S.files shelf.new ≡ option_map (appended name.now bytes.now) (S.files shelf.old)) }
    ensures some { OnErr result (AppendedSome name.now bytes.now (S.files shelf.old) (S.files shelf.new)) }
    ensures lacks { Lacks (S.files shelf.old) name.now → IsErr result × (S.files shelf.new ≡ S.files shelf.old) }
    ensures cause { HasCause (S.writing shelf.old) (S.writing shelf.new) (S.reading shelf.old) (S.reading shelf.new)
        (Lacks (S.files shelf.old) name.now) result }
    ensures reads { S.reads shelf.new ≡ S.reads shelf.old }
    ensures given { S.given shelf.new ≡ S.given shelf.old }
    ensures failed_kept { OnOk result (S.failed shelf.new ≡ S.failed shelf.old) }
    ensures failed_name { OnErr result (HasFailed name.now (S.failed shelf.old) (S.failed shelf.new)) }
    ensures held { (other : List ℕ) → other ≢ name.now → S.held shelf.new other ≤ S.held shelf.old other }
{
    let mut done = shelf.append(name, bytes)?;
    'appending: while done < bytes.len() {
        done += shelf.append(name, &bytes[done..])?;
    }
    Ok(())
}

/// Has a shelf write out what it holds back of the named file, by an append of no bytes. The files stay as they are.
pub fn write_out<S: Shelf>(shelf: &mut S, name: &str) -> Result<(), Failed>
    ensures files { S.files shelf.new ≡ S.files shelf.old }
    ensures lacks { Lacks (S.files shelf.old) name.now → IsErr result }
    ensures cause { HasCause (S.writing shelf.old) (S.writing shelf.new) (S.reading shelf.old) (S.reading shelf.new)
        (Lacks (S.files shelf.old) name.now) result }
    ensures reads { S.reads shelf.new ≡ S.reads shelf.old }
    ensures given { S.given shelf.new ≡ S.given shelf.old }
    ensures failed_kept { OnOk result (S.failed shelf.new ≡ S.failed shelf.old) }
    ensures failed_name { OnErr result (HasFailed name.now (S.failed shelf.old) (S.failed shelf.new)) }
    ensures written_out { OnOk result (S.held shelf.new name.now ≡ 0) }
    ensures held { (other : List ℕ) → other ≢ name.now → S.held shelf.new other ≤ S.held shelf.old other }
{
    match shelf.append(name, &[]) {
        Ok(_) => Ok(()),
        Err(failed) => Err(failed),
    }
}

/// Puts all the bytes. After `Failed` the first of them may have been put.
pub fn put_all<O: Out>(out: &mut O, bytes: &[u8]) -> Result<(), Failed>
    ensures all { OnOk result (O.written out.new ≡ option_map (said bytes.now) (O.written out.old)) }
    ensures some { OnErr result (O.written out.new ≡ O.written out.old ⊎ SaidSome bytes.now (O.written out.old) (O.written out.new)) }
    ensures cause { HasCause (O.faults out.old) (O.faults out.new) 0 0 ⊥ result }
{
    let mut done = out.put(bytes)?;
    'putting: while done < bytes.len() {
        done += out.put(&bytes[done..])?;
    }
    Ok(())
}
