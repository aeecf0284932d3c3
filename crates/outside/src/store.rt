//! Files in a map in memory.
ghost use Rattle.std.specs.Prelude.{◌≡◌, ◌++◌, if◌then◌else◌, is_some, true, IfOk, OnOk, OnErr, option_map};
ghost use Rattle.std.specs.FinMap.{get, insert};
ghost use Rattle.outside.specs.Files.{appended};
ghost use Rattle.outside.specs.Memory.{files_in};

use std::alloc::{AllocError, Global};
use std::collections::BTreeMap;

/// Files in memory, by name.
pub(crate) type Store = BTreeMap<String, Vec<u8>>;

pub(crate) fn find<'a>(files: &'a Store, name: &str) -> Option<&'a [u8]>
    ensures { option_map (λ file. file.now) result ≡ get (files_in files.entry.now.entries) name.now }
{
    match files.get(name) {
        Some(bytes) => Some(bytes.as_slice()),
        None => None,
    }
}

pub(crate) fn put(
    files: &mut Store,
    alloc: Global,
    name: &str,
    bytes: Vec<u8>,
) -> Result<(), AllocError>
    ensures ok { OnOk result (files_in files.new.entries ≡ insert (files_in files.old.entries) name.now bytes.items) }
    ensures err { OnErr result (files_in files.new.entries ≡ files_in files.old.entries) }
{
    let key = String::from_str(alloc, name)?;
    files.insert(key, bytes)?;
    Ok(())
}

/// Appends to a file that is there, and says whether it is.
pub(crate) fn append_to(
    files: &mut Store,
    alloc: Global,
    name: &str,
    bytes: &[u8],
) -> Result<bool, AllocError>
    ensures there { IfOk result (λ there. there ≡ is_some (get (files_in files.old.entries) name.now)) }
    ensures ok { IfOk result (λ there. files_in files.new.entries ≡
        (if there then appended name.now bytes.now (files_in files.old.entries) else files_in files.old.entries)) }
    ensures err { OnErr result (is_some (get (files_in files.old.entries) name.now) ≡ true) }
    ensures same { OnErr result (files_in files.new.entries ≡ files_in files.old.entries) }
{
    let next = match find(files, name) {
        Some(old) => joined(alloc, old, bytes)?,
        None => return Ok(false),
    };
    put(files, alloc, name, next)?;
    Ok(true)
}

fn joined(alloc: Global, first: &[u8], second: &[u8]) -> Result<Vec<u8>, AllocError>
    ensures { IfOk result (λ bytes. bytes.items ≡ first.now ++ second.now) }
{
    let mut bytes = first.to_vec(alloc)?;
    bytes.extend_from_slice(second)?;
    Ok(bytes)
}
