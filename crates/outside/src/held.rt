//! Files on disk with bytes that are held back, so that not each small piece is a call of the system.

ghost use Rattle.std.specs.Prelude.{◌≡◌, ◌≢◌, ◌≤◌, ℕ, List, [], length, drop, false, IfOk, OnOk};
ghost use Rattle.outside.specs.Held.{HasPassedOn, held_by, held_in, is_file_of};

use arrayvec::{ArrayString, ArrayVec};
use std::fs::OpenOptions;
use std::io;
use std::io::{Error, ErrorKind, Write};
use std::rt::Files;

/// The longest name, in bytes, of a file that stays open.
const NAME: usize = 1024;

/// The most bytes that are held back.
const HELD: usize = 8192;

/// Room for an open file, to the end of which is written, and the bytes that come next and aren't written yet.
#[derive(Drop)]
pub(crate) struct HeldFile<F> {
    name: ArrayString<NAME>,
    file: Option<F>,
    bytes: ArrayVec<u8, HELD>,
}

/// The open files. Their rooms are made once, since they are large.
#[derive(Drop)]
pub(crate) struct HeldFiles<F> {
    /// Whether small pieces are held back; else each is written at once.
    holds: bool,
    one: HeldFile<F>,
    other: HeldFile<F>,
    /// Whether `one` was opened after `other`.
    one_is_last: bool,
}

impl<F: Write + Drop> HeldFiles<F> {
    /// No open file.
    pub(crate) fn new(holds: bool) -> HeldFiles<F> {
        HeldFiles {
            holds,
            one: HeldFile::new(),
            other: HeldFile::new(),
            one_is_last: false,
        }
    }

    /// Closes the file by this name, without what is held back.
    pub(crate) fn forget(&mut self, name: &str)
        ensures forgotten { held_by self.new name.now ≡ 0 }
        ensures held { (any : List ℕ) → held_by self.new any ≤ held_by self.old any }
    {
        if self.one.is_file(name) {
            self.one.close();
        }
        if self.other.is_file(name) {
            self.other.close();
        }
    }

    /// Writes out what is held back of the file by this name.
    pub(crate) fn write_out(&mut self, name: &str) -> io::Result<()>
        ensures written_out { OnOk result (held_by self.new name.now ≡ 0) }
        ensures held { (any : List ℕ) → held_by self.new any ≤ held_by self.old any }
    {
        if self.one.is_file(name) {
            self.one.write_out()?;
        }
        if self.other.is_file(name) {
            self.other.write_out()?;
        }
        Ok(())
    }

    /// Appends the first of the bytes to the file by this name, which is opened where it isn't open,
    /// and says how many.
    pub(crate) fn append<R: Files<File = F>>(
        &mut self,
        rt: &R,
        name: &str,
        bytes: &[u8],
    ) -> io::Result<usize>
        ensures count { IfOk result (λ count. count ≤ length bytes.now) }
        ensures written_out { OnOk result (bytes.now ≡ [] → held_by self.new name.now ≡ 0) }
        ensures held { (other : List ℕ) → other ≢ name.now → held_by self.new other ≤ held_by self.old other }
    {
        if bytes.is_empty() {
            self.write_out(name)?;
        }
        if self.one.is_file(name) {
            return self.one.append(bytes, self.holds);
        }
        if self.other.is_file(name) {
            return self.other.append(bytes, self.holds);
        }
        let mut file = OpenOptions::new().append(true).open(rt, name)?;
        if name.len() > NAME {
            return file.write(bytes);
        }
        self.one_is_last = !self.one_is_last;
        if self.one_is_last {
            self.one.replace(name, file, bytes, self.holds)
        } else {
            self.other.replace(name, file, bytes, self.holds)
        }
    }
}

impl<F: Write + Drop> HeldFile<F> {
    /// No file.
    fn new() -> HeldFile<F> {
        HeldFile {
            name: ArrayString::new(),
            file: None,
            bytes: ArrayVec::new(),
        }
    }

    /// Whether it is the file by this name.
    fn is_file(&self, name: &str) -> bool
        ensures { result ≡ is_file_of self.now name.now }
    {
        self.file.is_some() && self.name.as_str() == name
    }

    /// Closes the file, without what is held back.
    fn close(&mut self)
        ensures { (any : List ℕ) → held_in self.new any ≡ 0 }
    {
        self.bytes.clear();
        self.file = None;
    }

    /// Writes out what is held back, opens another file in its place, and appends to that as `append` does. A
    /// name for which there is no room is cut to nothing.
    fn replace(&mut self, name: &str, file: F, bytes: &[u8], holds: bool) -> io::Result<usize>
        ensures count { IfOk result (λ count. count ≤ length bytes.now) }
        ensures written_out { OnOk result (bytes.now ≡ [] → (any : List ℕ) → held_in self.new any ≡ 0) }
        ensures held { (other : List ℕ) → other ≢ name.now → held_in self.new other ≤ held_in self.old other }
    {
        self.write_out()?;
        self.open(name, file);
        self.append(bytes, holds)
    }

    /// Opens another file, with no bytes held back.
    fn open(&mut self, name: &str, file: F)
        ensures { (other : List ℕ) → other ≢ name.now → is_file_of self.new other ≡ false }
    {
        self.name.clear();
        self.bytes.clear();
        self.file = match self.name.try_push_str(name) {
            Ok(()) => Some(file),
            Err(_) => None,
        };
    }

    /// Holds the bytes back, or writes the first of them, and says how many. An append of no bytes writes out
    /// all that is held back. After an error what wasn't written is still held back.
    fn append(&mut self, bytes: &[u8], holds: bool) -> io::Result<usize>
        ensures count { IfOk result (λ count. count ≤ length bytes.now) }
        ensures written_out { OnOk result (bytes.now ≡ [] → (any : List ℕ) → held_in self.new any ≡ 0) }
        ensures held { (other : List ℕ) → is_file_of self.old other ≡ false → is_file_of self.new other ≡ false }
    {
        if bytes.is_empty() || bytes.len() > self.bytes.remaining_capacity() {
            self.write_out()?;
        }
        if holds && self.bytes.try_extend_from_slice(bytes).is_ok() {
            return Ok(bytes.len());
        }
        match &mut self.file {
            Some(file) => file.write(bytes),
            None => Err(Error::from(ErrorKind::NotFound)),
        }
    }

    /// Writes out all that is held back.
    fn write_out(&mut self) -> io::Result<()>
        ensures written_out { OnOk result ((any : List ℕ) → held_in self.new any ≡ 0) }
        ensures held { (any : List ℕ) → held_in self.new any ≤ held_in self.old any }
        ensures file { (any : List ℕ) → is_file_of self.new any ≡ is_file_of self.old any }
    {
        match &mut self.file {
            Some(file) => write_held(file, &mut self.bytes),
            None => Ok(()),
        }
    }
}

/// Writes the bytes, and keeps those that were not written.
fn write_held<F: Write>(file: &mut F, bytes: &mut ArrayVec<u8, HELD>) -> io::Result<()>
    ensures all { OnOk result (length bytes.new.items ≡ 0) }
    ensures fewer { length bytes.new.items ≤ length bytes.old.items }
    ensures passed { HasPassedOn (F.contents file.old) (F.contents file.new) bytes.old.items bytes.new.items }
{
    let mut done = 0;
    while done < bytes.len() {
        match file.write(&bytes.as_slice()[done..]) {
            Ok(count) if count > 0 => done += count,
            Ok(_) => {
                keep_from(bytes, done);
                return Err(Error::from(ErrorKind::WriteZero));
            }
            Err(error) => {
                keep_from(bytes, done);
                return Err(error);
            }
        }
    }
    bytes.clear();
    Ok(())
}

/// Keeps the bytes from a number on.
fn keep_from(bytes: &mut ArrayVec<u8, HELD>, start: usize)
    requires { start ≤ length bytes.old.items }
    ensures { bytes.new.items ≡ drop start bytes.old.items }
{
    drop(bytes.drain(..start));
}
