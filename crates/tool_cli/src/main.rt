//! The program `tool`: it checks, lists, picks and packs files of DX7 voices.
#![tactic(auto)]

use outside::{DiskShelf, StdOut};
use std::env::Env;
use std::process::ExitCode;
use std::{env, io};
use tool_core::tool_main;

fn main(rt: HostRuntime) -> ExitCode {
    let alloc = rt.alloc();
    let words = match read_words(&rt) {
        Ok(words) => words,
        Err(error) if error.kind() == io::ErrorKind::OutOfMemory => return ExitCode::from(8),
        // Words that are no UTF-8 are of no grammar, as no words are.
        Err(_) => Vec::new(alloc),
    };
    let mut shelf = DiskShelf::new(&rt);
    let mut out = StdOut::new(&rt);
    ExitCode::from(tool_main(alloc, &words, &mut shelf, &mut out))
}

/// The words after the program's name.
fn read_words<R: Env + AllocGlobal>(rt: &R) -> io::Result<Vec<String>> {
    let mut words = Vec::new(rt.alloc());
    for word in env::args(rt)?.skip(1) {
        words.push(word)?;
    }
    Ok(words)
}
