//! Scripts: bytes from which the commands of a run are read, each with the block at which it is due.
#![tactic(auto)]

mod edit_line;
mod edit_lines;
mod editing;
mod grammar;
mod lines;
mod progress;
mod read;
mod script_line;
mod stream;
mod words;

pub use read::read_script;

#[cfg(test)]
mod tests;
