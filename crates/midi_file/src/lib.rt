//! Standard MIDI Files of formats 0 and 1, read into scripts.
#![tactic(auto)]

mod bytes;
mod chunk;
mod event;
mod feed;
mod file;
mod plan;
mod time;
mod timed;
mod track;

pub use file::read_midi_file;

#[cfg(test)]
mod tests;
