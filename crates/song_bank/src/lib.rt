//! A bank before a song: a MIDI file with one more track, the first, which has the messages of some streams.
#![tactic(auto)]

mod bank;
mod event;
mod song;

pub use bank::Bank;
pub use song::{after_header, track_count};

#[cfg(test)]
mod tests;
