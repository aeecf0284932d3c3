//! Scripts of commands that are generated from a number, and the sound of four of them through a world.
#![tactic(auto)]

mod lcg;
mod play;
mod samples;
mod script;
mod send;
mod text;

pub use play::{Played, play_generated};
pub use text::script_text;

#[cfg(test)]
mod tests;
