//! The turns of a run: in each the scripts send and the renderer takes, beside each other, and then what was made is appended to the files.
#![tactic(auto)]

mod half;
mod joined;
mod opening;
mod settle;
mod target;
mod turn;
mod turns;
mod write;

pub use joined::{Cast, close, play_scripts};
pub use opening::new_players;
pub use target::Target;
pub use turns::{play_turns, run_turns};

#[cfg(test)]
mod tests;
