//! Scripts that are sent by ends of a line, turn by turn.
#![tactic(auto)]

mod due;
mod player;
mod together;

pub use player::Player;
pub use together::{are_due, last_due, play_all};
