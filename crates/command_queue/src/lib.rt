//! A bounded line of commands: several ends send, one end takes, all through a shared reference.
#![tactic(auto)]

mod ends;
mod line;
mod rest;
mod rule;

pub use ends::{Full, SendEnd, TakeEnd};
pub use line::Line;
pub use rest::Rest;

#[cfg(test)]
mod tests;
