//! What the program `play` does.
#![tactic(auto)]

mod files;
mod lines;
mod never_failing;
mod play;
mod refusal;
mod scan;
mod setup;
mod top;
mod totals;
mod words;

pub use never_failing::play_never_failing;
pub use top::play_main;

#[cfg(test)]
mod tests;
