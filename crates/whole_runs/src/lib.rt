//! Runs that cross both programs: what `play` writes is read again by `tool`.
#![tactic(auto)]

mod verified;

pub use verified::play_then_verify;

#[cfg(test)]
mod tests;
