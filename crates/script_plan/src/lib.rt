//! Scripts as they are played: commands, each with the block that it is due at, in the order of these blocks.
#![tactic(auto)]

mod script;

pub use script::{Planned, Script};
