//! What comes of a script: commands with their blocks, or why it is refused. Readers of all kinds of script answer in these words.
#![tactic(auto)]

mod bounds;
mod fault;
mod feed;
mod text;

pub use bounds::Bounds;
pub use fault::{Place, ScriptFault, ScriptKind};
pub use feed::{Feed, Spot, give, read_bytes};
pub use text::push_script_text;

#[cfg(test)]
mod tests;
