//! The instrument: sixteen slots for notes, played block by block.
#![tactic(auto)]

mod blocks;
mod editor_law;
mod instrument;
mod mix;
mod modulation;
mod slot;
mod slots;

/// The most blocks that a run has: a little more than 25 minutes.
pub const BLOCK_LIMIT: u32 = 1_048_576;

pub use dx_tables::Engine;
pub use editor_law::follows_an_editor;
pub use instrument::Instrument;

#[cfg(test)]
mod reference;
#[cfg(test)]
mod tests;
