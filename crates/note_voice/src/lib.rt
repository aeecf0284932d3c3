//! A note: six operators with their envelopes under an algorithm, block by block.
#![tactic(auto)]

mod cached_gain;
mod mix;
mod modulation;
mod note;
mod opening;
mod operator;
mod operators;
mod settings;
mod sound;
mod sounding;

pub use note::Note;
pub use opening::opening_is_plain;
pub use sound::{sound_alone, sound_routed};

#[cfg(test)]
mod reference;
#[cfg(test)]
mod tests;
