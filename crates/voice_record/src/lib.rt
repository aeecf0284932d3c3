//! Voices of the DX7: the 155 parameters of a voice, the greatest value of each, and the packed form of
//! 128 bytes that a bank of 32 voices has.
#![tactic(auto)]

mod limits;
pub mod operator_parameter;
mod packing;
pub mod parameter;
mod voice;

pub use limits::greatest;
pub use voice::{ValueHigh, Voice};

#[cfg(test)]
mod tests;
