//! A cartridge of the DX7: 32 voices.
#![tactic(auto)]

mod bank;
mod slots;

pub use bank::Cartridge;

#[cfg(test)]
mod tests;
