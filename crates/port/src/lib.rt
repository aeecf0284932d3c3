//! A port: a live stream of MIDI bytes that becomes commands on a line.
#![tactic(auto)]

mod fed;
mod handling;
mod kept;
mod port;

pub use fed::{Fed, PortStop};
pub use port::Port;

#[cfg(test)]
mod tests;
