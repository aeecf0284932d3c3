//! Messages of a stream of MIDI bytes, byte by byte.
#![tactic(auto)]

mod byte_effect;
mod channel;
mod kept_bytes;
mod message;
mod reader;
mod state;

pub use channel::{has_one_data_byte, message_of_one, message_of_two};
pub use message::MidiMessage;
pub use reader::MidiReader;

#[cfg(test)]
mod tests;
