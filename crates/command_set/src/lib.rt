//! The commands of the instrument, the one text of each, and who sent them.
#![tactic(auto)]

mod command;
mod entry;
mod message;
mod read;
mod read_bytes;
mod read_numbers;
mod text;

pub use command::{ALL_NOTES_OFF, Command, HOLD_PEDAL, MODULATION_WHEEL, is_known_control};
pub use entry::{Entry, Logged};
pub use message::{CommandFault, from_message};
pub use plain_text::LineText;
pub use read::{TextFault, texts_are_unique};
pub use read_bytes::{read_cartridge, read_voice};

#[cfg(test)]
mod message_tests;
#[cfg(test)]
mod tests;
