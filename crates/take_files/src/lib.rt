//! The two files of a run: the order of its commands, and its sound.
#![tactic(auto)]

mod entry_line;
mod header;
mod line_prefix;
mod listing;
mod order;
mod playback;
mod read;
mod reader;
mod sound;
mod wav;

pub use order::{order_file, order_header, order_line};
pub use playback::{Chunk, Playback};
pub use read::{Order, OrderFault, OrderKind, orders_are_unique, read_order};
pub use reader::OrderReader;
pub use sound::sound_file;
pub use wav::{wav_block, wav_header};

#[cfg(test)]
mod tests;
