//! What the program `tool` does: it checks files of MIDI bytes with DX7 voices, and writes such files; it plays the order of a run
//! again, and compares a sound file with an order; it writes scripts that are generated from a number, and plays them.
#![tactic(auto)]

mod bench;
mod check_report;
mod comparison;
mod failure;
mod generate;
mod librarian;
mod list_report;
mod midi_bytes;
mod never_failing;
mod order;
mod output_file;
mod output_line;
mod pack;
mod page;
mod refusal;
mod replay;
mod scan;
mod seed;
mod top;
mod verify;
mod words;

pub use never_failing::tool_never_failing;
pub use refusal::Refusal;
pub use top::tool_main;
pub use words::Request;

#[cfg(test)]
mod tests;
