//! A command with its script, its number and its blocks.

use crate::command::Command;

/// A command that a script sent: the script's number, the command's place in the script from 0 on,
/// and the block at which it was due.
#[derive(Drop)]
pub struct Entry {
    pub script: u32,
    pub seq: u32,
    pub sent_at: u32,
    pub command: Command,
}

/// An entry with the block at which it was taken, before that block was rendered.
#[derive(Drop)]
pub struct Logged {
    pub block: u32,
    pub entry: Entry,
}
