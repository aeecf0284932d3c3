//! The lines in which a program tells what went wrong, put to an output that may fail.
#![tactic(auto)]

mod messages;
mod outputs;

pub use messages::{
    say, say_cannot_read, say_cannot_write, say_limit_commands, say_limit_file, say_out_of_memory,
};

#[cfg(test)]
mod tests;
