//! What a program meets outside: a shelf of files by name, an output, and a gate. Shelf and output count their faults.
#![tactic(auto)]

mod copy;
mod disk;
mod failed_names;
mod failures;
mod gate;
mod held;
mod input;
mod memory;
mod one_byte;
mod output;
mod pace;
mod shelf;
mod store;
mod sure;
mod whole;

pub use disk::{DiskShelf, StdOut};
pub use gate::{Gate, NoGate};
pub use input::{Input, MemInput, StdIn};
pub use memory::MemShelf;
pub use one_byte::OneByteShelf;
pub use output::MemOut;
pub use pace::{ClockPace, NoPace, Pace};
pub use shelf::{Failed, Out, Shelf};
pub use sure::SureShelf;
pub use whole::{ReadFault, append_all, put_all, read_all, write_out};

#[cfg(test)]
mod input_tests;
#[cfg(test)]
mod tests;
