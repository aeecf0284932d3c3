//! An editor of one voice, with undo and redo. Each act, undo and redo answers the command that makes
//! the same change in an instrument.
#![tactic(auto)]

mod change;
mod editor;
mod fault;
mod revise;

pub use editor::Editor;
pub use fault::EditFault;

#[cfg(test)]
mod tests;
