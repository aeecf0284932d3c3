//! The two files of a run.

/// The file that could not be written.
#[derive(Clone, Copy, Debug, PartialEq, Eq)]
pub enum Target {
    Sound,
    Order,
}
