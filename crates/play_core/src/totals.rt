//! What was read so far of the scripts of a run.

/// How many scripts were read, and how many bytes and commands they have together.
#[derive(Clone, Copy, Debug, PartialEq, Eq)]
pub(crate) struct Totals {
    pub scripts: u32,
    pub bytes: u64,
    pub commands: u32,
}
