//! What a script must not go beyond.

ghost use Rattle.std.specs.Prelude.{◌≡◌};
ghost use Rattle.script_outcome.specs.Outcomes.{is_late};

/// What a script must not go beyond: the number of blocks of the run, where it is known, and how many
/// commands there is room for.
#[derive(Clone, Copy, Debug, PartialEq, Eq)]
pub struct Bounds {
    pub blocks: Option<u32>,
    pub room: u32,
}

impl Bounds {
    /// Whether a block is not one of the run's.
    pub fn is_late(self, block: u32) -> bool
        ensures { result ≡ is_late self.blocks block }
    {
        match self.blocks {
            Some(blocks) => block >= blocks,
            None => false,
        }
    }
}
