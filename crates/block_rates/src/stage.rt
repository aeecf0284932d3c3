//! The four stages of an envelope.

ghost use Rattle.std.specs.Prelude.{◌≡◌};

/// The stage that an envelope is in. The third lasts until key up, the fourth has no end.
#[derive(Clone, Copy)]
pub(crate) enum Stage {
    First,
    Second,
    Third,
    Fourth,
}

impl Stage {
    ghost use Rattle.block_rates.specs.StageOrder.{next_stage};

    /// The stage to go on in from the target of this one.
    pub(crate) fn next(self) -> Stage
        ensures { result ≡ next_stage self }
    {
        match self {
            Stage::First => Stage::Second,
            Stage::Second | Stage::Third => Stage::Third,
            Stage::Fourth => Stage::Fourth,
        }
    }
}
