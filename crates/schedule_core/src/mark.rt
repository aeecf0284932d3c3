//! What became of the sends of a script.

ghost use Rattle.std.specs.Prelude.{◌≡◌, ◌+◌, ◌-◌, ◌^◌, ◌<◌, ◌==◌, min, if◌then◌else◌};

/// What became of a script's sends: how many were accepted, how many were refused, up to 2^64 - 1,
/// and how many had been accepted at the first refusal.
#[derive(Clone, Copy)]
pub(crate) struct Mark {
    pub(crate) accepted: u32,
    pub(crate) refusals: u64,
    pub(crate) first: u32,
}

impl Mark {
    /// Nothing was sent.
    pub(crate) fn new() -> Mark
        ensures { result ≡ record { accepted = 0; refusals = 0; first = 0 } }
    {
        Mark {
            accepted: 0,
            refusals: 0,
            first: 0,
        }
    }

    /// One more was accepted.
    pub(crate) fn accept(self) -> Mark
        requires { self.accepted < 4294967295 }
        ensures { result ≡ record self { accepted = self.accepted + 1 } }
    {
        Mark {
            accepted: self.accepted + 1,
            ..self
        }
    }

    /// One more was refused.
    pub(crate) fn refuse(self) -> Mark
        ensures { result ≡ record {
          accepted = self.accepted;
          refusals = min (self.refusals + 1) (2 ^ 64 - 1);
          first = if self.refusals == 0 then self.accepted else self.first;
        } }
    {
        Mark {
            accepted: self.accepted,
            refusals: self.refusals.saturating_add(1),
            first: if self.refusals == 0 {
                self.accepted
            } else {
                self.first
            },
        }
    }
}
