//! Calls that are made to fail by their numbers.
ghost use Rattle.std.specs.Prelude.{◌≡◌, ◌↔◌, IfOk, IsTrue, [], ◌∷◌};
ghost use Rattle.outside.specs.Calls.{FailsNext, calls_of, next_of};

use std::alloc::{AllocError, Global};

/// Which calls of a value in memory are to fail, by their numbers from 0.
#[derive(Drop)]
pub(crate) struct Failures {
    numbers: Vec<u64>,
    calls: u64,
}

impl Failures {
    pub(crate) fn new(alloc: Global, numbers: &[u64]) -> Result<Failures, AllocError>
        ensures { IfOk result (λ failures. calls_of failures ≡ record { made = 0; listed = numbers.now }) }
    {
        Ok(Failures {
            numbers: numbers.to_vec(alloc)?,
            calls: 0,
        })
    }

    /// Counts a call, and says whether it is to fail.
    pub(crate) fn fails_now(&mut self) -> bool
        ensures fails { IsTrue result ↔ FailsNext (calls_of self.old) }
        ensures counted { calls_of self.new ≡ next_of (calls_of self.old) }
    {
        let fails = self.numbers.contains(&self.calls);
        self.calls = self.calls.saturating_add(1);
        fails
    }
}
