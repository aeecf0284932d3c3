//! The names of the writes that failed, kept by a shelf in memory.
ghost use Rattle.std.specs.Prelude.{◌≡◌, ◌++◌, ◌∷◌, [], IfSome, Some, map, string_bytes};
ghost use Rattle.outside.specs.Faults.{HasFailed};
ghost use Rattle.outside.specs.Memory.{names_in};

use std::alloc::Global;

/// Names in order, as long as there is memory for them.
#[derive(Drop)]
pub(crate) struct FailedNames {
    alloc: Global,
    /// The names; `None` from the first on for which there was no memory.
    names: Option<Vec<String>>,
}

impl FailedNames {
    /// No name.
    pub(crate) fn new(alloc: Global) -> FailedNames
        ensures { names_in result ≡ Some [] }
    {
        FailedNames {
            alloc,
            names: Some(Vec::new(alloc)),
        }
    }

    /// One more name.
    pub(crate) fn add(&mut self, name: &str)
        ensures { HasFailed name.now (names_in self.old) (names_in self.new) }
    {
        self.names = match self.names.take() {
            Some(names) => with_name(self.alloc, names, name),
            None => None,
        };
    }
}

fn with_name(alloc: Global, names: Vec<String>, name: &str) -> Option<Vec<String>>
    ensures { IfSome result (λ more. map string_bytes more.items ≡ map string_bytes names.items ++ name.now ∷ []) }
{
    let Ok(name) = String::from_str(alloc, name) else {
        return None;
    };
    let mut names = names;
    match names.push(name) {
        Ok(()) => Some(names),
        Err(_) => None,
    }
}
