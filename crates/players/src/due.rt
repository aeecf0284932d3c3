//! The first of the commands that are left: one that was refused before, or else the script's first.
ghost use Rattle.std.specs.Prelude.{◌≡◌, ◌∷◌, [], None, IfSome, IfNone};
ghost use Rattle.script_plan.specs.Plan.{planned_data, first_due, IsPlan};
ghost use Rattle.players.specs.Players.{left_of, IsNext};

use script_plan::{Planned, Script};

/// Removes the first command, and answers it.
pub(crate) fn pop_first(refused: &mut Option<Planned>, script: &mut Script) -> Option<Planned>
    ensures some { IfSome result (λ c. left_of refused.old script.old ≡ planned_data c ∷ script.new) }
    ensures none { IfNone result (left_of refused.old script.old ≡ []) }
    ensures empty { refused.new ≡ None }
    ensures plan { IsNext refused.old script.old → IsPlan (left_of refused.old script.old) }
{
    match refused.take() {
        Some(planned) => Some(planned),
        None => match script.pop() {
            Some((due, command)) => Some(Planned { due, command }),
            None => None,
        },
    }
}

/// The block that the first command is due at.
pub(crate) fn next_due(refused: &Option<Planned>, script: &Script) -> Option<u32>
    ensures due { result ≡ first_due (left_of refused.now script.now) }
    ensures plan { IsNext refused.now script.now → IsPlan (left_of refused.now script.now) }
{
    match refused {
        Some(planned) => Some(planned.due),
        None => script.next_due(),
    }
}
