//! The players of a line, before the first turn.
ghost use Rattle.std.specs.Prelude.{◌≡◌, IfOk, length, map};
ghost use Rattle.command_queue.specs.Ends.{AreNewEnds};
ghost use Rattle.turns.specs.Turns.{AreFresh, plans_of};

use command_queue::{Line, SendEnd};
use players::Player;
use script_plan::Script;
use std::alloc::{AllocError, Global};

/// A player for each end of a new line, whose quotas are the numbers of the scripts' commands.
///
/// The one error is want of memory.
pub fn new_players(
    alloc: Global,
    line: &Line,
    ends: Vec<SendEnd>,
    scripts: Vec<Script>,
) -> Result<Vec<Player>, AllocError>
    requires ends { AreNewEnds line.now ends.items }
    requires quotas { line.now.quotas ≡ map length scripts.items }
    ensures fresh { IfOk result (λ players. AreFresh line.now players.items) }
    ensures plans { IfOk result (λ players. plans_of players.items ≡ scripts.items) }
{
    // the line stands in the contract alone
    let _ = line;
    let mut players = Vec::with_capacity(alloc, ends.len())?;
    let mut scripts = scripts.into_iter();
    for end in ends {
        let Some(script) = scripts.next() else {
            unreachable!()
        };
        players.push_reserved(Player::new(end, script));
    }
    Ok(players)
}
