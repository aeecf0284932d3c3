//! One turn of all players, beside each other.
ghost use Rattle.std.specs.Prelude.{◌<◌, ◌≤◌, MatchBool, length};
ghost use Rattle.players.specs.Players.{AreReady, AllTurned, IsLastDue, NoneIsDue, SomeIsDue};

use crate::player::Player;
use command_queue::Line;
use outside::Gate;
use std::sync::Wait;
use std::thread::{Threads, join_mut};

/// Whether some of the players have a command that is due at a turn.
pub fn are_due(players: &[Player], turn: u32) -> bool
    ensures { MatchBool result (SomeIsDue turn players.now) (NoneIsDue turn players.now) }
{
    for player in players {
        if player.is_due(turn) {
            return true;
        }
    }
    false
}

/// Where the last player stands that has a command that is due at a turn, and 0 where none has. What a turn does doesn't rest on it.
pub fn last_due(players: &[Player], turn: u32) -> usize
    ensures within { result ≤ length players.now }
    ensures last { IsLastDue turn players.now result }
{
    let mut rest = players.len();
    while rest > 0 {
        rest -= 1;
        if players[rest].is_due(turn) {
            return rest;
        }
    }
    0
}

/// One turn of each player. Those that have something due are branches of their own, and the others aren't touched. Where a single one has,
/// no thread is started.
#[cycle(halves)]
pub fn play_all<R: Threads + Wait + Sync, G: Gate>(
    rt: &R,
    line: &Line,
    gate: &G,
    turn: u32,
    players: &mut [Player],
)
    requires { AreReady line.now players.old }
    ensures ready { AreReady line.now players.new }
    ensures turned { AllTurned turn players.old players.new }
{
    if players.is_empty() {
        return;
    }
    if players.len() == 1 {
        players[0].turn(rt, line, turn, gate);
        return;
    }
    let middle = players.len() / 2;
    let (first, second) = players.split_at_mut(middle);
    play_both(rt, line, gate, turn, first, second);
}

// One turn of each player of two lists, in branches where both have something due.
#[cycle(halves)]
fn play_both<R: Threads + Wait + Sync, G: Gate>(
    rt: &R,
    line: &Line,
    gate: &G,
    turn: u32,
    first: &mut [Player],
    second: &mut [Player],
)
    requires some { (0 < length first.old) × (0 < length second.old) }
    requires first { AreReady line.now first.old }
    requires second { AreReady line.now second.old }
    ensures first_ready { AreReady line.now first.new }
    ensures first_turned { AllTurned turn first.old first.new }
    ensures second_ready { AreReady line.now second.new }
    ensures second_turned { AllTurned turn second.old second.new }
{
    if !are_due(first, turn) {
        play_all(rt, line, gate, turn, second);
        return;
    }
    if !are_due(second, turn) {
        play_all(rt, line, gate, turn, first);
        return;
    }
    join_mut(
        rt,
        &mut ||
            requires { AreReady line.now first.now }
            ensures { AreReady line.entry.now first.exit.now × AllTurned turn first.entry.now first.exit.now }
        { play_all(rt, line, gate, turn, first) },
        &mut ||
            requires { AreReady line.now second.now }
            ensures { AreReady line.entry.now second.exit.now × AllTurned turn second.entry.now second.exit.now }
        { play_all(rt, line, gate, turn, second) },
    );
}
