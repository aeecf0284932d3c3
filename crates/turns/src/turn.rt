//! One turn, up to what is written of it.
ghost use Rattle.std.specs.Prelude.{◌≡◌, ◌-◌, ◌+◌, ◌<◌, ◌≤◌, ◌++◌, List, length, take};
ghost use Rattle.take_files.specs.Files.{wav_blocks};
ghost use Rattle.live_renderer.specs.Renderer.{IsLive};
ghost use Rattle.players.specs.Players.{PlayerView};
ghost use Rattle.turns.specs.Steps.{AfterTurns, block_before};

use crate::half::{Turn, run_halves};
use crate::settle::settle;
use live_renderer::LiveRenderer;
use outside::Gate;
use players::Player;
use std::sync::Wait;
use std::thread::Threads;

/// Both halves of a turn, and then all that was accepted is taken. `samples` is the block before the turn, where there is one.
pub(crate) fn run_turn<R: Threads + Wait + Sync, G: Gate>(
    rt: &R,
    turn: &Turn<'_, G>,
    renderer: &mut LiveRenderer,
    samples: &mut [i16; 64],
    players: &mut [Player],
)
    requires t { turn.now.number < 4294967295 }
    requires scripts { length players.old ≡ length turn.now.line.now.quotas }
    requires turns { (before : List PlayerView) × AfterTurns turn.now.number turn.now.line.now before renderer.old players.old }
    ensures turns { (before : List PlayerView) → AfterTurns turn.now.number turn.now.line.now before renderer.old players.old
        → AfterTurns (turn.now.number + 1) turn.now.line.now before renderer.new players.new }
    ensures sounded { wav_blocks renderer.new.journal turn.now.number
        ≡ wav_blocks renderer.old.journal (turn.now.number - 1) ++ block_before turn.now.number samples.new }
    ensures prefix { (take (length renderer.old.journal) renderer.new.journal ≡ renderer.old.journal)
        × (length renderer.old.journal ≤ length renderer.new.journal) }
    ensures live { IsLive renderer.new }
{
    let seen = renderer.journal().len();
    run_halves(rt, turn, renderer, samples, players);
    settle(rt, turn.line, renderer, seen, players);
}
