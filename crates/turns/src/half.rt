//! The two halves of a turn: the scripts send, and the renderer renders the block before and takes.
ghost use Rattle.std.specs.Prelude.{◌≡◌, ◌-◌, ◌<◌};
ghost use Rattle.instrument.specs.Journal.{sound};
ghost use Rattle.live_renderer.specs.Renderer.{KeepsSound};
ghost use Rattle.players.specs.Players.{AreReady};
ghost use Rattle.turns.specs.Steps.{LogsSome, at_block, HaveTurned, HasRendered};

use command_queue::Line;
use live_renderer::{LiveRenderer, TakeOne};
use outside::Gate;
use players::{Player, are_due, last_due, play_all};
use std::sync::Wait;
use std::thread::{Threads, join_mut};

/// A turn, as all that take part in it are told: its number, the line, the gate, and the number that the renderer has as an actor.
#[derive(Drop)]
pub(crate) struct Turn<'a, G> {
    pub(crate) number: u32,
    pub(crate) line: &'a Line,
    pub(crate) gate: &'a G,
    pub(crate) actor: u32,
}

// Takes what waits, up to as many entries as the line has places.
#[tactic(auto, using(crate::proofs::Logging::logs_more))]
fn take_waiting<R: Wait>(rt: &R, line: &Line, renderer: &mut LiveRenderer)
    requires { renderer.old.taker.line ≡ line.now }
    ensures took { LogsSome renderer.old renderer.new }
    ensures kept { KeepsSound renderer.old renderer.new }
{
    for _ in 0..line.places() {
        match renderer.take_one(rt, line) {
            TakeOne::Got => {}
            TakeOne::Empty => return,
            TakeOne::NoRoom => return,
        }
    }
}

// Renders the block before a turn, where there is one.
fn render_before(t: u32, renderer: &mut LiveRenderer, samples: &mut [i16; 64])
    requires t { t < 4294967295 }
    requires blocks { renderer.old.blocks ≡ t - 1 }
    ensures blocks { renderer.new ≡ at_block t renderer.old }
    ensures sound { 0 < t → samples.new ≡ sound renderer.old.journal (t - 1) }
{
    if t > 0 {
        renderer.render(samples);
    }
}

// The renderer's half.
fn render_and_take<R: Wait, G: Gate>(
    rt: &R,
    turn: &Turn<'_, G>,
    renderer: &mut LiveRenderer,
    samples: &mut [i16; 64],
)
    requires line { renderer.old.taker.line ≡ turn.now.line.now }
    requires t { turn.now.number < 4294967295 }
    requires blocks { renderer.old.blocks ≡ turn.now.number - 1 }
    ensures { HasRendered turn.now.number renderer.old renderer.new samples.new }
{
    render_before(turn.number, renderer, samples);
    turn.gate.pass(turn.actor);
    take_waiting(rt, turn.line, renderer);
    turn.gate.done(turn.actor);
}

// Both halves of a turn, where the players stand in two lists. The players of the second have their turn on this thread, before the
// renderer takes; those of the first have theirs beside it, where some of them have something due.
fn run_parts<R: Threads + Wait + Sync, G: Gate>(
    rt: &R,
    turn: &Turn<'_, G>,
    renderer: &mut LiveRenderer,
    samples: &mut [i16; 64],
    first: &mut [Player],
    second: &mut [Player],
)
    requires line { renderer.old.taker.line ≡ turn.now.line.now }
    requires t { turn.now.number < 4294967295 }
    requires blocks { renderer.old.blocks ≡ turn.now.number - 1 }
    requires first { AreReady turn.now.line.now first.old }
    requires second { AreReady turn.now.line.now second.old }
    ensures first { HaveTurned turn.now.line.now turn.now.number first.old first.new }
    ensures second { HaveTurned turn.now.line.now turn.now.number second.old second.new }
    ensures rendered { HasRendered turn.now.number renderer.old renderer.new samples.new }
{
    if !are_due(first, turn.number) {
        play_all(rt, turn.line, turn.gate, turn.number, second);
        render_and_take(rt, turn, renderer, samples);
        return;
    }
    join_mut(
        rt,
        &mut ||
            requires { AreReady turn.now.line.now first.now }
            ensures { HaveTurned turn.entry.now.line.now turn.entry.now.number first.entry.now first.exit.now }
        { play_all(rt, turn.line, turn.gate, turn.number, first) },
        &mut ||
            requires { AreReady turn.now.line.now second.now × (renderer.now.taker.line ≡ turn.now.line.now) × (turn.now.number < 4294967295)
                × (renderer.now.blocks ≡ turn.now.number - 1) }
            ensures { HaveTurned turn.entry.now.line.now turn.entry.now.number second.entry.now second.exit.now
                × HasRendered turn.entry.now.number renderer.entry.now renderer.exit.now samples.exit.now }
        {
            play_all(rt, turn.line, turn.gate, turn.number, second);
            render_and_take(rt, turn, renderer, samples)
        },
    );
}

/// Both halves of a turn. Of the scripts that have something due the last one sends on this thread, before the renderer takes, and each other
/// one on a thread of its own.
pub(crate) fn run_halves<R: Threads + Wait + Sync, G: Gate>(
    rt: &R,
    turn: &Turn<'_, G>,
    renderer: &mut LiveRenderer,
    samples: &mut [i16; 64],
    players: &mut [Player],
)
    requires line { renderer.old.taker.line ≡ turn.now.line.now }
    requires t { turn.now.number < 4294967295 }
    requires blocks { renderer.old.blocks ≡ turn.now.number - 1 }
    requires ready { AreReady turn.now.line.now players.old }
    ensures turned { HaveTurned turn.now.line.now turn.now.number players.old players.new }
    ensures rendered { HasRendered turn.now.number renderer.old renderer.new samples.new }
{
    if !are_due(players, turn.number) {
        render_and_take(rt, turn, renderer, samples);
        return;
    }
    let last = last_due(players, turn.number);
    let (first, second) = players.split_at_mut(last);
    run_parts(rt, turn, renderer, samples, first, second);
}
