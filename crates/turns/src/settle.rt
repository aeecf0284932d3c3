//! After the halves: entries of the journal are counted, until every player's are there.
ghost use Rattle.std.specs.Prelude.{◌≡◌, ◌<◌, ◌≤◌, ◌++◌, ◌∷◌, [], ℕ, List, All, MatchBool, length, take, slice_index_or};
ghost use Rattle.command_set.specs.Entries.{LoggedData, logged_data};
ghost use Rattle.live_renderer.specs.Renderer.{IsLive, KeepsSound};
ghost use Rattle.players.specs.Players.{PlayerView};
ghost use Rattle.turns.specs.Steps.{LogsSome, HaveCounted};

use command_queue::Line;
use command_set::Logged;
use live_renderer::LiveRenderer;
use players::Player;
use std::sync::Wait;

// Counts an entry with its player.
fn count_one(logged: &Logged, players: &mut [Player])
    requires script { logged.now.entry.script < length players.old }
    requires count { (d : PlayerView) → (slice_index_or players.old logged.now.entry.script d).logged < 18446744073709551615 }
    ensures { (journal : List LoggedData) (before : List PlayerView) → HaveCounted journal before players.old
        → HaveCounted (journal ++ logged_data logged.now ∷ []) before players.new }
{
    let player = &mut players[logged.entry.script as usize];
    player.count_logged();
}

// Counts the entries of the journal from a number on.
fn count_new(renderer: &LiveRenderer, seen: usize, players: &mut [Player])
    requires scripts { length players.old ≡ length renderer.now.taker.line.quotas }
    requires counted { (before : List PlayerView) × HaveCounted (take seen renderer.now.journal) before players.old }
    requires seen { seen ≤ length renderer.now.journal }
    ensures counted { (before : List PlayerView) → HaveCounted (take seen renderer.now.journal) before players.old
        → HaveCounted renderer.now.journal before players.new }
    ensures live { IsLive renderer.now }
{
    let journal = renderer.journal();
    for i in seen..journal.len() {
        count_one(&journal[i], players);
    }
}

// Whether each player's accepted entries were all found in the journal.
fn are_logged(players: &[Player]) -> bool
    ensures { MatchBool result (All (λ p. p.logged ≡ length p.end.list) players.now) (length players.now ≡ length players.now) }
{
    for player in players {
        if !player.is_logged() {
            return false;
        }
    }
    true
}

/// Takes until every entry that was accepted of a player is in the journal.
pub(crate) fn settle<R: Wait>(
    rt: &R,
    line: &Line,
    renderer: &mut LiveRenderer,
    seen: usize,
    players: &mut [Player],
)
    requires line { renderer.old.taker.line ≡ line.now }
    requires scripts { length players.old ≡ length line.now.quotas }
    requires seen { seen ≤ length renderer.old.journal }
    requires counted { (before : List PlayerView) × HaveCounted (take seen renderer.old.journal) before players.old }
    ensures took { LogsSome renderer.old renderer.new }
    ensures kept { KeepsSound renderer.old renderer.new }
    ensures counted { (before : List PlayerView) → HaveCounted (take seen renderer.old.journal) before players.old
        → HaveCounted renderer.new.journal before players.new }
    ensures logged { All (λ p. p.logged ≡ length p.end.list) players.new }
    ensures live { IsLive renderer.new }
{
    let mut seen = seen;
    for _ in rt.forever() {
        count_new(renderer, seen, players);
        if are_logged(players) {
            return;
        }
        seen = renderer.journal().len();
        let _ = renderer.take_one(rt, line);
    }
    unreachable!()
}
