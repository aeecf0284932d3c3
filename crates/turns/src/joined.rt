//! After the turns: the ends are joined, and what the journal says of each script is known.
ghost use Rattle.std.specs.Prelude.{◌≡◌, ◌≢◌, ◌<◌, ◌≤◌, ◌-◌, ℕ, List, [], All, OnOk, OnErr, length, map, option_map, vec_len, vec_capacity, slice_index_or};
ghost use Rattle.command_set.specs.Command.{IsInRange};
ghost use Rattle.command_set.specs.Entries.{journal_data};
ghost use Rattle.instrument.specs.Limits.{block_limit};
ghost use Rattle.instrument.specs.Logging.{AreTakenUpTo};
ghost use Rattle.outside.specs.Files.{Lacks};
ghost use Rattle.outside.specs.Faults.{HasCause};
ghost use Rattle.take_files.specs.Files.{wav_blocks};
ghost use Rattle.lateness.specs.Late.{AllBelow};
ghost use Rattle.script_plan.specs.Plan.{PlannedData, due_blocks};
ghost use Rattle.players.specs.Players.{PlayerView};
ghost use Rattle.turns.specs.Turns.{AreFresh, IsFreshRenderer, HavePlayed, AreOnTime, plans_of, many_commands};
ghost use Rattle.turns.specs.Timed.{ArePlayed, IsTimed};
ghost use Rattle.turns.specs.Written.{order_lines, both_appended, Blames, BothBegun, HoldsNothing};

use crate::target::Target;
use crate::turns::run_turns;
use command_queue::{Line, SendEnd};
use command_set::Logged;
use live_renderer::LiveRenderer;
use outside::{Gate, Shelf};
use players::Player;
use std::sync::Wait;
use std::thread::Threads;

/// Who takes part in a run: the line, the renderer at its taking end, the players at its other ends, and an empty list with room for these ends
/// when they come back.
#[derive(Drop)]
pub struct Cast {
    /// The line.
    pub line: Line,
    /// The renderer at the end that takes.
    pub renderer: LiveRenderer,
    /// A player for each end that sends, in order.
    pub players: Vec<Player>,
    /// Room for the players' ends.
    pub ends: Vec<SendEnd>,
}

// The players' ends, in order, in a list that has room for them.
fn ends_of(players: Vec<Player>, ends: Vec<SendEnd>) -> Vec<SendEnd>
    requires empty { ends.items ≡ [] }
    requires room { vec_len players ≤ vec_capacity ends }
    ensures { result.items ≡ map (λ (p : PlayerView). p.end) players.items }
{
    let mut ends = ends;
    for player in players {
        ends.push_reserved(player.into_end());
    }
    ends
}

/// Joins the ends of the players after `play_turns`, whatever it answered, takes what rests in the line, and gives the journal.
///
/// Of the plans that the players were handed in, the journal's entries of each script are just those of the first commands (`played`); and
/// after all turns a command is late or left only where the line has few places (`timed`).
pub fn close<R: Wait>(rt: &R, cast: Cast) -> Vec<Logged>
    requires taker { cast.renderer.taker.line ≡ cast.line }
    requires empty { cast.ends.items ≡ [] }
    requires room { vec_len cast.players ≤ vec_capacity cast.ends }
    requires played { (plans : List (List PlannedData)) × HavePlayed cast.line plans cast.renderer.journal cast.players.items }
    ensures journal { journal_data result.items ≡ cast.renderer.journal }
    ensures ranges { All (λ l. IsInRange l.entry.command) cast.renderer.journal }
    ensures order { AreTakenUpTo cast.renderer.blocks cast.renderer.journal }
    ensures played { (plans : List (List PlannedData)) → HavePlayed cast.line plans cast.renderer.journal cast.players.items
        → ArePlayed cast.renderer.journal plans }
    ensures timed { (plans : List (List PlannedData)) (blocks : ℕ) → HavePlayed cast.line plans cast.renderer.journal cast.players.items
        → AreOnTime cast.line blocks plans cast.renderer.journal cast.players.items → IsTimed cast.renderer.journal plans cast.line.places }
{
    let Cast {
        line,
        renderer,
        players,
        ends,
    } = cast;
    let (taker, journal) = renderer.into_parts();
    let ends = ends_of(players, ends);
    let mut rest = line.finish(rt, taker, ends);
    for _ in rt.forever() {
        if rest.next(rt).is_none() {
            break;
        }
    }
    journal
}

/// Plays the scripts of all players to their end, or until the shelf fails, by `run_turns` and `close`, and gives the journal with the
/// answer of `run_turns`.
pub fn play_scripts<R: Threads + Wait + Sync, S: Shelf, G: Gate>(
    rt: &R,
    cast: Cast,
    blocks: u32,
    shelf: &mut S,
    sound: &str,
    order: &str,
    gate: &G,
) -> (Vec<Logged>, Result<(), Target>)
    requires players { AreFresh cast.line cast.players.items }
    requires renderer { IsFreshRenderer cast.line cast.renderer }
    requires spare { many_commands (plans_of cast.players.items) ≤ cast.renderer.spare }
    requires empty { cast.ends.items ≡ [] }
    requires room { vec_len cast.players ≤ vec_capacity cast.ends }
    requires blocks { (1 ≤ blocks) × (blocks ≤ block_limit) }
    requires due { (k : ℕ) (d : PlayerView) → k < length cast.players.items
        → AllBelow blocks (due_blocks (slice_index_or cast.players.items k d).left) }
    requires differ { sound.now ≢ order.now }
    requires has_sound { ¬ (Lacks (S.files shelf.old) sound.now) }
    requires has_order { ¬ (Lacks (S.files shelf.old) order.now) }
    ensures ranges { All (λ l. IsInRange l.entry.command) (journal_data result.0.items) }
    ensures order { AreTakenUpTo (blocks - 1) (journal_data result.0.items) }
    ensures played { ArePlayed (journal_data result.0.items) (plans_of cast.players.items) }
    ensures timed { OnOk result.1 (IsTimed (journal_data result.0.items) (plans_of cast.players.items) cast.line.places) }
    ensures whole { OnOk result.1 (S.files shelf.new ≡ option_map (both_appended sound.now (wav_blocks (journal_data result.0.items) blocks)
        order.now (order_lines (journal_data result.0.items))) (S.files shelf.old)) }
    ensures begun { OnErr result.1 (BothBegun sound.now (wav_blocks (journal_data result.0.items) blocks)
        order.now (order_lines (journal_data result.0.items)) (S.files shelf.old) (S.files shelf.new)) }
    ensures cause { HasCause (S.writing shelf.old) (S.writing shelf.new) (S.reading shelf.old) (S.reading shelf.new) ⊥ result.1 }
    ensures reads { S.reads shelf.new ≡ S.reads shelf.old }
    ensures blames { Blames result.1 sound.now order.now (S.failed shelf.old) (S.failed shelf.new) }
    ensures written_out { OnOk result.1 (HoldsNothing (S.held shelf.new) sound.now order.now) }
{
    let mut cast = cast;
    let result = run_turns(
        rt,
        &cast.line,
        &mut cast.renderer,
        cast.players.as_mut_slice(),
        blocks,
        shelf,
        sound,
        order,
        gate,
    );
    (close(rt, cast), result)
}
