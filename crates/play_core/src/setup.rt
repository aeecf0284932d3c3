//! All that a run needs, made before a file is touched.
ghost use Rattle.std.specs.Prelude.{◌≡◌, ◌+◌, ◌<◌, ◌≤◌, ℕ, Option, All, IfOk, IfSome, IfNone, max, length, map, sum, vec_len, vec_capacity, slice_index};
ghost use Rattle.instrument.specs.Limits.{block_limit};
ghost use Rattle.play_core.specs.Limits.{command_limit};
ghost use Rattle.turns.specs.Turns.{many_commands};
ghost use Rattle.play_core.specs.Verdict.{blocks_of_run, greatest_due, places_of_run};
ghost use Rattle.play_core.specs.Setup.{IsSetup, AreInTime};
ghost use Rattle.play_core.specs.Scan.{AreBelow};

use command_queue::Line;
use instrument::{BLOCK_LIMIT, Engine};
use live_renderer::LiveRenderer;
use script_plan::Script;
use std::alloc::{AllocError, Global};
use turns::{Cast, new_players};

/// Who takes part in a run, and its numbers of blocks and of commands.
#[derive(Drop)]
pub(crate) struct Setup {
    pub cast: Cast,
    pub blocks: u32,
    pub commands: u32,
}

/// The number of blocks: that which was asked for, or 201 more than the greatest block that a command is due at. `None` where it is above the limit.
pub(crate) fn choose_blocks(blocks: Option<u32>, scripts: &[Script]) -> Option<u32>
    requires asked { IfSome blocks (λ b. (1 ≤ b) × (b ≤ block_limit)) }
    requires below { IfSome blocks (λ b. All (λ one. AreBelow b one) scripts.now) }
    ensures in_time { IfSome result (λ b. AreInTime b scripts.now) }
    ensures some { IfSome result (λ b. (b ≡ blocks_of_run blocks scripts.now) × (1 ≤ b) × (b ≤ block_limit)) }
    ensures none { IfNone result (block_limit < blocks_of_run blocks scripts.now) }
{
    match blocks {
        Some(blocks) => Some(blocks),
        None => {
            let due = greatest(scripts);
            last_block(due)
        }
    }
}

// 201 more, up to the limit.
fn last_block(due: u32) -> Option<u32>
    ensures some { IfSome result (λ b. (b ≡ due + 201) × (b ≤ block_limit)) }
    ensures none { IfNone result (block_limit < due + 201) }
{
    if due > BLOCK_LIMIT - 201 {
        None
    } else {
        Some(due + 201)
    }
}

// The greatest block that a command is due at, or 0.
fn greatest(scripts: &[Script]) -> u32
    ensures due { result ≡ greatest_due scripts.now }
    ensures within { AreInTime (result + 1) scripts.now }
{
    let mut due = 0;
    for script in scripts {
        due = later(due, script.last_due());
    }
    due
}

fn later(a: u32, b: u32) -> u32
    ensures { result ≡ max a b }
{
    if a < b { b } else { a }
}

// How many commands each script has.
fn quotas_of(alloc: Global, scripts: &[Script]) -> Result<Vec<u32>, AllocError>
    requires { many_commands scripts.now ≤ command_limit }
    ensures { IfOk result (λ quotas. quotas.items ≡ map length scripts.now) }
{
    let mut quotas = Vec::with_capacity(alloc, scripts.len())?;
    for script in scripts {
        quotas.push(script.len() as u32)?;
    }
    Ok(quotas)
}

// The sum of these numbers.
fn sum_of(quotas: &[u32]) -> u32
    requires { sum quotas.now ≤ command_limit }
    ensures { result ≡ sum quotas.now }
{
    quotas.iter().map(|q| *q as u64).sum::<u64>() as u32
}

// The number of places: that which was asked for, or one for each command, and one at least. That a run has no more than it was asked for
// is a matter of tests: with more places no command is later, so no clause of the top call tells.
fn choose_places(places: Option<u32>, commands: u32) -> u32
    ensures some { IfSome places (λ p. result ≡ p) }
    ensures none { IfNone places (result ≡ max 1 commands) }
{
    match places {
        Some(places) => places,
        None => commands.max(1),
    }
}

impl Setup {
    /// Everything for a run of these scripts.
    ///
    /// The one error is want of memory.
    pub(crate) fn new(
        alloc: Global,
        scripts: Vec<Script>,
        blocks: u32,
        places: Option<u32>,
    ) -> Result<Setup, AllocError>
        requires many { (1 ≤ length scripts.items) × (length scripts.items ≤ 256) }
        requires few { many_commands scripts.items ≤ command_limit }
        requires blocks { (1 ≤ blocks) × (blocks ≤ block_limit) }
        requires places { IfSome places (λ p. (1 ≤ p) × (p ≤ 1000000)) }
        requires due { AreInTime blocks scripts.items }
        ensures { IfOk result (λ setup. (asked : Option ℕ) → blocks ≡ blocks_of_run asked scripts.items
            → IsSetup asked places scripts.items setup) }
    {
        let quotas = quotas_of(alloc, &scripts)?;
        let commands = sum_of(&quotas);
        let (line, taker, own) = Line::new(
            alloc,
            choose_places(places, commands) as usize,
            &quotas,
        )?;
        let Ok(renderer) = LiveRenderer::new(alloc, taker, Engine::One, commands as usize) else {
            return Err(AllocError);
        };
        let ends = Vec::with_capacity(alloc, scripts.len())?;
        let players = new_players(alloc, &line, own, scripts)?;
        let cast = Cast {
            line,
            renderer,
            players,
            ends,
        };
        Ok(Setup {
            cast,
            blocks,
            commands,
        })
    }
}
