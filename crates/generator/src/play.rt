//! Four generated scripts, played through a world.

ghost use Rattle.std.specs.Prelude.{ℕ, ◌≡◌, ◌<◌, ◌≤◌, length, slice_index_or, IfOk};
ghost use Rattle.generator.specs.Generated.{generated_journal, script_seed, sum_of_samples};
ghost use Rattle.generator.specs.Scripts.{IsGenerated};
ghost use Rattle.generator.specs.declared.script.GeneratedScript.{GeneratedScript};

use crate::samples::add_samples;
use crate::script::GeneratedScript;
use crate::send::send_all_due;
use schedule_core::{Engine, World};
use std::alloc::{AllocError, Global};

/// What was played: how many commands, and the sum of all samples.
#[derive(Clone, Copy)]
pub struct Played {
    pub commands: u32,
    pub sum: i64,
}

/// Plays four generated scripts for up to 100,000 blocks on one thread, through a world of 100,000 places. Each script has a
/// quarter as many commands as there are blocks, and at each block those that are due at it are sent, in order of scripts.
///
/// The one error is want of memory.
pub fn play_generated(alloc: Global, seed: u64, blocks: u32) -> Result<Played, AllocError>
    requires { blocks ≤ 100000 }
    ensures commands { IfOk result (λ played. played.commands ≡ length (generated_journal seed blocks)) }
    ensures sum { IfOk result (λ played. played.sum ≡ sum_of_samples (generated_journal seed blocks) blocks) }
{
    let commands = blocks / 4;
    let mut world = World::new(alloc, 100_000, 4, Engine::One)?;
    let mut scripts = four_scripts(seed);
    let mut sent = 0;
    let mut sum = 0;
    for block in 0..blocks {
        send_all_due(alloc, &mut world, &mut scripts, commands, block)?;
        sent += world.settle(alloc)?;
        let mut samples = [0i16; 64];
        world.render(&mut samples);
        sum = add_samples(sum, &samples);
    }
    Ok(Played {
        commands: sent,
        sum,
    })
}

/// The scripts 0 to 3, before their first commands.
fn four_scripts(seed: u64) -> [GeneratedScript; 4]
    ensures none { (k : ℕ) (d : GeneratedScript) → k < 4 → (slice_index_or result k d).count ≡ 0 }
    ensures generated { (k : ℕ) (d : GeneratedScript) → k < 4 → IsGenerated (script_seed seed k) (slice_index_or result k d) }
{
    [
        GeneratedScript::new(seed, 0),
        GeneratedScript::new(seed, 1),
        GeneratedScript::new(seed, 2),
        GeneratedScript::new(seed, 3),
    ]
}
