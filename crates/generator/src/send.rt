//! The commands that are due at a block, sent to a world.

ghost use Rattle.std.specs.Prelude.{ℕ, ◌≡◌, ◌+◌, ◌<◌, ◌≤◌, OnOk};
ghost use Rattle.schedule_core.specs.Core.{Send, step};
ghost use Rattle.generator.specs.Generated.{command, due};
ghost use Rattle.generator.specs.Scripts.{IsGenerated, AreBefore};
ghost use Rattle.generator.specs.Playing.{CanSend, HasSentTo, IsInBlock};

use crate::script::GeneratedScript;
use schedule_core::{World, WorldRefusal};
use std::alloc::{AllocError, Global};

/// Sends the commands of four scripts, up to 25,000 of each, that are due at a block or before, in order of scripts.
pub(crate) fn send_all_due(
    alloc: Global,
    world: &mut World,
    scripts: &mut [GeneratedScript; 4],
    commands: u32,
    block: u32,
) -> Result<(), AllocError>
    requires few { commands ≤ 25000 }
    requires ready { (seed : ℕ) × IsInBlock seed commands block 0 scripts.old world.old }
    ensures { (seed : ℕ) →
        IsInBlock seed commands block 0 scripts.old world.old → OnOk result (IsInBlock seed commands block 4 scripts.new world.new) }
{
    for number in 0..4u32 {
        let mut script = scripts[number as usize];
        send_due(alloc, world, number, &mut script, commands, block)?;
        scripts[number as usize] = script;
    }
    Ok(())
}

/// Sends the commands of a script that are due at a block or before.
fn send_due(
    alloc: Global,
    world: &mut World,
    number: u32,
    script: &mut GeneratedScript,
    commands: u32,
    block: u32,
) -> Result<(), AllocError>
    requires few { commands ≤ 25000 }
    requires ready { (seed : ℕ) × CanSend number seed commands script.old world.old }
    ensures sent { (seed : ℕ) →
        CanSend number seed commands script.old world.old
        → OnOk result (HasSentTo world.old number seed commands script.old.count script.new world.new) }
    ensures before { (seed : ℕ) →
        IsGenerated seed script.old → AreBefore seed commands block script.old.count
        → OnOk result (AreBefore seed commands (block + 1) script.new.count) }
    ensures count { OnOk result (script.old.count ≤ script.new.count) }
{
    while script.count < commands && script.due <= block {
        send_next(alloc, world, number, script, commands)?;
    }
    Ok(())
}

/// Sends the next command of a script. The line has room for it.
fn send_next(
    alloc: Global,
    world: &mut World,
    number: u32,
    script: &mut GeneratedScript,
    commands: u32,
) -> Result<(), AllocError>
    requires few { commands ≤ 25000 }
    requires one { script.old.count < commands }
    requires ready { (seed : ℕ) × CanSend number seed commands script.old world.old }
    ensures sent { (seed : ℕ) →
        CanSend number seed commands script.old world.old
        → OnOk result (world.new ≡ step world.old (Send number (due seed script.old.count) (command seed script.old.count))) }
    ensures can { (seed : ℕ) →
        CanSend number seed commands script.old world.old → OnOk result (CanSend number seed commands script.new world.new) }
    ensures generated { (seed : ℕ) → IsGenerated seed script.old → IsGenerated seed script.new }
    ensures count { script.new.count ≡ script.old.count + 1 }
{
    let due = script.due;
    let command = script.next_command();
    match world.send(alloc, number, due, command) {
        Ok(_seq) => Ok(()),
        Err(WorldRefusal::Full(_command)) => unreachable!(),
        Err(WorldRefusal::Memory(_command)) => Err(AllocError),
    }
}
