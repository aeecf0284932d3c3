//! A script: commands, each with the block that it is due at.

ghost use Rattle.std.specs.Prelude.{◌≡◌, ◌++◌, ◌≤◌, ◌<◌, ◌^◌, ◌∷◌, [], ◌↔◌, IsTrue, OnOk, OnErr, IfSome, IfNone, length};
ghost use Rattle.command_set.specs.Command.{content, IsInRange};
ghost use Rattle.script_plan.specs.Plan.{planned_at, first_due, last_due, IsPlan};

use command_set::Command;
use std::alloc::{AllocError, Global};
use std::collections::VecDeque;
use std::marker::Model;

/// A command and the block that it is due at.
#[derive(Drop)]
pub struct Planned {
    pub due: u32,
    pub command: Command,
}

/// Commands in the order in which they are due. Contracts see the list of them, which is always a plan: the blocks don't fall, and each command is
/// in range.
#[derive(Drop)]
pub struct Script {
    commands: VecDeque<Planned>,
}

impl Model for Script {
    ghost use Rattle.std.specs.Prelude.{List};
    ghost use Rattle.script_plan.specs.Plan.{PlannedData, plan_data, IsPlan};

    ghost Value = { List PlannedData };

    ghost view = { λ s. plan_data s.commands.items };

    ghost invariant = { λ s. IsPlan (plan_data s.commands.items) };
}

impl Script {
    /// A script without commands, which takes no memory.
    pub fn new(alloc: Global) -> Script
        ensures { result ≡ [] }
    {
        Script {
            commands: VecDeque::new(alloc),
        }
    }

    /// Adds a command at the end, due at the last command's block or later.
    ///
    /// The one error is want of memory, and then the script is as before.
    pub fn push(&mut self, due: u32, command: Command) -> Result<(), AllocError>
        requires command { IsInRange (content command) }
        requires due { last_due self.old ≤ due }
        ensures ok { OnOk result (self.new ≡ self.old ++ planned_at due (content command) ∷ []) }
        ensures err { OnErr result (self.new ≡ self.old) }
        ensures plan { IsPlan self.new }
    {
        match self.commands.push_back(Planned { due, command }) {
            Ok(()) => Ok(()),
            Err(_) => Err(AllocError),
        }
    }

    /// Takes the first command out, with the block that it is due at; `None` exactly where there is none.
    pub fn pop(&mut self) -> Option<(u32, Command)>
        ensures some { IfSome result (λ r. self.old ≡ planned_at r.0 (content r.1) ∷ self.new) }
        ensures none { IfNone result ((self.old ≡ []) × (self.new ≡ [])) }
        ensures was { IsPlan self.old }
        ensures plan { IsPlan self.new }
    {
        let planned = self.commands.pop_front()?;
        Some((planned.due, planned.command))
    }

    /// How many commands it has.
    pub fn len(&self) -> usize
        ensures len { result ≡ length self.now }
        ensures small { result < 2 ^ 63 }
        ensures plan { IsPlan self.now }
    {
        self.commands.len()
    }

    /// Whether it has no command.
    pub fn is_empty(&self) -> bool
        ensures { IsTrue result ↔ (self.now ≡ []) }
    {
        self.commands.is_empty()
    }

    /// The block that the first command is due at; `None` exactly where there is no command.
    pub fn next_due(&self) -> Option<u32>
        ensures due { result ≡ first_due self.now }
        ensures plan { IsPlan self.now }
    {
        match self.commands.front() {
            Some(planned) => Some(planned.due),
            None => None,
        }
    }

    /// The block that the last command is due at, or 0 where there is none.
    pub fn last_due(&self) -> u32
        ensures due { result ≡ last_due self.now }
        ensures plan { IsPlan self.now }
    {
        match self.commands.back() {
            Some(planned) => planned.due,
            None => 0,
        }
    }
}
