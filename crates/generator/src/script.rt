//! A script whose commands are generated one after the other.

ghost use Rattle.std.specs.Prelude.{ℕ, ◌≡◌, ◌+◌, ◌*◌, ◌<◌, ◌≤◌};
ghost use Rattle.command_set.specs.Command.{IsInRange, content};
ghost use Rattle.generator.specs.Lcg.{state};
ghost use Rattle.generator.specs.Generated.{command, command_at, numbers_at, script_seed};

use crate::lcg::Lcg;
use command_set::Command;
use voice_record::parameter::ALGORITHM;

/// A script whose commands are generated one after the other: how many were generated, and the block at which the next one is due.
#[derive(Clone, Copy)]
pub(crate) struct GeneratedScript {
    pub(crate) lcg: Lcg,
    pub(crate) count: u32,
    pub(crate) due: u32,
    ghost early: { due ≤ 7 * (count + 1) },
}

impl GeneratedScript {
    ghost use Rattle.generator.specs.Scripts.{IsGenerated};

    /// A script before its first command.
    pub(crate) fn new(seed: u64, script: u32) -> GeneratedScript
        ensures none { result.count ≡ 0 }
        ensures generated { IsGenerated (script_seed seed script) result }
    {
        let mut lcg = Lcg::of_script(seed, script);
        let due = u32::from(lcg.next_below(8));
        GeneratedScript { lcg, count: 0, due }
    }

    /// Generates the next command, and the block at which the one after it is due.
    pub(crate) fn next_command(&mut self) -> Command
        requires { self.old.count < 1000000 }
        ensures count { self.new.count ≡ self.old.count + 1 }
        ensures range { IsInRange (content result) }
        ensures command { (seed : ℕ) → IsGenerated seed self.old → content result ≡ command seed self.old.count }
        ensures generated { (seed : ℕ) → IsGenerated seed self.old → IsGenerated seed self.new }
    {
        let mut lcg = self.lcg;
        let command = generate_command(&mut lcg);
        let later = lcg.next_below(8);
        *self = GeneratedScript {
            lcg,
            count: self.count + 1,
            due: self.due + u32::from(later),
        };
        command
    }
}

/// Of eight kinds those below this one are notes.
const FIRST_RELEASE: u8 = 4;

/// Those from the first release on and below this one are releases, and the others set the algorithm.
const FIRST_ALGORITHM: u8 = 7;

/// Generates a command's kind and its numbers.
fn generate_command(lcg: &mut Lcg) -> Command
    ensures range { IsInRange (content result) }
    ensures command { (seed index : ℕ) → lcg.old.state ≡ state seed (index + 1) → content result ≡ command_at seed index }
    ensures state { (seed index : ℕ) → lcg.old.state ≡ state seed (index + 1) → lcg.new.state ≡ state seed (index + numbers_at seed index) }
{
    let kind = lcg.next_below(8);
    if kind < FIRST_RELEASE {
        let key = lcg.next_below(60);
        let velocity = lcg.next_below(127);
        Command::NoteOn {
            channel: 0,
            key: 36 + key,
            velocity: 1 + velocity,
        }
    } else if kind < FIRST_ALGORITHM {
        let key = lcg.next_below(60);
        Command::NoteOff {
            channel: 0,
            key: 36 + key,
        }
    } else {
        let algorithm = lcg.next_below(32);
        Command::Param {
            number: ALGORITHM,
            value: algorithm,
        }
    }
}
