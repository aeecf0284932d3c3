//! Why a command fails before it writes, and what is told then.

ghost use Rattle.std.specs.Prelude.{◌≡◌};
ghost use Rattle.fault_lines.specs.Lines.{Says};
ghost use Rattle.tool_core.specs.Failures.{line_of, status_of};
ghost use Rattle.tool_core.specs.Lines as lines;
ghost use Rattle.tool_core.specs.declared.failure.Failure.TheVariants.{Memory};

use crate::output_line::refusal_line;
use crate::refusal::Refusal;
use fault_lines::{say, say_cannot_read, say_limit_commands, say_limit_file, say_out_of_memory};
use outside::Out;
use std::alloc::AllocError;

/// Why a command fails before it writes.
#[derive(Clone, Copy, Debug, PartialEq, Eq)]
pub(crate) enum Failure {
    /// A file can't be read.
    Unread,
    /// It has too many bytes.
    TooLarge,
    /// It has too many entries.
    TooMany,
    /// It is refused for what it holds.
    Refused(Refusal),
    /// Memory is wanting.
    Memory,
}

impl From<AllocError> for Failure {
    ghost from_gives = { λ _ e. e ≡ Memory };

    fn from(_: AllocError) -> Self {
        Failure::Memory
    }
}

/// Puts the line of a failure, and answers its status.
pub(crate) fn refuse<O: Out>(out: &mut O, name: &str, why: Failure) -> u8
    ensures status { result ≡ status_of why }
    ensures line { Says (line_of why name.now) (O.written out.old) (O.written out.new) (O.faults out.old) (O.faults out.new) }
{
    match why {
        Failure::Unread => {
            say_cannot_read(out, name);
            2
        }
        Failure::TooLarge => {
            say_limit_file(out);
            6
        }
        Failure::TooMany => {
            say_limit_commands(out);
            6
        }
        Failure::Refused(why) => {
            say_refusal(out, why);
            4
        }
        Failure::Memory => {
            say_out_of_memory(out);
            8
        }
    }
}

/// Puts the line that shows how the program is used.
#[tactic(auto, unfolding(crate::specs::Lines::usage))]
pub(crate) fn say_usage<O: Out>(out: &mut O)
    ensures { Says lines.usage (O.written out.old) (O.written out.new) (O.faults out.old) (O.faults out.new) }
{
    say(out, b"usage: tool COMMAND WORDS...\n");
}

/// Puts the line of a refusal.
pub(crate) fn say_refusal<O: Out>(out: &mut O, why: Refusal)
    ensures { Says (lines.refusal_line why) (O.written out.old) (O.written out.new) (O.faults out.old) (O.faults out.new) }
{
    let line = refusal_line(why);
    say(out, line.as_slice());
}
