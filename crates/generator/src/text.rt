//! The text of a generated script.

ghost use Rattle.std.specs.Prelude.{◌≡◌, ◌≤◌, ◌<◌, ◌++◌, [], ◌∷◌, IfOk, decimal, length};
ghost use Rattle.plain_text.specs.Split.{spaced};
ghost use Rattle.command_set.specs.Command.{IsInRange, content};
ghost use Rattle.command_set.specs.Text.{text};
ghost use Rattle.generator.specs.Generated.{generated_text};

use crate::script::GeneratedScript;
use command_set::{Command, LineText};
use plain_text::{push_number, push_text};
use std::alloc::{AllocError, Global};

/// A script of so many generated commands, up to 100,000: the line `midi 1`, and a line for each.
///
/// The one error is want of memory.
pub fn script_text(
    alloc: Global,
    seed: u64,
    script: u32,
    commands: u32,
) -> Result<Vec<u8>, AllocError>
    requires { commands ≤ 100000 }
    ensures { IfOk result (λ text. text.items ≡ generated_text seed script commands) }
{
    let mut generated = GeneratedScript::new(seed, script);
    let mut line = LineText::new();
    let mut text = Vec::new(alloc);
    text.extend_from_slice(b"midi 1\n")?;
    for _turn in 0..commands {
        let due = generated.due;
        let command = generated.next_command();
        write_line(due, &command, &mut line);
        text.extend_from_slice(line.as_slice())?;
    }
    Ok(text)
}

/// Writes the line of a command that is due at a block, with its line feed, in place of the text there.
fn write_line(due: u32, command: &Command, into: &mut LineText)
    requires { IsInRange (content command.now) }
    ensures { into.new.items ≡ spaced (decimal due) (text (content command.now) ∷ []) ++ 10 ∷ [] }
{
    into.clear();
    push_number(into, due);
    push_text(into, b" ");
    command.write_text(into);
    push_text(into, b"\n");
}
