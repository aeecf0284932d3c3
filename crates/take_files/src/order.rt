//! The order file, written.

ghost use Rattle.std.specs.Prelude.{◌≡◌, ◌≤◌, ◌+◌, All, length, IfOk};
ghost use Rattle.command_set.specs.Command.{IsInRange, content};
ghost use Rattle.command_set.specs.Entries.{journal_data, logged_data};
ghost use Rattle.take_files.specs.Files as files;

use command_set::{LineText, Logged};
use instrument::Engine;
use plain_text::{push_number, push_text};
use std::alloc::{AllocError, Global};

/// Writes the first line of an order, with its line feed, in the place of the text.
#[tactic(auto, unfolding(crate::specs::Files::order_header))]
pub fn order_header(engine: Engine, blocks: u32, scripts: u32, into: &mut LineText)
    ensures { into.new.items ≡ files.order_header blocks scripts }
{
    into.clear();
    match engine {
        Engine::One => push_text(into, b"order engine 1 blocks "),
    }
    push_number(into, blocks);
    push_text(into, b" scripts ");
    push_number(into, scripts);
    push_text(into, b"\n");
}

/// Writes the line `BLOCK DUE SCRIPT SEQ TEXT` of an entry whose command is in range, with its line feed, in the place of the text.
#[tactic(auto, unfolding(crate::specs::Files::order_line))]
pub fn order_line(logged: &Logged, into: &mut LineText)
    requires { IsInRange (content logged.now.entry.command) }
    ensures { into.new.items ≡ files.order_line (logged_data logged.now) }
{
    into.clear();
    push_number(into, logged.block);
    push_text(into, b" ");
    push_number(into, logged.entry.sent_at);
    push_text(into, b" ");
    push_number(into, logged.entry.script);
    push_text(into, b" ");
    push_number(into, logged.entry.seq);
    push_text(into, b" ");
    logged.entry.command.write_text(into);
    push_text(into, b"\n");
}

/// The bytes of the order file of a journal whose commands are in range.
#[tactic(auto, unfolding(crate::specs::Files::order))]
pub fn order_file(
    alloc: Global,
    engine: Engine,
    journal: &[Logged],
    blocks: u32,
    scripts: u32,
) -> Result<Vec<u8>, AllocError>
    requires { All (λ l. IsInRange (content l.entry.command)) journal.now }
    ensures { IfOk result (λ text. text.items ≡ files.order (journal_data journal.now) blocks scripts) }
{
    let mut line = LineText::new();
    order_header(engine, blocks, scripts, &mut line);
    let mut text = Vec::new(alloc);
    text.extend_from_slice(line.as_slice())?;
    for logged in journal {
        order_line(logged, &mut line);
        text.extend_from_slice(line.as_slice())?;
    }
    Ok(text)
}
