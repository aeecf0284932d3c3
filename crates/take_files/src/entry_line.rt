//! The line of an entry of an order, read: four numbers and the text of a command.

ghost use Rattle.std.specs.Prelude.{ℕ, List, ◌≡◌, ◌≢◌, ◌≤◌, ◌<◌, ◌^◌, Err, IfNone, IfOk, IfSome, length};
ghost use Rattle.command_set.specs.Entries.{LoggedData, logged_data};
ghost use Rattle.command_set.specs.declared.read.TextFault.TheVariants.{NotCommand};
ghost use Rattle.take_files.specs.Files.{entry_text};
ghost use Rattle.take_files.specs.Orders.{IsWritable};
ghost use Rattle.take_files.specs.OrderSoFar.{numbered};

use crate::line_prefix::number_before;
use command_set::{Command, Entry, Logged, TextFault};
use std::alloc::Global;

/// The most bytes of a line.
pub(crate) const LINE_LIMIT: usize = 8256;

/// The numbers of a line: the block, the block at which the command was due, its script, and its place there.
#[derive(Clone, Copy)]
struct Numbers {
    block: u32,
    due: u32,
    script: u32,
    seq: u32,
}

/// The entry of a line, which is given without its line feed. `NotCommand` stands for a line of another form.
#[tactic(auto, using(crate::proofs::Lengths::entry_short))]
pub(crate) fn read_entry(alloc: Global, line: &[u8]) -> Result<Logged, TextFault>
    ensures writable { IfOk result (λ l. IsWritable (logged_data l)) }
    ensures read { IfOk result (λ l. entry_text (logged_data l) ≡ line.now) }
    ensures refused { result ≡ Err NotCommand → (l : LoggedData) → IsWritable l → entry_text l ≢ line.now }
{
    if line.len() > LINE_LIMIT {
        return Err(TextFault::NotCommand);
    }
    let Some((numbers, text)) = read_numbers(line) else {
        return Err(TextFault::NotCommand);
    };
    match Command::read_text(alloc, text) {
        Ok(command) => Ok(Logged {
            block: numbers.block,
            entry: Entry {
                script: numbers.script,
                seq: numbers.seq,
                sent_at: numbers.due,
                command,
            },
        }),
        Err(fault) => Err(fault),
    }
}

/// The numbers with which a line begins, and the text after them.
fn read_numbers(line: &[u8]) -> Option<(Numbers, &[u8])>
    ensures read { IfSome result (λ r. line.now ≡ numbered r.0.block r.0.due r.0.script r.0.seq r.1.now) }
    ensures shorter { IfSome result (λ r. length r.1.now ≤ length line.now) }
    ensures none { IfNone result ((block due script seq : ℕ) (more : List ℕ) → block < 2 ^ 32 → due < 2 ^ 32 → script < 2 ^ 32
        → seq < 2 ^ 32 → line.now ≢ numbered block due script seq more) }
{
    let (block, line) = number_before(line, 0, u32::MAX)?;
    let (due, line) = number_before(line, 0, u32::MAX)?;
    let (script, line) = number_before(line, 0, u32::MAX)?;
    let (seq, line) = number_before(line, 0, u32::MAX)?;
    let numbers = Numbers {
        block,
        due,
        script,
        seq,
    };
    Some((numbers, line))
}
