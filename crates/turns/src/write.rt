//! What is made in a turn is appended to the two files.
ghost use Rattle.std.specs.Prelude.{◌≡◌, ◌≢◌, All, IfErr, OnOk, OnErr, option_map};
ghost use Rattle.command_set.specs.Command.{IsInRange};
ghost use Rattle.command_set.specs.Entries.{journal_data};
ghost use Rattle.outside.specs.Files.{Lacks, AppendedSome, appended};
ghost use Rattle.outside.specs.Faults.{HasCause, HasFailed};
ghost use Rattle.turns.specs.Steps.{block_before};
ghost use Rattle.turns.specs.Written.{Blames, HoldsNothing, order_lines};

use crate::target::Target;
use command_set::{LineText, Logged};
use outside::{Shelf, append_all, write_out};
use take_files::{order_line, wav_block};

/// Appends the block before a turn, where there is one.
pub(crate) fn write_block<S: Shelf>(
    t: u32,
    samples: &[i16; 64],
    shelf: &mut S,
    sound: &str,
) -> Result<(), Target>
    requires { ¬ (Lacks (S.files shelf.old) sound.now) }
    ensures all { OnOk result (S.files shelf.new ≡ option_map (appended sound.now (block_before t samples.now)) (S.files shelf.old)) }
    ensures some { OnErr result (AppendedSome sound.now (block_before t samples.now) (S.files shelf.old) (S.files shelf.new)) }
    ensures cause { HasCause (S.writing shelf.old) (S.writing shelf.new) (S.reading shelf.old) (S.reading shelf.new) ⊥ result }
    ensures reads { S.reads shelf.new ≡ S.reads shelf.old }
    ensures failed_kept { OnOk result (S.failed shelf.new ≡ S.failed shelf.old) }
    ensures failed_name { OnErr result (HasFailed sound.now (S.failed shelf.old) (S.failed shelf.new)) }
    ensures target { IfErr result (λ target. target ≡ Target.Sound) }
{
    if t == 0 {
        return Ok(());
    }
    match append_all(shelf, sound, &wav_block(samples)) {
        Ok(()) => Ok(()),
        Err(_) => Err(Target::Sound),
    }
}

/// Appends the lines of entries.
pub(crate) fn write_lines<S: Shelf>(
    entries: &[Logged],
    shelf: &mut S,
    order: &str,
) -> Result<(), Target>
    requires told { ¬ (Lacks (S.files shelf.old) order.now) }
    requires range { All (λ l. IsInRange l.entry.command) (journal_data entries.now) }
    ensures all { OnOk result (S.files shelf.new ≡ option_map (appended order.now (order_lines (journal_data entries.now))) (S.files shelf.old)) }
    ensures some { OnErr result (AppendedSome order.now (order_lines (journal_data entries.now)) (S.files shelf.old) (S.files shelf.new)) }
    ensures cause { HasCause (S.writing shelf.old) (S.writing shelf.new) (S.reading shelf.old) (S.reading shelf.new) ⊥ result }
    ensures reads { S.reads shelf.new ≡ S.reads shelf.old }
    ensures failed_kept { OnOk result (S.failed shelf.new ≡ S.failed shelf.old) }
    ensures failed_name { OnErr result (HasFailed order.now (S.failed shelf.old) (S.failed shelf.new)) }
    ensures target { IfErr result (λ target. target ≡ Target.Order) }
{
    for logged in entries {
        let mut text = LineText::new();
        order_line(logged, &mut text);
        match append_all(shelf, order, text.as_slice()) {
            Ok(()) => {}
            Err(_) => return Err(Target::Order),
        }
    }
    Ok(())
}

/// Has the shelf write out what it holds back of the two files.
pub(crate) fn write_out_both<S: Shelf>(
    shelf: &mut S,
    sound: &str,
    order: &str,
) -> Result<(), Target>
    requires differ { sound.now ≢ order.now }
    requires has_sound { ¬ (Lacks (S.files shelf.old) sound.now) }
    requires has_order { ¬ (Lacks (S.files shelf.old) order.now) }
    ensures files { S.files shelf.new ≡ S.files shelf.old }
    ensures cause { HasCause (S.writing shelf.old) (S.writing shelf.new) (S.reading shelf.old) (S.reading shelf.new) ⊥ result }
    ensures reads { S.reads shelf.new ≡ S.reads shelf.old }
    ensures blames { Blames result sound.now order.now (S.failed shelf.old) (S.failed shelf.new) }
    ensures written_out { OnOk result (HoldsNothing (S.held shelf.new) sound.now order.now) }
{
    match write_out(shelf, sound) {
        Ok(()) => {}
        Err(_) => return Err(Target::Sound),
    }
    match write_out(shelf, order) {
        Ok(()) => Ok(()),
        Err(_) => Err(Target::Order),
    }
}
