//! A file that a command writes.

ghost use Rattle.std.specs.Prelude.{ℕ, List, ◌≡◌, ◌≢◌, ◌≤◌, OnOk, OnErr, IfSome, option_map};
ghost use Rattle.std.specs.FinMap.{insert};
ghost use Rattle.outside.specs.Faults.{HasCause};
ghost use Rattle.tool_core.specs.Lines.{ok_line};
ghost use Rattle.outside.specs.Snapshot.{snapshot};
ghost use Rattle.tool_core.specs.Effects.{writes};
ghost use Rattle.tool_core.specs.Endings.{Finishes, Puts};
ghost use Rattle.tool_core.specs.Outcomes.{BeginsOut, WasDone};

use fault_lines::say_cannot_write;
use outside::{Failed, Out, Shelf, append_all, put_all, write_out};

/// Makes the file empty, appends its bytes, and has the shelf write out what it holds back of them.
pub(crate) fn write_whole<S: Shelf>(shelf: &mut S, name: &str, text: &[u8]) -> Result<(), Failed>
    ensures whole { OnOk result (S.files shelf.new ≡ option_map (λ files. insert files name.now text.now) (S.files shelf.old)) }
    ensures begun { OnErr result (IfSome (S.files shelf.old) (λ files. BeginsOut files (S.files shelf.new) name.now text.now)) }
    ensures cause { HasCause (S.writing shelf.old) (S.writing shelf.new) (S.reading shelf.old) (S.reading shelf.new) ⊥ result }
    ensures held { OnOk result (S.held shelf.new name.now ≡ 0) }
    ensures held_of_others { (other : List ℕ) → other ≢ name.now → S.held shelf.new other ≤ S.held shelf.old other }
{
    match shelf.create(name) {
        Ok(()) => {}
        Err(failed) => return Err(failed),
    }
    match append_all(shelf, name, text) {
        Ok(()) => {}
        Err(failed) => return Err(failed),
    }
    match write_out(shelf, name) {
        Ok(()) => Ok(()),
        Err(failed) => Err(failed),
    }
}

/// Puts a text, and answers this status, or 3 where the output fails.
pub(crate) fn put_report<O: Out>(out: &mut O, good: u8, text: &[u8]) -> u8
    ensures { Puts good text.now result (O.written out.old) (O.written out.new) (O.faults out.old) (O.faults out.new) }
{
    match put_all(out, text) {
        Ok(()) => good,
        Err(_) => 3,
    }
}

#[tactic(auto, unfolding(crate::specs::Lines::ok_line))]
pub(crate) fn put_ok<O: Out>(out: &mut O) -> u8
    ensures { Puts 0 ok_line result (O.written out.old) (O.written out.new) (O.faults out.old) (O.faults out.new) }
{
    put_report(out, 0, b"ok\n")
}

/// Writes the file, and then the report.
pub(crate) fn finish<S: Shelf, O: Out>(shelf: &mut S, out: &mut O, name: &str, text: &[u8]) -> u8
    ensures finishes { Finishes (writes name.now text.now) result
        (snapshot (S.files shelf.old) (S.reading shelf.old) (S.writing shelf.old) (O.written out.old) (O.faults out.old))
        (snapshot (S.files shelf.new) (S.reading shelf.new) (S.writing shelf.new) (O.written out.new) (O.faults out.new)) }
    ensures held { WasDone result → S.held shelf.new name.now ≡ 0 }
{
    match write_whole(shelf, name, text) {
        Ok(()) => put_ok(out),
        Err(_) => {
            say_cannot_write(out, name);
            3
        }
    }
}
