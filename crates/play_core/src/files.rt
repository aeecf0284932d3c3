//! The two files, made with their first bytes.
ghost use Rattle.std.specs.Prelude.{◌≡◌, ◌≢◌, OnOk, IfErr, option_map};
ghost use Rattle.outside.specs.Faults.{HasCause};
ghost use Rattle.turns.specs.Written.{Blames};
ghost use Rattle.play_core.specs.Files.{with_two, IsStopped};

use outside::{Shelf, append_all};
use turns::Target;

/// Makes both files empty, and appends their bytes.
pub(crate) fn write_files<S: Shelf>(
    shelf: &mut S,
    out: &str,
    order: &str,
    sound: &[u8],
    text: &[u8],
) -> Result<(), Target>
    requires { out.now ≢ order.now }
    ensures whole { OnOk result (S.files shelf.new ≡ option_map (with_two out.now sound.now order.now text.now) (S.files shelf.old)) }
    ensures stopped { IfErr result (λ target. IsStopped target (S.files shelf.old) (S.files shelf.new) out.now sound.now order.now text.now) }
    ensures cause { HasCause (S.writing shelf.old) (S.writing shelf.new) (S.reading shelf.old) (S.reading shelf.new) ⊥ result }
    ensures blames { Blames result out.now order.now (S.failed shelf.old) (S.failed shelf.new) }
{
    match shelf.create(out) {
        Ok(()) => {}
        Err(_) => return Err(Target::Sound),
    }
    match shelf.create(order) {
        Ok(()) => {}
        Err(_) => return Err(Target::Order),
    }
    match append_all(shelf, out, sound) {
        Ok(()) => {}
        Err(_) => return Err(Target::Sound),
    }
    match append_all(shelf, order, text) {
        Ok(()) => Ok(()),
        Err(_) => Err(Target::Order),
    }
}
