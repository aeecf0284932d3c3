//! A report that is put page by page, so that it asks for no memory.

ghost use Rattle.std.specs.Prelude.{ℕ, ◌≡◌, ◌≤◌, ◌+◌, [], ◌++◌, List, Option, length, OnOk, OnErr};
ghost use Rattle.outside.specs.Faults.{HasCause};
ghost use Rattle.tool_core.specs.Pages.{FailsIn, Holds};

use arrayvec::ArrayVec;
use outside::{Failed, Out, put_all};

/// Lines that are not put yet.
pub(crate) type Page = ArrayVec<u8, 4096>;

/// Holds the page, and empties it.
pub(crate) fn put_page<O: Out>(out: &mut O, page: &mut Page) -> Result<(), Failed>
    ensures ok { OnOk result ((before : Option (List ℕ)) (text : List ℕ) → Holds before (O.written out.old) page.old.items text
        → Holds before (O.written out.new) [] text) }
    ensures empty { OnOk result (page.new.items ≡ []) }
    ensures err { OnErr result ((before : Option (List ℕ)) (text : List ℕ) → Holds before (O.written out.old) page.old.items text
        → FailsIn text before (O.written out.new)) }
    ensures cause { HasCause (O.faults out.old) (O.faults out.new) 0 0 ⊥ result }
{
    match put_all(out, page.as_slice()) {
        Ok(()) => {
            page.clear();
            Ok(())
        }
        Err(failed) => Err(failed),
    }
}

/// Makes room on the page for some more bytes.
fn make_room<O: Out>(out: &mut O, page: &mut Page, count: usize) -> Result<(), Failed>
    requires { count ≤ 128 }
    ensures ok { OnOk result ((before : Option (List ℕ)) (text : List ℕ) → Holds before (O.written out.old) page.old.items text
        → Holds before (O.written out.new) page.new.items text) }
    ensures room { OnOk result (length page.new.items + count ≤ 4096) }
    ensures err { OnErr result ((before : Option (List ℕ)) (text : List ℕ) → Holds before (O.written out.old) page.old.items text
        → FailsIn text before (O.written out.new)) }
    ensures cause { HasCause (O.faults out.old) (O.faults out.new) 0 0 ⊥ result }
{
    if count > 4096 - page.len() {
        put_page(out, page)
    } else {
        Ok(())
    }
}

/// Adds a line to the report.
pub(crate) fn put_line<O: Out>(out: &mut O, page: &mut Page, line: &[u8]) -> Result<(), Failed>
    requires { length line.now ≤ 128 }
    ensures ok { OnOk result ((before : Option (List ℕ)) (text : List ℕ) → Holds before (O.written out.old) page.old.items text
        → Holds before (O.written out.new) page.new.items (text ++ line.now)) }
    ensures err { OnErr result ((before : Option (List ℕ)) (text : List ℕ) → Holds before (O.written out.old) page.old.items text
        → FailsIn text before (O.written out.new)) }
    ensures cause { HasCause (O.faults out.old) (O.faults out.new) 0 0 ⊥ result }
{
    match make_room(out, page, line.len()) {
        Ok(()) => {
            add(page, line);
            Ok(())
        }
        Err(failed) => Err(failed),
    }
}

/// Adds some bytes to the page.
pub(crate) fn add(page: &mut Page, line: &[u8])
    requires { length page.old.items + length line.now ≤ 4096 }
    ensures { page.new.items ≡ page.old.items ++ line.now }
{
    let _ = page.try_extend_from_slice(line);
}
