//! Pieces of a line, put one after the other to an output that may fail.

ghost use Rattle.std.specs.Prelude.{◌≡◌, ◌⊎◌, ◌++◌, OnOk, OnErr, option_map};
ghost use Rattle.outside.specs.Files.{said, SaidSome};
ghost use Rattle.outside.specs.Faults.{HasCause};

use outside::{Failed, Out, put_all};

/// Puts three pieces one after the other, or a prefix of them where the output fails.
pub(crate) fn put_three<O: Out>(
    out: &mut O,
    before: &[u8],
    name: &[u8],
    after: &[u8],
) -> Result<(), Failed>
    ensures all { OnOk result (O.written out.new ≡ option_map (said (before.now ++ name.now ++ after.now)) (O.written out.old)) }
    ensures some { OnErr result (O.written out.new ≡ O.written out.old
        ⊎ SaidSome (before.now ++ name.now ++ after.now) (O.written out.old) (O.written out.new)) }
    ensures cause { HasCause (O.faults out.old) (O.faults out.new) 0 0 ⊥ result }
{
    put_two(out, before, name)?;
    put_all(out, after)?;
    Ok(())
}

/// The same of two pieces.
fn put_two<O: Out>(out: &mut O, before: &[u8], after: &[u8]) -> Result<(), Failed>
    ensures all { OnOk result (O.written out.new ≡ option_map (said (before.now ++ after.now)) (O.written out.old)) }
    ensures some { OnErr result (O.written out.new ≡ O.written out.old
        ⊎ SaidSome (before.now ++ after.now) (O.written out.old) (O.written out.new)) }
    ensures cause { HasCause (O.faults out.old) (O.faults out.new) 0 0 ⊥ result }
{
    put_all(out, before)?;
    put_all(out, after)?;
    Ok(())
}
