//! Each line of a fault, put whole or as far as the output accepted it.

ghost use Rattle.fault_lines.specs.Lines.{Says, cannot_read, cannot_write, limit_commands, limit_file, out_of_memory};

use crate::outputs::put_three;
use outside::{Out, put_all};

/// Puts a line, or a prefix of it where the output fails.
pub fn say<O: Out>(out: &mut O, line: &[u8])
    ensures { Says line.now (O.written out.old) (O.written out.new) (O.faults out.old) (O.faults out.new) }
{
    let _ = put_all(out, line);
}

/// A file is longer than its limit.
#[tactic(auto, unfolding(crate::specs::Lines::limit_file))]
pub fn say_limit_file<O: Out>(out: &mut O)
    ensures { Says limit_file (O.written out.old) (O.written out.new) (O.faults out.old) (O.faults out.new) }
{
    say(out, b"limit file\n");
}

/// There are more commands than a run may have.
#[tactic(auto, unfolding(crate::specs::Lines::limit_commands))]
pub fn say_limit_commands<O: Out>(out: &mut O)
    ensures { Says limit_commands (O.written out.old) (O.written out.new) (O.faults out.old) (O.faults out.new) }
{
    say(out, b"limit commands\n");
}

/// Memory was wanting.
#[tactic(auto, unfolding(crate::specs::Lines::out_of_memory))]
pub fn say_out_of_memory<O: Out>(out: &mut O)
    ensures { Says out_of_memory (O.written out.old) (O.written out.new) (O.faults out.old) (O.faults out.new) }
{
    say(out, b"out of memory\n");
}

/// A file could not be read.
#[tactic(auto, unfolding(crate::specs::Lines::cannot_read))]
pub fn say_cannot_read<O: Out>(out: &mut O, name: &str)
    ensures { Says (cannot_read name.now) (O.written out.old) (O.written out.new) (O.faults out.old) (O.faults out.new) }
{
    let bytes = name.as_bytes();
    let _ = put_three(out, b"cannot read ", bytes, b"\n");
}

/// A file could not be written.
#[tactic(auto, unfolding(crate::specs::Lines::cannot_write))]
pub fn say_cannot_write<O: Out>(out: &mut O, name: &str)
    ensures { Says (cannot_write name.now) (O.written out.old) (O.written out.new) (O.faults out.old) (O.faults out.new) }
{
    let bytes = name.as_bytes();
    let _ = put_three(out, b"cannot write ", bytes, b"\n");
}
