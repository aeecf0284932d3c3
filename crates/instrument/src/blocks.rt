//! The blocks of sixteen slots are run: their feedback paths side by side, then the other operators note by note.

ghost use Rattle.std.specs.Prelude.{◌≡◌, ◌<◌, ◌^◌, ℕ, ℤ};
ghost use Rattle.algorithm_bus.specs.declared.note_block.NoteBlock.{NoteBlock};
ghost use Rattle.note_voice.specs.Mix.{IsAdded, IsSmall};
ghost use Rattle.instrument.specs.Blocks.{AreLeft, AreOutputs, sum_to};

use algorithm_bus::{NoteBlock, run_paths};
use dx_tables::Tables;
use note_voice::sound_routed;
use operator_kernel::Scratch;

/// Runs the blocks of all slots and adds up their samples.
pub(crate) fn run_all(tables: &Tables, blocks: &mut [NoteBlock; 16], mix: &mut [i64; 64])
    requires { IsSmall 0 mix.old }
    ensures left { AreLeft blocks.old blocks.new }
    ensures samples { (y : ℕ → ℕ → ℤ) → AreOutputs blocks.old y → IsAdded (sum_to y 16) mix.old mix.new }
{
    let mut fed = [[0i32; 64]; 16];
    let mut scratch = Scratch::new();
    run_paths(tables, blocks, &mut fed);
    for k in 0..16usize {
        sound_routed(tables, &mut scratch, &blocks[k], &fed[k], mix);
    }
}
