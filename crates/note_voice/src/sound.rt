//! Blocks of notes are run and added to a sum.

ghost use Rattle.std.specs.Prelude.{◌≡◌, ◌+◌, ◌*◌, ◌^◌, ◌+ℤ◌, ℕ};
ghost use Rattle.operator_kernel.specs.Operator.{feedback_state_of};
ghost use Rattle.algorithm_bus.specs.Signals.{feedback_state_left, note_output};
ghost use Rattle.algorithm_bus.specs.NoteBlocks.{HasRunPath, block_input};
ghost use Rattle.algorithm_bus.specs.declared.note_block.NoteBlock.{NoteBlock};
ghost use Rattle.note_voice.specs.Mix.{IsAdded, IsSmall};

use crate::mix::add;
use algorithm_bus::{NoteBlock, silence};
use dx_tables::Tables;
use operator_kernel::Scratch;

/// Runs a note's block and adds its samples to a sum of notes whose values are at most 2^40 in size. Where no carrier sounds
/// there is nothing to add.
pub fn sound_alone(tables: &Tables, block: &mut NoteBlock, mix: &mut [i64; 64])
    requires { IsSmall (2 ^ 40) mix.old }
    ensures samples { IsAdded (note_output (block_input block.old)) mix.old mix.new }
    ensures small { (bound : ℕ) → IsSmall bound mix.old → IsSmall (bound + 2 ^ 31) mix.new }
    ensures feedback_state { feedback_state_of block.new.feedback_state ≡ feedback_state_left (block_input block.old) }
{
    if block.is_audible() {
        let mut bus = [0i32; 64];
        block.run(tables, &mut bus);
        add(&bus, mix);
    } else {
        block.pass_inaudible(tables);
    }
}

/// The same for a block whose feedback path was run by `run_paths` of `algorithm_bus`, where `fed` are that path's samples. `scratch` is room
/// that a caller keeps from one block to the next.
pub fn sound_routed(
    tables: &Tables,
    scratch: &mut Scratch,
    block: &NoteBlock,
    fed: &[i32; 64],
    mix: &mut [i64; 64],
)
    requires { IsSmall (2 ^ 40) mix.old }
    ensures samples { (before : NoteBlock) → HasRunPath before block.now fed.now → IsAdded (note_output (block_input before)) mix.old mix.new }
    ensures small { (bound : ℕ) → IsSmall bound mix.old → IsSmall (bound + 2 ^ 31) mix.new }
{
    if !block.is_audible() {
        return;
    }
    let mut bus = silence();
    block.run_routed(tables, scratch, fed, &mut bus);
    add(&bus, mix);
}
