//! The feedback paths of sixteen notes' blocks, which run side by side whatever the notes' algorithms and feedback.
ghost use Rattle.std.specs.Prelude.{◌≡◌, ◌<◌, ℕ, [], slice_index_or};
ghost use Rattle.operator_kernel.specs.Paths.{IsPath, path_at};
ghost use Rattle.algorithm_bus.specs.declared.note_block.NoteBlock.{NoteBlock};
ghost use Rattle.algorithm_bus.specs.NoteBlocks.{HasRunPath, feedback_path};

use crate::NoteBlock;
use crate::note_block::no_path;
use dx_tables::Tables;
use operator_kernel::FeedbackPath;

/// The paths of sixteen blocks.
fn paths_of(blocks: &[NoteBlock; 16]) -> [FeedbackPath; 16]
    ensures value { (k : ℕ) (d : NoteBlock) → k < 16 → path_at result k ≡ feedback_path (slice_index_or blocks.now k d) }
    ensures range { (k : ℕ) → k < 16 → IsPath (path_at result k) }
{
    let mut paths = [no_path(); 16];
    for k in 0..16usize {
        paths[k] = blocks[k].path();
    }
    paths
}

/// Runs the operators with feedback of sixteen blocks: `fed[k]` becomes the samples of block k's, where its algorithm has one, and the
/// block's feedback state their last two. All else of the blocks stays.
pub fn run_paths(tables: &Tables, blocks: &mut [NoteBlock; 16], fed: &mut [[i32; 64]; 16])
    ensures { (k : ℕ) (d e : NoteBlock) → k < 16
        → HasRunPath (slice_index_or blocks.old k d) (slice_index_or blocks.new k e) (slice_index_or fed.new k []) }
{
    let mut paths = paths_of(blocks);
    operator_kernel::run_paths(tables, &mut paths, fed);
    for k in 0..16usize {
        let mut block = blocks[k];
        block.keep_state(&paths[k]);
        blocks[k] = block;
    }
}
