//! A block of a note, which is run alone or with others.
ghost use Rattle.std.specs.Prelude.{◌≡◌, ◌≤◌, ℕ, ℤ, List, pos, true, false};
ghost use Rattle.operator_kernel.specs.Operator.{feedback_state_of};
ghost use Rattle.operator_kernel.specs.Paths.{IsPath, IsPathRun, no_path};
ghost use Rattle.algorithm_bus.specs.Buses.{HaveGains};

use crate::audible::has_audible_carrier;
use crate::bus::{feed_back, run_note, silence};
use crate::feedback_operator;
use crate::routed::run_routed;
use dx_tables::Tables;
use operator_kernel::{FeedbackPath, OpBlock, Scratch};

/// A block of 64 samples of a note before it is run: the algorithm, 0 to 31, and the feedback, 0 to 7, what operators 1 to 6 do, and the
/// last two samples of the operator with feedback, its feedback state.
#[derive(Clone, Copy)]
pub struct NoteBlock {
    pub algorithm: u8,
    pub feedback: u8,
    pub ops: [OpBlock; 6],
    pub feedback_state: [i32; 2],
    ghost algorithm_in_range: { algorithm ≤ 31 },
    ghost feedback_in_range: { feedback ≤ 7 },
    ghost gains_in_range: { HaveGains ops },
}

impl NoteBlock {
    ghost use Rattle.algorithm_bus.specs.Signals.{BlockInput, feedback_state_left, note_output};
    ghost use Rattle.algorithm_bus.specs.Buses.{IsBus, op_of};
    ghost use Rattle.algorithm_bus.specs.NoteBlocks.{ArePathSamples, HasRunPath, HasSoundingCarrier, KeepsAllButState, block_input, feedback_path};

    /// A block of no note.
    pub fn silent() -> NoteBlock
        ensures { (j : ℕ) → note_output (block_input result) j ≡ pos 0 }
    {
        let op = OpBlock {
            phase: 0,
            freq: 0,
            g1: 0,
            g2: 0,
        };
        NoteBlock {
            algorithm: 0,
            feedback: 0,
            ops: [op; 6],
            feedback_state: [0, 0],
        }
    }

    /// Whether a carrier sounds, that is, isn't silent. Where none does all samples are 0.
    pub fn is_audible(&self) -> bool
        ensures silent { result ≡ false → (j : ℕ) → note_output (block_input self.now) j ≡ pos 0 }
        ensures whatever_state { result ≡ false → (p : BlockInput) → p.algorithm ≡ self.now.algorithm → p.op ≡ op_of self.now.ops
            → (j : ℕ) → note_output p j ≡ pos 0 }
        ensures sounding { result ≡ true → HasSoundingCarrier self.now }
    {
        has_audible_carrier(self.algorithm, &self.ops)
    }

    /// Runs the operator with feedback alone, where nothing is heard of the note: the feedback state becomes its last two samples.
    pub fn pass_inaudible(&mut self, tables: &Tables)
        ensures kept { KeepsAllButState self.old self.new }
        ensures feedback_state { feedback_state_of self.new.feedback_state ≡ feedback_state_left (block_input self.old) }
    {
        let ops = self.ops;
        let _ = feed_back(
            tables,
            self.algorithm,
            self.feedback,
            &ops,
            &mut self.feedback_state,
        );
    }

    /// The same as `run_note`: `out` becomes the sum of the carriers, and the feedback state the last two samples of the operator with feedback.
    pub fn run(&mut self, tables: &Tables, out: &mut [i32; 64])
        ensures kept { KeepsAllButState self.old self.new }
        ensures out { IsBus (note_output (block_input self.old)) out.new }
        ensures feedback_state { feedback_state_of self.new.feedback_state ≡ feedback_state_left (block_input self.old) }
    {
        let ops = self.ops;
        run_note(
            tables,
            self.algorithm,
            self.feedback,
            &ops,
            &mut self.feedback_state,
            out,
        );
    }

    /// The path of the operator with feedback: one that does nothing where the algorithm has none.
    pub(crate) fn path(&self) -> FeedbackPath
        ensures value { result ≡ feedback_path self.now }
        ensures range { IsPath result }
    {
        match feedback_operator(self.algorithm) {
            Some(operator) => FeedbackPath {
                op: self.ops[operator as usize - 1],
                feedback: self.feedback,
                before_last: self.feedback_state[0],
                last: self.feedback_state[1],
            },
            None => no_path(),
        }
    }

    /// Takes the feedback state over from its path, where the algorithm has one.
    pub(crate) fn keep_state(&mut self, path: &FeedbackPath)
        ensures { (samples : List ℤ) → IsPathRun (feedback_path self.old) path.now samples → HasRunPath self.old self.new samples }
    {
        match feedback_operator(self.algorithm) {
            Some(_) => self.feedback_state = [path.before_last, path.last],
            None => {}
        }
    }

    /// Runs the operators of a block whose feedback path was run by `run_paths`, where `fed` are its samples: `out` becomes the sum of the
    /// carriers. `scratch` is room that a caller keeps from one block to the next.
    pub fn run_routed(
        &self,
        tables: &Tables,
        scratch: &mut Scratch,
        fed: &[i32; 64],
        out: &mut [i32; 64],
    )
        ensures { (p : BlockInput) → p.algorithm ≡ self.now.algorithm → p.op ≡ op_of self.now.ops → ArePathSamples p fed.now
            → IsBus (note_output p) out.new }
    {
        let mut first = silence();
        let mut second = silence();
        run_routed(
            tables,
            scratch,
            self.algorithm,
            &self.ops,
            fed,
            &mut first,
            &mut second,
            out,
        );
    }
}

/// A path of an operator that does nothing.
pub(crate) fn no_path() -> FeedbackPath
    ensures value { result ≡ no_path }
    ensures range { IsPath result }
{
    FeedbackPath {
        op: OpBlock {
            phase: 0,
            freq: 0,
            g1: 0,
            g2: 0,
        },
        feedback: 0,
        before_last: 0,
        last: 0,
    }
}
