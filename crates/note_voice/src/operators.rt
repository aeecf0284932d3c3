//! The six operators of a note.

ghost use Rattle.std.specs.Prelude.{◌≡◌, ◌≤◌, ◌*◌, ◌^◌, ◌+◌, ◌-◌, ◌/◌, ◌%◌, ◌==◌, ℕ, ℤ, length, pos, neg_ℤ, ◌≤ℤ◌, if◌then◌else◌};
ghost use Rattle.operator_kernel.specs.Operator.{HasGains};
ghost use Rattle.algorithm_bus.specs.Audible.{muted};
ghost use Rattle.algorithm_bus.specs.Buses.{HaveGains};
ghost use Rattle.note_voice.specs.Modulation.{Modulation};
ghost use Rattle.note_voice.specs.Note.{NoteData, begun, note_released, after_block, played_note, is_on, operators_in};
ghost use Rattle.note_voice.specs.Running.{AreOperators, IsModulated};

use crate::operator::Operator;
use dx_tables::Tables;
use operator_kernel::OpBlock;
use voice_record::Voice;

/// Whether an operator, 1 to 6, is switched on.
fn is_on(switch: u8, operator: u8) -> bool
    requires { (1 ≤ operator) × (operator ≤ 6) }
    ensures { result ≡ is_on switch operator }
{
    (switch >> (6 - operator)) % 2 == 1
}

/// An operator as it is heard: one that is switched off has no gain.
fn if_on(switch: u8, operator: u8, op: OpBlock) -> OpBlock
    requires operator { (1 ≤ operator) × (operator ≤ 6) }
    requires gains { HasGains op }
    ensures value { result ≡ (if is_on switch operator then op else muted op) }
    ensures gains { HasGains result }
{
    if is_on(switch, operator) {
        op
    } else {
        OpBlock {
            phase: op.phase,
            freq: op.freq,
            g1: 0,
            g2: 0,
        }
    }
}

/// The six operators of a note that begins.
pub(crate) fn start_all(tables: &Tables, voice: &Voice, note: i32, velocity: u8) -> [Operator; 6]
    requires note_low { neg_ℤ (pos 24) ≤ℤ note }
    requires note_high { note ≤ℤ pos 151 }
    requires velocity { (1 ≤ velocity) × (velocity ≤ 127) }
    ensures { (switch key : ℕ) → note ≡ played_note voice.now key → AreOperators result (pos 0) (begun voice.now switch key velocity) }
{
    [
        Operator::start(tables, voice, 1, note, velocity),
        Operator::start(tables, voice, 2, note, velocity),
        Operator::start(tables, voice, 3, note, velocity),
        Operator::start(tables, voice, 4, note, velocity),
        Operator::start(tables, voice, 5, note, velocity),
        Operator::start(tables, voice, 6, note, velocity),
    ]
}

/// Releases all operators.
pub(crate) fn release_all(operators: &mut [Operator; 6])
    ensures { (n : NoteData) (shift : ℤ) → AreOperators operators.old shift n → AreOperators operators.new shift (note_released n) }
{
    for k in 0..6usize {
        operators[k].release();
    }
}

/// All operators adopt another shift of their pitch. Where it is the one that they have there is nothing to compute.
pub(crate) fn tune_all(operators: &mut [Operator; 6], tables: &Tables, before: i32, shift: i32)
    requires shift_low { neg_ℤ (pos (2 ^ 27)) ≤ℤ shift }
    requires shift_high { shift ≤ℤ pos (2 ^ 27) }
    ensures { (n : NoteData) → AreOperators operators.old before n → AreOperators operators.new shift n }
{
    if shift == before {
        return;
    }
    for k in 0..6usize {
        operators[k].tune(tables, shift);
    }
}

/// What all operators do in the next block, operator 1 first, whose shift of the pitch they have adopted. The block then has passed.
pub(crate) fn pass_all(
    operators: &mut [Operator; 6],
    tables: &Tables,
    switch: u8,
    lfo: i32,
    lfo_depth: u32,
) -> [OpBlock; 6]
    requires lfo_low { neg_ℤ (pos 64) ≤ℤ lfo }
    requires lfo_high { lfo ≤ℤ pos (2 ^ 24 + 64) }
    requires lfo_depth { lfo_depth ≤ 2 ^ 24 }
    ensures gains { HaveGains result }
    ensures blocks { (n : NoteData) (m : Modulation) (shift : ℤ) → IsModulated switch shift lfo lfo_depth n m → AreOperators operators.old shift n →
        result ≡ operators_in (after_block n m) (length n.past) }
    ensures passed { (n : NoteData) (m : Modulation) (shift : ℤ) → IsModulated switch shift lfo lfo_depth n m → AreOperators operators.old shift n →
        AreOperators operators.new shift (after_block n m) }
{
    let mut ops = [OpBlock {
        phase: 0,
        freq: 0,
        g1: 0,
        g2: 0,
    }; 6];
    for k in 0..6usize {
        let op = operators[k].pass(tables, lfo, lfo_depth);
        ops[k] = if_on(switch, k as u8 + 1, op);
    }
    ops
}
