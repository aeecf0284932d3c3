//! Operators that sound where nobody hears them are left out: a silent operator's samples are 0 whatever it hears.
ghost use Rattle.std.specs.Prelude.{ℕ, ◌≡◌, ◌≤◌, ◌-◌, ◌+◌, true, false, Some};
ghost use Rattle.operator_kernel.specs.Operator.{HasGains, silent};
ghost use Rattle.algorithm_bus.specs.Algorithms.{modulates, is_carrier, feedback_operator};
ghost use Rattle.algorithm_bus.specs.Signals.{BlockInput, is_fed_back, note_output};
ghost use Rattle.algorithm_bus.specs.Buses.{HaveGains, op_of};
ghost use Rattle.algorithm_bus.specs.Audible.{AreClosed, IsCovered, if_kept, is_kept};

use crate::algorithm::targets;
use crate::bus::is_fed_back;
use crate::{is_carrier, modulates};
use operator_kernel::OpBlock;

/// Whether an operator's gains are too low to be heard.
#[inline(always)]
fn is_silent(op: &OpBlock) -> bool
    ensures { result ≡ silent op.now }
{
    op.g1 < 1120 && op.g2 < 1120
}

/// Whether an operator modulates one that is kept.
fn reaches(algorithm: u8, operator: u8, kept: &[bool; 6]) -> bool
    requires algorithm { algorithm ≤ 31 }
    requires operator { (1 ≤ operator) × (operator ≤ 6) }
    ensures { (to : ℕ) → 1 ≤ to → to ≤ 6 → modulates algorithm operator to ≡ true → is_kept kept.now to ≡ true → result ≡ true }
{
    for k in 0..6u8 {
        if modulates(algorithm, operator, k + 1) && kept[k as usize] {
            return true;
        }
    }
    false
}

/// Whether an operator has to run, where it is known which of the lower ones have to.
fn is_audible(algorithm: u8, operator: u8, op: &OpBlock, kept: &[bool; 6]) -> bool
    requires algorithm { algorithm ≤ 31 }
    requires operator { (1 ≤ operator) × (operator ≤ 6) }
    ensures carrier { is_carrier algorithm operator ≡ true → IsCovered result op.now }
    ensures modulator { (to : ℕ) → 1 ≤ to → to ≤ 6 → modulates algorithm operator to ≡ true → is_kept kept.now to ≡ true → IsCovered result op.now }
    ensures fed_back { is_fed_back (feedback_operator algorithm) operator ≡ true → result ≡ true }
{
    if is_fed_back(algorithm, operator) {
        return true;
    }
    if is_silent(op) {
        return false;
    }
    if is_carrier(algorithm, operator) {
        return true;
    }
    reaches(algorithm, operator, kept)
}

/// The operators that have to run.
fn audible_operators(algorithm: u8, ops: &[OpBlock; 6]) -> [bool; 6]
    requires { algorithm ≤ 31 }
    ensures { AreClosed algorithm ops.now 6 result }
{
    let mut kept = [false; 6];
    for k in 0..6usize {
        kept[k] = is_audible(algorithm, k as u8 + 1, &ops[k], &kept);
    }
    kept
}

/// An operator as it is, or with no gain.
fn kept_or_muted(kept: bool, op: &OpBlock) -> OpBlock
    requires { HasGains op.now }
    ensures value { result ≡ if_kept kept op.now }
    ensures gains { HasGains result }
{
    if kept {
        *op
    } else {
        OpBlock {
            phase: op.phase,
            freq: op.freq,
            g1: 0,
            g2: 0,
        }
    }
}

/// The six operators, with those muted that nobody hears. What is heard stays.
pub(crate) fn only_audible(algorithm: u8, ops: &[OpBlock; 6]) -> [OpBlock; 6]
    requires algorithm { algorithm ≤ 31 }
    requires gains { HaveGains ops.now }
    ensures gains { HaveGains result }
    ensures output { (p : BlockInput) → p.algorithm ≡ algorithm → p.op ≡ op_of ops.now → (j : ℕ) →
        note_output (record p { op = op_of result }) j ≡ note_output p j }
    ensures fed_back { (o : ℕ) → feedback_operator algorithm ≡ Some o → op_of result o ≡ op_of ops.now o }
{
    let kept = audible_operators(algorithm, ops);
    let mut few = *ops;
    for k in 0..6usize {
        few[k] = kept_or_muted(kept[k], &ops[k]);
    }
    few
}

/// Whether an operator sounds that modulates silent ones alone. It only chooses between two ways to the same samples.
pub(crate) fn has_inaudible(algorithm: u8, ops: &[OpBlock; 6]) -> bool
    requires { algorithm ≤ 31 }
{
    let mut sounding = 0u8;
    for k in 0..6u8 {
        if !is_silent(&ops[k as usize]) {
            sounding |= 1 << k;
        }
    }
    if sounding == 0b111111 {
        return false;
    }
    for k in 0..6u8 {
        if (sounding >> k) % 2 == 1
            && targets(algorithm, k + 1) & sounding == 0
            && !is_carrier(algorithm, k + 1)
        {
            return true;
        }
    }
    false
}

/// Whether an operator that is heard sounds.
pub(crate) fn has_audible_carrier(algorithm: u8, ops: &[OpBlock; 6]) -> bool
    requires { algorithm ≤ 31 }
    ensures silent { result ≡ false → (o : ℕ) → 1 ≤ o → o ≤ 6 → is_carrier algorithm o ≡ true → silent (op_of ops.now o) ≡ true }
    ensures sounding { result ≡ true → (o : ℕ) × (1 ≤ o) × (o ≤ 6) × (is_carrier algorithm o ≡ true) × (silent (op_of ops.now o) ≡ false) }
{
    for k in 0..6u8 {
        if is_carrier(algorithm, k + 1) && !is_silent(&ops[k as usize]) {
            return true;
        }
    }
    false
}
