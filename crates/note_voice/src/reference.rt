//! A note's definition as a program that tests compare with: each block is computed anew from the list of what moved the note.
//! Its levels, pitches, tables and edges are the product's own.

ghost use Rattle.std.specs.Prelude.{◌≤◌, ◌*◌, ◌+◌, ◌^◌, pos, neg_ℤ, ◌≤ℤ◌};

use algorithm_bus::{feedback_operator, is_carrier, modulates};
use dx_tables::constants::{LEVEL, PITCH_LEVEL, PITCH_RATE};
use dx_tables::{Tables, constants};
use key_scale::{operator_pitch, out_level, rate_scale};
use voice_record::Voice;
use voice_record::operator_parameter::{AMPLITUDE_SENSITIVITY, LEVELS};
use voice_record::parameter::{
    ALGORITHM, FEEDBACK, LFO_AMPLITUDE_DEPTH, LFO_PITCH_DEPTH, OPERATOR_FIELDS, PITCH_LEVELS,
    PITCH_RATES, PITCH_SENSITIVITY, TRANSPOSE,
};

/// What moves a block.
#[derive(Clone, Copy)]
pub(crate) struct ReferenceModulation {
    pub(crate) lfo: i32,
    pub(crate) lfo_depth: u32,
    pub(crate) bend: u16,
    pub(crate) wheel: u8,
}

/// What moves block `i`: the LFO in jumps over its whole range, its depth in growth, bend and wheel at their ends
/// and between.
pub(crate) fn modulation(i: u32) -> ReferenceModulation
    ensures lfo_low { neg_ℤ (pos 64) ≤ℤ result.lfo }
    ensures lfo_high { result.lfo ≤ℤ pos (2 ^ 24 + 64) }
    ensures lfo_depth { result.lfo_depth ≤ 2 ^ 24 }
    ensures bend { result.bend ≤ 16383 }
    ensures wheel { result.wheel ≤ 127 }
{
    let hash = i.wrapping_mul(2_654_435_761) >> 4;
    ReferenceModulation {
        lfo: (hash % 16_777_345) as i32 - 64,
        lfo_depth: i.min(16) * 1_048_576,
        bend: (hash % 16_384) as u16,
        wheel: if i % 3 == 0 { 0 } else { (hash % 128) as u8 },
    }
}

/// A note as plain data, without the list of what moved it.
#[derive(Clone, Copy)]
pub(crate) struct ReferenceNote {
    pub(crate) voice: Voice,
    pub(crate) switch: u8,
    pub(crate) key: u8,
    pub(crate) velocity: u8,
    pub(crate) off: u32,
}

/// An operator in a block.
#[derive(Clone, Copy)]
struct ReferenceOperator {
    phase: i32,
    increment: i32,
    before: i64,
    after: i64,
}

fn parameter(voice: &Voice, number: usize) -> i64 {
    let parameters = voice.bytes();
    i64::from(parameters[number % 155])
}

/// The level of an operator's envelope at step `k`: one step after the other.
fn level(voice: &Voice, first: usize, out: i64, scale: i64, k: u32, off: u32) -> i64 {
    let mut level = 0i64;
    let mut stage = 0usize;
    for step in 0..k {
        if step == off {
            stage = 3;
        }
        let to = parameter(
            voice,
            first.wrapping_add(LEVELS as usize).wrapping_add(stage),
        );
        let entry = i64::from(LEVEL[(to % 100).unsigned_abs() as usize % 100]);
        let units = (entry >> 1).wrapping_mul(64).wrapping_add(out);
        let target = units.wrapping_sub(4256).max(16).wrapping_mul(65_536);
        let rate = parameter(voice, first.wrapping_add(stage)).wrapping_mul(41) >> 6;
        let speed = rate.wrapping_add(scale).clamp(0, 63) as u32;
        let increment = i64::from(4 + speed % 4).wrapping_mul(i64::from(256u32 << (speed / 4)));
        if target > level {
            let raised = level.max(112_459_776);
            let rest = 285_212_672i64.wrapping_sub(raised) >> 24;
            level = raised
                .wrapping_add(rest.wrapping_mul(increment))
                .min(target);
        } else {
            level = level.wrapping_sub(increment).max(target);
        }
        if level == target && stage < 2 {
            stage += 1;
        }
    }
    level
}

/// The level of the pitch envelope at step `k`.
fn pitch_level(voice: &Voice, k: u32, off: u32) -> i64 {
    let mut level = pitch_target(voice, 3);
    let mut stage = 0usize;
    for step in 0..k {
        if step == off {
            stage = 3;
        }
        let target = pitch_target(voice, stage);
        let rate = parameter(voice, stage.wrapping_add(PITCH_RATES as usize));
        let increment = i64::from(PITCH_RATE[rate.unsigned_abs() as usize % 100]).wrapping_mul(
            1143,
        );
        level = if target > level {
            level.wrapping_add(increment).min(target)
        } else {
            level.wrapping_sub(increment).max(target)
        };
        if level == target && stage < 2 {
            stage += 1;
        }
    }
    level
}

fn pitch_target(voice: &Voice, stage: usize) -> i64 {
    let parameter = parameter(
        voice,
        stage.wrapping_add(PITCH_LEVELS as usize),
    ).unsigned_abs() as usize
        % 100;
    i64::from(PITCH_LEVEL[parameter]).wrapping_mul(524_288)
}

/// What is added to the pitch in block `i`.
fn pitch_shift(note: &ReferenceNote, i: u32) -> i64 {
    let m = modulation(i);
    let depth = parameter(&note.voice, LFO_PITCH_DEPTH as usize).wrapping_mul(165) >> 6;
    let by_lfo_depth = depth.wrapping_mul(i64::from(m.lfo_depth));
    let deepest = by_lfo_depth.max(i64::from(m.wheel).wrapping_mul(33_554_432));
    let sensitivity = parameter(&note.voice, PITCH_SENSITIVITY as usize).unsigned_abs() as usize
        % 8;
    let vibrato_depth = deepest.wrapping_mul(i64::from(constants::PITCH_SENSITIVITY[sensitivity]));
    let distance = i64::from(m.lfo).wrapping_sub(8_388_608);
    let bend = i64::from(m.bend).wrapping_sub(8192).wrapping_mul(512);
    pitch_level(&note.voice, i.wrapping_add(1), note.off)
        .wrapping_add(vibrato_depth.wrapping_mul(distance) >> 39)
        .wrapping_add(bend)
}

/// How far the level of an operator is attenuated in block `i`.
fn attenuation(note: &ReferenceNote, operator: u8, i: u32) -> i64 {
    let m = modulation(i);
    let depth = parameter(&note.voice, LFO_AMPLITUDE_DEPTH as usize).wrapping_mul(165) >> 6;
    let number = first_parameter(operator).wrapping_add(AMPLITUDE_SENSITIVITY as usize);
    let sensitivity = parameter(&note.voice, number).unsigned_abs() as usize % 4;
    let amp_mod_depth = depth.wrapping_mul(i64::from(
        constants::AMPLITUDE_SENSITIVITY[sensitivity],
    ));
    let tremolo_depth = amp_mod_depth.wrapping_mul(i64::from(m.lfo_depth)) >> 24;
    let distance = 16_777_216i64.wrapping_sub(i64::from(m.lfo));
    tremolo_depth.wrapping_mul(distance) >> 13
}

fn first_parameter(operator: u8) -> usize {
    OPERATOR_FIELDS as usize * (6 - operator.clamp(1, 6) as usize)
}

fn played(note: &ReferenceNote) -> i32
    ensures low { neg_ℤ (pos 24) ≤ℤ result }
    ensures high { result ≤ℤ pos 151 }
{
    let sum = i64::from(note.key)
        .wrapping_add(parameter(&note.voice, TRANSPOSE as usize))
        .wrapping_sub(24);
    sum.clamp(-24, 151) as i32
}

/// The gain of an operator at the end of block `k - 1`, and 0 before the first block.
fn gain(tables: &Tables, note: &ReferenceNote, operator: u8, k: u32) -> i64 {
    if k == 0 {
        return 0;
    }
    let o = operator.clamp(1, 6);
    let out = out_level(&note.voice, o, played(note), note.velocity.clamp(1, 127));
    let scale = rate_scale(&note.voice, o, played(note));
    let first = first_parameter(operator);
    let level = level(
        &note.voice,
        first,
        i64::from(out),
        i64::from(scale),
        k,
        note.off,
    );
    let attenuated = level.wrapping_sub(attenuation(note, operator, k - 1));
    i64::from(tables.exp(attenuated.clamp(0, 300_000_000) as i32 - 0xE00_0000))
}

fn increment(tables: &Tables, note: &ReferenceNote, operator: u8, i: u32) -> i32 {
    let pitch = operator_pitch(tables, &note.voice, operator.clamp(1, 6), played(note));
    let sum = i64::from(pitch).wrapping_add(pitch_shift(note, i));
    tables.freq(sum.clamp(-2_000_000_000, 2_000_000_000) as i32)
}

fn operator(tables: &Tables, note: &ReferenceNote, operator: u8, i: u32) -> ReferenceOperator {
    let mut phase = 0i32;
    for b in 0..i {
        phase = phase.wrapping_add(increment(tables, note, operator, b).wrapping_mul(64));
    }
    let is_on = (note.switch >> (6 - operator.clamp(1, 6))) % 2 == 1;
    ReferenceOperator {
        phase,
        increment: increment(tables, note, operator, i),
        before: if is_on {
            gain(tables, note, operator, i)
        } else {
            0
        },
        after: if is_on {
            gain(tables, note, operator, i.wrapping_add(1))
        } else {
            0
        },
    }
}

fn sample(tables: &Tables, op: &ReferenceOperator, j: i32, input: i32) -> i32 {
    if op.before < 1120 && op.after < 1120 {
        return 0;
    }
    let phase = op
        .phase
        .wrapping_add(op.increment.wrapping_mul(j))
        .wrapping_add(input);
    let growth = op.after.wrapping_sub(op.before).wrapping_add(32) >> 6;
    let now = op
        .before
        .wrapping_add(growth.wrapping_mul(i64::from(j).wrapping_add(1)));
    let product = i64::from(tables.sin(phase)).wrapping_mul(now) >> 24;
    i32::try_from(product).unwrap_or(0)
}

/// The 64 samples of block `i`, where the operator with feedback left two samples.
pub(crate) fn block(
    tables: &Tables,
    note: &ReferenceNote,
    i: u32,
    feedback_state: &mut [i32; 2],
) -> [i32; 64] {
    let mut ops = [ReferenceOperator {
        phase: 0,
        increment: 0,
        before: 0,
        after: 0,
    }; 7];
    for o in 1..7u8 {
        ops[o as usize] = operator(tables, note, o, i);
    }
    let algorithm = parameter(&note.voice, ALGORITHM as usize).clamp(0, 31) as u8;
    let feedback = parameter(&note.voice, FEEDBACK as usize).clamp(0, 7) as u8;
    let mut out = [0i32; 64];
    for j in 0..64usize {
        out[j] = sum(tables, &ops, algorithm, feedback, j as i32, feedback_state);
    }
    out
}

/// One sample of a note by the set of edges.
fn sum(
    tables: &Tables,
    ops: &[ReferenceOperator; 7],
    algorithm: u8,
    feedback: u8,
    j: i32,
    feedback_state: &mut [i32; 2],
) -> i32
    requires algorithm { algorithm ≤ 31 }
    requires feedback { feedback ≤ 7 }
{
    let mut samples = [0i32; 7];
    let mut after_block = 0i32;
    for k in 0..6u8 {
        let o = 6 - k;
        let mut input = 0i32;
        for m in 1..7u8 {
            if modulates(algorithm, m, o) {
                input = input.wrapping_add(samples[m as usize]);
            }
        }
        let is_fed_back = feedback_operator(algorithm) == Some(o);
        if is_fed_back && 0 < feedback {
            let both = i64::from(feedback_state[0]).wrapping_add(i64::from(feedback_state[1]));
            input = i32::try_from(both >> (9 - feedback)).unwrap_or(0);
        }
        let y = sample(tables, &ops[o as usize], j, input);
        samples[o as usize] = y;
        if is_fed_back {
            *feedback_state = [feedback_state[1], y];
        }
        if is_carrier(algorithm, o) {
            after_block = after_block.wrapping_add(y);
        }
    }
    after_block
}
