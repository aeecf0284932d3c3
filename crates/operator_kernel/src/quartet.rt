//! Four feedback paths side by side, each a lane of the vectors.
ghost use Rattle.std.specs.Prelude.{ℕ, [], ◌≡◌, ◌+◌, ◌<◌, ◌≤◌, length, map, FitsSigned};
ghost use Rattle.std.specs.Int.{w32};
ghost use Rattle.std.specs.Simd.Lanes.{Each1};
ghost use Rattle.dx_tables.specs.Numbers.{residue};
ghost use Rattle.dx_tables.specs.Sine.{sine, sine_pair};
ghost use Rattle.dx_tables.specs.Table.{IsTable};
ghost use Rattle.operator_kernel.specs.Quartets.{AreLive, AreAt, AreBounded, gains_of_four, phase_lanes, phases_with_feedback, fed_samples, shift_lanes};

use crate::FeedbackPath;
use crate::lanes::{four_products, four_sines};
use crate::operator::{gain, growth};
use std::simd::prelude::*;

/// The phases of four operators without feedback, their gains, and their last two samples.
#[derive(Clone, Copy)]
pub(crate) struct Quartet {
    phases: i32x4,
    gains: i64x4,
    pub(crate) before_last: i32x4,
    pub(crate) last: i32x4,
}

/// The phases of the first sample, without feedback.
#[inline(always)]
fn first_phases(paths: &[FeedbackPath; 4]) -> i32x4
    ensures { result ≡ phase_lanes paths.now 0 }
{
    i32x4::from_array([
        paths[0].op.phase,
        paths[1].op.phase,
        paths[2].op.phase,
        paths[3].op.phase,
    ])
}

/// The same one sample later.
#[inline(always)]
fn later_phases(paths: &[FeedbackPath; 4], phases: i32x4) -> i32x4
    ensures { (j : ℕ) → phases ≡ phase_lanes paths.now j → result ≡ phase_lanes paths.now (j + 1) }
{
    phases
        + i32x4::from_array([
            paths[0].op.freq,
            paths[1].op.freq,
            paths[2].op.freq,
            paths[3].op.freq,
        ])
}

/// The gains of the first sample.
#[inline(always)]
fn first_gains(paths: &[FeedbackPath; 4]) -> i64x4
    requires live { AreLive paths.now }
    ensures { result ≡ gains_of_four paths.now 0 }
{
    i32x4::from_array([
        gain(&paths[0].op, 0),
        gain(&paths[1].op, 0),
        gain(&paths[2].op, 0),
        gain(&paths[3].op, 0),
    ])
    .cast::<i64>()
}

/// The same one sample later.
#[inline(always)]
fn later_gains(paths: &[FeedbackPath; 4], gains: i64x4) -> i64x4
    requires live { AreLive paths.now }
    ensures { (j : ℕ) → j < 64 → gains ≡ gains_of_four paths.now j → result ≡ gains_of_four paths.now (j + 1) }
{
    let steps = i32x4::from_array([
        growth(&paths[0].op),
        growth(&paths[1].op),
        growth(&paths[2].op),
        growth(&paths[3].op),
    ]);
    gains + steps.cast::<i64>()
}

/// How far each lane's sum of its last two samples is shifted.
#[inline(always)]
fn shifts(paths: &[FeedbackPath; 4]) -> i32x4
    requires live { AreLive paths.now }
    ensures { result ≡ shift_lanes paths.now }
{
    i32x4::from_array([
        i32::from(9 - paths[0].feedback),
        i32::from(9 - paths[1].feedback),
        i32::from(9 - paths[2].feedback),
        i32::from(9 - paths[3].feedback),
    ])
}

/// The phases with the feedback of each lane.
#[inline(always)]
fn fed_phases(paths: &[FeedbackPath; 4], at: Quartet) -> i32x4
    requires live { AreLive paths.now }
    requires bounded { AreBounded at }
    ensures { result ≡ phases_with_feedback paths.now at }
{
    at.phases + ((at.before_last + at.last) >> shifts(paths))
}

/// The bits of four numbers.
#[inline(always)]
fn bits(lanes: i32x4) -> u32x4
    requires four { length lanes ≡ 4 }
    requires fits { Each1 (FitsSigned w32) lanes }
    ensures { result ≡ map residue lanes }
{
    u32x4::from_le_bytes(lanes.to_le_bytes())
}

/// The sines of four phases.
#[inline(always)]
fn sines_of(pairs: &[i32x2], phases: i32x4) -> i64x4
    requires table { IsTable [] sine_pair 1024 pairs.now }
    requires four { length phases ≡ 4 }
    requires fits { Each1 (FitsSigned w32) phases }
    ensures { result ≡ map sine phases }
{
    let bits = bits(phases);
    let [p0, p1, p2, p3] = ((bits >> 14) % u32x4::splat(1024)).to_array();
    four_sines(pairs, p0, p1, p2, p3, bits % u32x4::splat(16384))
}

/// The next sample of each lane.
#[inline(always)]
pub(crate) fn samples(pairs: &[i32x2], paths: &[FeedbackPath; 4], at: Quartet) -> i32x4
    requires table { IsTable [] sine_pair 1024 pairs.now }
    requires live { AreLive paths.now }
    requires bounded { AreBounded at }
    ensures { (j : ℕ) → j < 64 → AreAt paths.now j at → result ≡ fed_samples paths.now j }
{
    let sines = sines_of(pairs, fed_phases(paths, at));
    four_products(sines, at.gains)
}

/// The vectors at the first sample.
#[inline(always)]
pub(crate) fn begin(paths: &[FeedbackPath; 4]) -> Quartet
    requires live { AreLive paths.now }
    ensures { AreAt paths.now 0 result }
{
    Quartet {
        phases: first_phases(paths),
        gains: first_gains(paths),
        before_last: i32x4::from_array([
            paths[0].before_last,
            paths[1].before_last,
            paths[2].before_last,
            paths[3].before_last,
        ]),
        last: i32x4::from_array([paths[0].last, paths[1].last, paths[2].last, paths[3].last]),
    }
}

/// The same one sample later, where these are the samples.
#[inline(always)]
pub(crate) fn later(paths: &[FeedbackPath; 4], at: Quartet, y: i32x4) -> Quartet
    requires live { AreLive paths.now }
    ensures { (j : ℕ) → j < 64 → AreAt paths.now j at → y ≡ fed_samples paths.now j → AreAt paths.now (j + 1) result }
{
    Quartet {
        phases: later_phases(paths, at.phases),
        gains: later_gains(paths, at.gains),
        before_last: at.last,
        last: y,
    }
}
