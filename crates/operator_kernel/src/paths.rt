//! The feedback paths of sixteen notes: those that sound run side by side, eight at a time and whatever their feedback, the others alone.
ghost use Rattle.std.specs.Prelude.{◌≡◌, ◌≢◌, ◌≤◌, ◌<◌, ◌+◌, ◌^◌, ℕ, true, false, [], List, length, slice_index_or, pos, unsigned_abs};
ghost use Rattle.operator_kernel.specs.declared.FeedbackPath.{FeedbackPath};
ghost use Rattle.operator_kernel.specs.Paths.{IsPath, IsPathRun, path_at, state_of};
ghost use Rattle.operator_kernel.specs.Places.{AreKept, AreLeft, AreMarked, IsLeft};
ghost use Rattle.operator_kernel.specs.Quartets.{AreLive, IsLaneRun, IsLive, IsSmallState};

use crate::FeedbackPath;
use crate::eight::run_quartets;
use crate::operator::{is_silent, run_feedback};
use dx_tables::Tables;

/// Places of paths that are to be run side by side: the first `count`, up to 8. The others repeat one of these.
#[derive(Clone, Copy)]
pub(crate) struct Left {
    places: [usize; 8],
    count: usize,
}

/// Whether a sample is at most 2^29 in size.
#[inline(always)]
fn is_small(sample: i32) -> bool
    ensures { result ≡ true → unsigned_abs sample ≤ 2 ^ 29 }
{
    -0x2000_0000 <= sample && sample <= 0x2000_0000
}

/// Whether an operator sounds, with feedback above 0 and small last samples, as they are after two samples.
#[inline(always)]
fn is_live(path: &FeedbackPath) -> bool
    requires { IsPath path.now }
    ensures { result ≡ true → IsLive path.now }
{
    !is_silent(&path.op) && path.feedback > 0 && is_small(path.before_last) && is_small(path.last)
}

/// The places with one more, which all repeat where it is the first.
fn with_place(places: [usize; 8], count: usize, k: usize) -> [usize; 8]
    requires { count < 8 }
    ensures len { length result ≡ 8 }
    ensures first { count ≡ 0 → (x : ℕ) → x < 8 → slice_index_or result x 0 ≡ k }
    ensures here { slice_index_or result count 0 ≡ k }
    ensures others { 1 ≤ count → (x : ℕ) → x ≢ count → slice_index_or result x 0 ≡ slice_index_or places x 0 }
{
    if count == 0 {
        return [k; 8];
    }
    let mut more = places;
    more[count] = k;
    more
}

/// The same places, and `k` too where its path is to be run beside others.
fn with(left: Left, paths: &[FeedbackPath; 16], done: &[bool; 16], k: usize) -> Left
    requires k { k < 16 }
    requires paths { IsPath (path_at paths.now k) }
    ensures { AreLeft paths.now done.now left → AreLeft paths.now done.now result }
{
    if left.count < 8 && !done[k] && is_live(&paths[k]) {
        return Left {
            places: with_place(left.places, left.count, k),
            count: left.count + 1,
        };
    }
    left
}

/// Up to eight places of paths that are to be run side by side.
fn places_left(paths: &[FeedbackPath; 16], done: &[bool; 16]) -> Left
    requires { (k : ℕ) → k < 16 → IsPath (path_at paths.now k) }
    ensures { AreLeft paths.now done.now result }
{
    let mut left = Left {
        places: [0; 8],
        count: 0,
    };
    for k in 0..16usize {
        left = with(left, paths, done, k);
    }
    left
}

/// The paths at four places from one on.
fn four_at(paths: &[FeedbackPath; 16], places: &[usize; 8], from: usize) -> [FeedbackPath; 4]
    requires from { from ≤ 4 }
    requires below { (x : ℕ) → x < 8 → slice_index_or places.now x 0 < 16 }
    ensures { (x : ℕ) → x < 4 → path_at result x ≡ path_at paths.now (slice_index_or places.now (from + x) 0) }
{
    [
        paths[places[from]],
        paths[places[from + 1]],
        paths[places[from + 2]],
        paths[places[from + 3]],
    ]
}

/// The samples of a lane.
#[inline(always)]
fn lane_of(rows: &[[i32; 4]; 64], lane: usize) -> [i32; 64]
    requires { lane < 4 }
    ensures len { length result ≡ 64 }
    ensures sample { (j : ℕ) → j < 64 → slice_index_or result j (pos 0) ≡ slice_index_or (slice_index_or rows.now j []) lane (pos 0) }
{
    let mut samples = [0i32; 64];
    for j in 0..64usize {
        samples[j] = rows[j][lane];
    }
    samples
}

/// Keeps what a lane came to at the place of its path.
#[inline(always)]
fn keep(
    paths: &mut [FeedbackPath; 16],
    samples: &mut [[i32; 64]; 16],
    done: &mut [bool; 16],
    k: usize,
    lane: usize,
    rows: &[[i32; 4]; 64],
    before_last: i32,
    last: i32,
)
    requires k { k < 16 }
    requires lane { lane < 4 }
    ensures run { (first : List FeedbackPath) → AreMarked done.old first paths.old samples.old
        → IsLaneRun (path_at first k) rows.now lane before_last last → AreMarked done.new first paths.new samples.new }
    ensures kept { AreKept paths.old paths.new }
{
    let path = paths[k];
    paths[k] = FeedbackPath {
        op: path.op,
        feedback: path.feedback,
        before_last,
        last,
    };
    samples[k] = lane_of(rows, lane);
    done[k] = true;
}

/// The same for four lanes, at four places from one on.
fn keep_four(
    paths: &mut [FeedbackPath; 16],
    samples: &mut [[i32; 64]; 16],
    done: &mut [bool; 16],
    places: &[usize; 8],
    from: usize,
    rows: &[[i32; 4]; 64],
    before_last: &[i32; 4],
    last: &[i32; 4],
)
    requires from { from ≤ 4 }
    requires below { (x : ℕ) → x < 8 → slice_index_or places.now x 0 < 16 }
    ensures run { (first : List FeedbackPath) → AreMarked done.old first paths.old samples.old
        → ((x : ℕ) → x < 4 → IsLaneRun (path_at first (slice_index_or places.now (from + x) 0)) rows.now x
        (slice_index_or before_last.now x (pos 0)) (slice_index_or last.now x (pos 0)))
        → AreMarked done.new first paths.new samples.new }
    ensures kept { AreKept paths.old paths.new }
{
    for x in 0..4usize {
        keep(
            paths,
            samples,
            done,
            places[from + x],
            x,
            rows,
            before_last[x],
            last[x],
        );
    }
}

/// Runs up to eight paths that weren't run and sound, where there are two.
fn run_together(
    tables: &Tables,
    paths: &mut [FeedbackPath; 16],
    samples: &mut [[i32; 64]; 16],
    done: &mut [bool; 16],
)
    requires { (k : ℕ) → k < 16 → IsPath (path_at paths.old k) }
    ensures run { (first : List FeedbackPath) → AreMarked done.old first paths.old samples.old → AreMarked done.new first paths.new samples.new }
    ensures kept { AreKept paths.old paths.new }
{
    let left = places_left(paths, done);
    if left.count < 2 {
        return;
    }
    let places = left.places;
    let low = four_at(paths, &places, 0);
    let high = four_at(paths, &places, 4);
    let mut low_rows = [[0i32; 4]; 64];
    let mut high_rows = [[0i32; 4]; 64];
    let (low_before, low_last, high_before, high_last) = run_quartets(
        tables,
        &low,
        &high,
        &mut low_rows,
        &mut high_rows,
    );
    keep_four(
        paths,
        samples,
        done,
        &places,
        0,
        &low_rows,
        &low_before,
        &low_last,
    );
    keep_four(
        paths,
        samples,
        done,
        &places,
        4,
        &high_rows,
        &high_before,
        &high_last,
    );
}

/// Runs a path alone.
fn run_alone(tables: &Tables, path: &mut FeedbackPath) -> [i32; 64]
    requires { IsPath path.old }
    ensures { IsPathRun path.old path.new result }
{
    let mut samples = [0i32; 64];
    let mut state = [path.before_last, path.last];
    let op = path.op;
    run_feedback(tables, path.feedback, &mut state, &mut samples, false, &op);
    path.before_last = state[0];
    path.last = state[1];
    samples
}

/// Runs a path alone where it wasn't run.
fn run_rest(
    tables: &Tables,
    paths: &mut [FeedbackPath; 16],
    samples: &mut [[i32; 64]; 16],
    done: &mut [bool; 16],
    k: usize,
)
    requires k { k < 16 }
    requires path { IsPath (path_at paths.old k) }
    ensures run { (first : List FeedbackPath) → AreMarked done.old first paths.old samples.old → AreMarked done.new first paths.new samples.new }
    ensures kept { AreKept paths.old paths.new }
    ensures here { slice_index_or done.new k false ≡ true }
    ensures others { (x : ℕ) → slice_index_or done.old x false ≡ true → slice_index_or done.new x false ≡ true }
{
    if done[k] {
        return;
    }
    let mut path = paths[k];
    samples[k] = run_alone(tables, &mut path);
    paths[k] = path;
    done[k] = true;
}

/// No path was run yet.
fn none_done() -> [bool; 16]
    ensures len { length result ≡ 16 }
    ensures none { (k : ℕ) → slice_index_or result k false ≡ false }
{
    [false; 16]
}

/// Runs the feedback paths of sixteen notes: `samples[k]` becomes the samples of path k, and its state its last two.
pub fn run_paths(tables: &Tables, paths: &mut [FeedbackPath; 16], samples: &mut [[i32; 64]; 16])
    requires { (k : ℕ) → k < 16 → IsPath (path_at paths.old k) }
    ensures { (k : ℕ) → k < 16 → IsPathRun (path_at paths.old k) (path_at paths.new k) (slice_index_or samples.new k []) }
{
    let mut done = none_done();
    run_together(tables, paths, samples, &mut done);
    run_together(tables, paths, samples, &mut done);
    for k in 0..16usize {
        run_rest(tables, paths, samples, &mut done, k);
    }
}
