//! What keeps a run at the pace of the clock.

use std::time::{Clock, Duration, Instant};

/// What is called before each block of a run that is heard while it is made.
///
/// It has no meaning for what a run makes. By the clock it keeps a run from being ahead of who listens; a test can hold a block back with it.
pub trait Pace {
    /// The block with this number, from 0 on, is made next. Waits until it is time for it.
    fn wait_for(&mut self, block: u32);
}

/// A pace that never waits.
#[derive(Clone, Copy, Debug, Drop)]
pub struct NoPace;

impl Pace for NoPace {
    fn wait_for(&mut self, _block: u32) {}
}

/// The pace of the clock: block b is made b blocks of 64 samples at 44100 Hz after block 0. A block that is late is made at once, and so is
/// every block where the clock can't be read.
#[derive(Drop)]
pub struct ClockPace<'a, R> {
    rt: &'a R,
    start: Option<Instant>,
}

impl<'a, R: Clock> ClockPace<'a, R> {
    /// A pace that begins at block 0, whenever that comes.
    pub fn new(rt: &'a R) -> ClockPace<'a, R> {
        ClockPace { rt, start: None }
    }

    // How long it is until this time after the start; none where it has passed, or where no time is known.
    fn left(&self, due: Duration) -> Option<Duration> {
        let passed = self.start?.elapsed(self.rt).ok()?;
        due.checked_sub(passed)
    }
}

// The time from the beginning of block 0 to that of this one: 64 samples at 44100 Hz are 640000000/441 nanoseconds.
fn time_of(block: u32) -> Duration {
    Duration::from_nanos(block as u64 * 640_000_000 / 441)
}

impl<R: Clock> Pace for ClockPace<'_, R> {
    fn wait_for(&mut self, block: u32) {
        if block == 0 {
            self.start = Instant::now(self.rt).ok();
        }
        if let Some(left) = self.left(time_of(block)) {
            std::thread::sleep(self.rt, left);
        }
    }
}
