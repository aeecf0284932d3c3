//! What moves all notes in a block.

ghost use Rattle.std.specs.Prelude.{◌≤◌, ◌^◌, pos, ◌≤ℤ◌};

/// What moves all notes in a block: the LFO's value and depth, 2^24 for the greatest of both, the bend, 0 to 16383
/// with 8192 for none, and the wheel, 0 to 127.
#[derive(Clone, Copy)]
pub(crate) struct BlockModulation {
    pub(crate) lfo: i32,
    pub(crate) lfo_depth: i32,
    pub(crate) bend: u16,
    pub(crate) wheel: u8,
    ghost lfo_low: { pos 0 ≤ℤ lfo },
    ghost lfo_high: { lfo ≤ℤ pos (2 ^ 24) },
    ghost lfo_depth_low: { pos 0 ≤ℤ lfo_depth },
    ghost lfo_depth_high: { lfo_depth ≤ℤ pos (2 ^ 24) },
    ghost bend_in_range: { bend ≤ 16383 },
    ghost wheel_in_range: { wheel ≤ 127 },
}
