//! The sum of notes.
ghost use Rattle.std.specs.Prelude.{◌+◌, ◌^◌, ℕ, pos, slice_index_or};
ghost use Rattle.note_voice.specs.Mix.{IsAdded, IsSmall};

/// Adds a note's samples, 2^24 for full scale, to a sum of notes.
pub(crate) fn add(bus: &[i32; 64], mix: &mut [i64; 64])
    requires { IsSmall (2 ^ 40) mix.old }
    ensures samples { IsAdded (λ j. slice_index_or bus.now j (pos 0)) mix.old mix.new }
    ensures small { (bound : ℕ) → IsSmall bound mix.old → IsSmall (bound + 2 ^ 31) mix.new }
{
    for j in 0..64usize {
        mix[j] += i64::from(bus[j]);
    }
}
