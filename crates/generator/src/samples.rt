//! The sum of samples.

ghost use Rattle.std.specs.Prelude.{◌≡◌, ◌^◌, ◌+ℤ◌, ◌-ℤ◌, ◌≤ℤ◌, pos, fold};

/// Adds the samples of a block to a sum.
pub(crate) fn add_samples(sum: i64, samples: &[i16; 64]) -> i64
    requires low { (pos 0 -ℤ pos (2 ^ 40)) ≤ℤ sum }
    requires high { sum ≤ℤ pos (2 ^ 40) }
    ensures value { result ≡ fold ◌+ℤ◌ sum samples.now }
    ensures low { (sum -ℤ pos 2097152) ≤ℤ result }
    ensures high { result ≤ℤ (sum +ℤ pos 2097152) }
{
    let mut total = sum;
    for sample in samples {
        total += i64::from(*sample);
    }
    total
}
