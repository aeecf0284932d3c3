//! The sum of all notes, and a sample of it as 16 bits.

ghost use Rattle.std.specs.Prelude.{◌≡◌};
ghost use Rattle.instrument.specs.Mix.{AreZeros};
ghost use Rattle.instrument.specs.State.{output_of};

/// The sum of no notes.
pub(crate) fn empty_mix() -> [i64; 64]
    ensures { AreZeros result }
{
    [0; 64]
}

/// A sum of notes as a sample of 16 bits: divided by 16, limited to full scale, and shifted from 25 bits to 16.
pub(crate) fn output(sum: i64) -> i16
    ensures { result ≡ output_of sum }
{
    ((sum >> 4).clamp(-0x100_0000, 0xFF_FFFF) >> 9) as i16
}
