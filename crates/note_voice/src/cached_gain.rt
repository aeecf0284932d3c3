//! The gain of an operator, which is computed only where its level or its attenuation moved.

ghost use Rattle.std.specs.Prelude.{◌≡◌, ◌^◌, pos, neg_ℤ, ◌≤ℤ◌};
ghost use Rattle.block_rates.specs.Levels.{greatest_level};
ghost use Rattle.note_voice.specs.Modulation.{gain_of};

use crate::operator::gain;
use dx_tables::Tables;

/// A gain, with the level and the attenuation that it was computed from.
#[derive(Clone, Copy)]
pub(crate) struct CachedGain {
    level: i32,
    attenuation: i32,
    pub(crate) gain: i32,
    ghost gain_is: { gain ≡ gain_of level attenuation },
    ghost gain_low: { pos 0 ≤ℤ gain },
    ghost gain_high: { gain ≤ℤ pos (2 ^ 26) },
}

impl CachedGain {
    /// The gain at a level that is lowered by an attenuation.
    pub(crate) fn of(tables: &Tables, level: i32, attenuation: i32) -> CachedGain
        requires level_low { pos 0 ≤ℤ level }
        requires level_high { level ≤ℤ pos greatest_level }
        requires attenuation_low { neg_ℤ (pos 509) ≤ℤ attenuation }
        requires attenuation_high { attenuation ≤ℤ pos (2 ^ 27) }
        ensures { result.gain ≡ gain_of level attenuation }
    {
        CachedGain {
            level,
            attenuation,
            gain: gain(tables, level, attenuation),
        }
    }

    /// The gain at another level and attenuation. It is computed anew only where one of the two is another than before.
    #[inline(always)]
    pub(crate) fn moved(self, tables: &Tables, level: i32, attenuation: i32) -> CachedGain
        requires level_low { pos 0 ≤ℤ level }
        requires level_high { level ≤ℤ pos greatest_level }
        requires attenuation_low { neg_ℤ (pos 509) ≤ℤ attenuation }
        requires attenuation_high { attenuation ≤ℤ pos (2 ^ 27) }
        ensures { result.gain ≡ gain_of level attenuation }
    {
        if level == self.level && attenuation == self.attenuation {
            self
        } else {
            CachedGain::of(tables, level, attenuation)
        }
    }
}
