//! One map for each curve.

ghost use Rattle.std.specs.Prelude.{◌≡◌};
ghost use Rattle.velocity_map.specs.declared.curve.Curve.TheVariants.{Linear, Soft, Hard};
ghost use Rattle.velocity_map.specs.Map.{curve_of};

use crate::curve::Curve;
use crate::map::VelocityMap;

/// One map for each curve.
#[derive(Drop)]
pub struct MapSet {
    linear: VelocityMap,
    soft: VelocityMap,
    hard: VelocityMap,
    ghost is_linear: { curve_of linear ≡ Linear },
    ghost is_soft: { curve_of soft ≡ Soft },
    ghost is_hard: { curve_of hard ≡ Hard },
}

impl MapSet {
    /// The set of three maps, each of its curve.
    pub fn new(linear: VelocityMap, soft: VelocityMap, hard: VelocityMap) -> MapSet
        requires linear { curve_of linear ≡ Curve.Linear }
        requires soft { curve_of soft ≡ Curve.Soft }
        requires hard { curve_of hard ≡ Curve.Hard }
    {
        MapSet { linear, soft, hard }
    }

    /// The map of a curve.
    pub fn map(&self, curve: Curve) -> &VelocityMap
        ensures { curve_of result.now ≡ curve }
    {
        match curve {
            Curve::Linear => &self.linear,
            Curve::Soft => &self.soft,
            Curve::Hard => &self.hard,
        }
    }
}
