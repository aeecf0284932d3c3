//! Rules from velocities to velocities that follow a curve.

ghost use Rattle.std.specs.Prelude.{ℕ, ◌≡◌, ◌≤◌};
ghost use Rattle.velocity_map.specs.Curve.{curve_value};

use crate::curve::Curve;

/// A rule from velocities to velocities that was made elsewhere, beside the curve that it follows: it may
/// be called on 1 to 127, and answers the curve's value there.
#[derive(Drop)]
pub struct VelocityMap {
    curve: Curve,
    rule: Box<dyn Fn(u8) -> u8 + Send>,
    ghost callable: { (v : ℕ) → 1 ≤ v → v ≤ 127 → pre rule v },
    ghost follows: { (v answer : ℕ) → 1 ≤ v → v ≤ 127 → post rule v answer → answer ≡ curve_value curve v },
}

impl VelocityMap {
    ghost use Rattle.velocity_map.specs.Map.{curve_of};

    /// A map by a rule that may be called on 1 to 127 and answers the curve's value there.
    pub fn new(curve: Curve, rule: Box<dyn Fn(u8) -> u8 + Send>) -> VelocityMap
        requires callable { (v : ℕ) → 1 ≤ v → v ≤ 127 → pre rule v }
        requires follows { (v answer : ℕ) → 1 ≤ v → v ≤ 127 → post rule v answer → answer ≡ curve_value curve v }
        ensures { curve_of result ≡ curve }
    {
        VelocityMap { curve, rule }
    }

    /// The curve that it follows.
    pub fn curve(&self) -> Curve
        ensures { result ≡ curve_of self.now }
    {
        self.curve
    }

    /// What the rule answers at a velocity of 1 to 127: the curve's value, which is 1 to 127 too.
    pub fn apply(&self, velocity: u8) -> u8
        requires least { 1 ≤ velocity }
        requires most { velocity ≤ 127 }
        ensures value { result ≡ curve_value (curve_of self.now) velocity }
        ensures least { 1 ≤ result }
        ensures most { result ≤ 127 }
    {
        (self.rule)(velocity)
    }
}
