//! The three curves that a velocity may follow: linear, soft and hard.

/// What becomes of the velocity of a note that is played.
#[derive(Clone, Copy, Debug, PartialEq, Eq)]
pub enum Curve {
    /// The velocity stays.
    Linear,
    /// Soft notes become louder.
    Soft,
    /// Soft notes become softer.
    Hard,
}

impl Curve {
    ghost use Rattle.std.specs.Prelude.{◌≡◌, ◌≤◌};
    ghost use Rattle.velocity_map.specs.Curve.{curve_value};

    /// The curve's value at a velocity up to 127, for whoever makes a rule. A greater velocity counts as 127.
    pub fn value(self, velocity: u8) -> u8
        ensures value { velocity ≤ 127 → result ≡ curve_value self velocity }
    {
        let velocity = u16::from(velocity.min(127));
        let below = 127 - velocity;
        let value = match self {
            Curve::Linear => velocity,
            Curve::Soft => 127 - below * below / 127,
            Curve::Hard => (velocity * velocity / 127).max(1),
        };
        value as u8
    }
}
