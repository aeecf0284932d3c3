//! Velocity maps: rules that are made elsewhere, each kept beside the curve that it follows.
#![tactic(auto)]

mod curve;
mod map;
mod set;

pub use curve::Curve;
pub use map::VelocityMap;
pub use set::MapSet;

#[cfg(test)]
mod tests;
