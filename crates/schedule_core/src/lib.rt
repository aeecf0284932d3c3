//! Commands of several scripts in one line, a journal of those that were taken, and the sound of every block, for every schedule.
#![tactic(auto)]

mod mark;
mod schedule;
mod world;
mod world_refusal;

pub use dx_tables::Engine;
pub use schedule::every_schedule;
pub use world::World;
pub use world_refusal::WorldRefusal;

#[cfg(test)]
mod reference;
#[cfg(test)]
mod tests;
