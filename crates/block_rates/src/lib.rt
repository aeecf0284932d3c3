//! Levels and modulation that change from block to block: envelopes of operators and pitch, and the LFO.
#![tactic(auto)]

mod cycle;
mod delay;
mod envelope;
mod level_segment;
mod lfo;
mod pitch_envelope;
mod pitch_segment;
mod stage;
mod stages;
mod wave;

pub use envelope::Envelope;
pub use lfo::Lfo;
pub use pitch_envelope::PitchEnvelope;

#[cfg(test)]
mod tests;
