//! The rendering end of a line: it takes commands out, logs each at the present block, applies it, and renders block after block.
#![tactic(auto)]

mod renderer;
mod stop;

pub use instrument::Engine;
pub use renderer::{LiveRenderer, NoRenderer};
pub use stop::{Stop, TakeOne, Taken};
