//! What is called round the sends and takes of a turn.
/// What is called before and after the sends and takes of an actor in a turn. Actor k is script k; with n scripts, actor n is the half
/// of a turn that takes.
///
/// It has no meaning for what a run makes. A test can hold an actor back with it.
pub trait Gate: Sync {
    /// The actor is about to send or take for the first time in this turn.
    fn pass(&self, actor: u32);

    /// The actor has sent or taken for the last time in this turn.
    fn done(&self, actor: u32);
}

/// A gate whose two calls return at once.
#[derive(Clone, Copy, Debug, Drop)]
pub struct NoGate;

impl Gate for NoGate {
    fn pass(&self, _actor: u32) {}

    fn done(&self, _actor: u32) {}
}
