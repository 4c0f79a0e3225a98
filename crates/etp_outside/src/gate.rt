//! Where a test makes a session wait.

/// What each session passes before each of its turns. Only tests make it wait.
pub trait Gate: Sync {
    /// Called before the turn of this number of the session of that number. Turns count from 0.
    fn before(&self, session: u64, turn: u64);
}

/// A gate that is always open.
#[derive(Clone, Copy, Debug)]
pub struct NoGate;

impl Gate for NoGate {
    fn before(&self, _session: u64, _turn: u64) {}
}
