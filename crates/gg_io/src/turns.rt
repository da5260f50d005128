//! `Gate`: a place that a worker passes at each of its turns.

/// A place that workers pass. It returns nothing, so no result can depend on it; a test may use it to make one worker
/// wait for another. It is shared between workers.
pub trait Gate {
    /// Called when worker `worker`, counted from 0, is about to begin its turn `turn`, counted from 0.
    fn pass(&self, worker: u32, turn: u64);
}

/// A gate that does nothing.
#[derive(Clone, Copy, Default, PartialEq, Eq)]
pub struct NoGate;

impl Gate for NoGate {
    fn pass(&self, _worker: u32, _turn: u64) {}
}
