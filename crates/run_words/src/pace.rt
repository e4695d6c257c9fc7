//! What tells the threads of a run to go on.

/// How much there is to do in a run.
#[derive(Clone, Copy)]
pub struct Extent {
    /// The workers.
    pub workers: u32,
    /// The packets that arrive.
    pub packets: usize,
    /// The receive queues.
    pub queues: usize,
    /// The commands, each of which may be tried several times.
    pub commands: usize,
}

/// Called by each thread before it does its next piece of work, so that a caller can hold one
/// thread until another has come to some point. It decides nothing.
pub trait Pace {
    /// A run of this extent is about to begin. Called once, before the first call of `turn`.
    fn begins(&self, _extent: Extent) {}

    /// The thread is about to begin its n-th piece of work, counted from 1. Workers have the
    /// numbers from 0 on; then come the wire and the controller.
    fn turn(&self, worker: u32, n: u64);
}
