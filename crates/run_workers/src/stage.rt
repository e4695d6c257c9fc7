//! What the workers of a run share.
use history::Arrival;
use run_words::Shared;
use steer_base::Journal;

/// What the workers of a run share.
#[derive(Drop)]
pub struct Stage<B> {
    /// The receive board.
    pub rx: B,
    /// The transmit board.
    pub tx: B,
    /// What all threads share beside the boards.
    pub shared: Shared,
    /// The arrivals in the order of the packets once all have arrived, and none before.
    pub late: Journal<Arrival>,
}
