//! A worker and its seats.
use run_words::Seats;
use run_workers::Worker;

/// A worker and its seats.
#[derive(Drop)]
pub struct Seated {
    /// The worker.
    pub worker: Worker,
    /// Its seats at both boards and at the hint words.
    pub seats: Seats,
}
