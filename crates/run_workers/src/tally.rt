//! The words in which the workers of a run count the packets that they have finished.
ghost use Rattle.std.specs.Prelude.{◌≡◌, ◌<◌, IfOk};
ghost use Rattle.linearization.specs.Seats.{new_seats};
ghost use Rattle.hint_words.specs.Loads.{LoadsAreStored};
ghost use Rattle.run_workers.specs.Tally.{AreSeatsOf, IsTally};

use hint_words::{HintSeat, Hints};
use std::alloc::Global;
use steer_base::OutOfMemory;

/// The words in which each worker tells the others how many packets it has finished.
#[derive(Drop)]
pub struct Tally {
    /// A word for each worker.
    pub words: Hints,
    /// The number of workers.
    pub workers: u32,
}

/// The place of a worker at the tally.
#[derive(Drop)]
pub struct Counter {
    /// Its seat.
    pub seat: HintSeat,
    /// The number of the worker and of its word.
    pub number: u32,
    /// The count that it told last.
    pub told: u64,
}

impl Tally {
    /// The tally of so many workers, and its seats by their numbers. The only error is out of
    /// memory.
    pub fn make(alloc: Global, workers: u32) -> Result<(Tally, Vec<HintSeat>), OutOfMemory>
        ensures is { IfOk result (λ r. IsTally r.0) }
        ensures workers { IfOk result (λ r. r.0.workers ≡ workers) }
        ensures seats { IfOk result (λ r. r.1.items ≡ new_seats r.0.words.table 0 workers) }
    {
        let (words, seats) = Hints::make(alloc, workers, workers)?;
        Ok((Tally { words, workers }, seats))
    }

    /// Ends the tally. It takes all its seats, in any order, and allocates nothing.
    pub fn close(self, seats: Vec<HintSeat>)
        requires is { IsTally self }
        requires seats { AreSeatsOf self seats.items }
        ensures { LoadsAreStored seats.items }
    {
        self.words.close_hints(seats);
    }
}

impl Counter {
    /// The place of the worker with this number, which has told nothing.
    pub fn new(seat: HintSeat, number: u32) -> Counter
        ensures seat { result.seat ≡ seat }
        ensures number { result.number ≡ number }
    {
        Counter {
            seat,
            number,
            told: 0,
        }
    }
}
