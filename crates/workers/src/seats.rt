//! The seats of a run, dealt out to its threads.
ghost use Rattle.std.specs.Prelude.{◌≡◌, ◌<◌, ◌+◌, ◌∷◌, ◌++◌, IfOk, length, map};
ghost use Rattle.std.specs.Vec.{vec_len};
ghost use Rattle.workers.specs.Seats.{AreSeated};

use crate::boards::AllSeats;
use hint_words::HintSeat;
use run_words::Seats;
use std::alloc::Global;
use steer_base::OutOfMemory;

/// The seats of a run, by the threads that have them.
#[derive(Drop)]
pub(crate) struct RunSeats {
    /// Those of the workers, by their numbers.
    pub workers: Vec<Seats>,
    /// Those of the controller.
    pub controller: Seats,
    /// That of the wire.
    pub wire: HintSeat,
}

impl RunSeats {
    /// Gives the first seats to so many workers, the next ones to the controller, and the last one
    /// at the hint words to the wire. The only error is out of memory.
    pub fn of(alloc: Global, seats: AllSeats, count: u32) -> Result<RunSeats, OutOfMemory>
        requires rx { vec_len seats.rx ≡ count + 1 }
        requires tx { vec_len seats.tx ≡ count + 1 }
        requires hints { vec_len seats.hints ≡ count + 2 }
        ensures { IfOk result (λ r. AreSeated seats count r) }
    {
        let mut left = seats;
        let workers = workers_seats(alloc, &mut left, count)?;
        let controller = next_seats(&mut left);
        let wire = left.hints.remove(0);
        Ok(RunSeats {
            workers,
            controller,
            wire,
        })
    }
}

// The first so many seats of each kind.
fn workers_seats(alloc: Global, left: &mut AllSeats, count: u32) -> Result<Vec<Seats>, OutOfMemory>
    requires rx { count < vec_len left.old.rx }
    requires tx { count < vec_len left.old.tx }
    requires hints { count < vec_len left.old.hints }
    ensures count { IfOk result (λ all. length all.items ≡ count) }
    ensures rx { IfOk result (λ all.
        left.old.rx.items ≡ map (λ s. s.rx) all.items ++ left.new.rx.items) }
    ensures tx { IfOk result (λ all.
        left.old.tx.items ≡ map (λ s. s.tx) all.items ++ left.new.tx.items) }
    ensures hints { IfOk result (λ all.
        left.old.hints.items ≡ map (λ s. s.hint) all.items ++ left.new.hints.items) }
{
    let mut all = Vec::with_capacity(alloc, count as usize)?;
    for _ in 0..count {
        all.push(next_seats(left))?;
    }
    Ok(all)
}

// The first seat of each kind.
fn next_seats(left: &mut AllSeats) -> Seats
    requires rx { 0 < vec_len left.old.rx }
    requires tx { 0 < vec_len left.old.tx }
    requires hints { 0 < vec_len left.old.hints }
    ensures rx { left.old.rx.items ≡ result.rx ∷ left.new.rx.items }
    ensures tx { left.old.tx.items ≡ result.tx ∷ left.new.tx.items }
    ensures hints { left.old.hints.items ≡ result.hint ∷ left.new.hints.items }
{
    Seats {
        rx: left.rx.remove(0),
        tx: left.tx.remove(0),
        hint: left.hints.remove(0),
    }
}
