//! What the workers of a run leave.
ghost use Rattle.std.specs.Prelude.{◌≡◌, ◌≤◌, [], length};
ghost use Rattle.std.specs.Vec.{vec_capacity};
ghost use Rattle.steer_base.specs.Journals.{journal};
ghost use Rattle.workers.specs.GatheredHands.{HaveAll, dealt_items};
ghost use Rattle.workers.specs.Parts.{AreParts};
ghost use Rattle.workers.specs.Spares.{AreSeats};

use crate::round_robin::gather;
use crate::spare::SpareSeats;
use run_crew::Seated;
use run_words::Seats;
use run_workers::{Poller, Server, Worker};
use steer_base::Journal;

/// What the workers of a run leave, by worker: its seats, its pollers and its applications.
#[derive(Drop)]
pub struct Parts {
    /// The seats.
    pub seats: SpareSeats,
    /// The pollers, by worker.
    pub pollers: Vec<Vec<Poller>>,
    /// The applications, by worker.
    pub servers: Vec<Vec<Server>>,
}

/// Takes the workers apart.
pub fn take_apart(
    mut crew: Vec<Seated>,
    mut seats: SpareSeats,
    mut pollers: Journal<Vec<Poller>>,
    mut servers: Journal<Vec<Server>>,
) -> Parts
    requires seats { AreSeats (length crew.items) seats }
    requires pollers { pollers ≡ journal [] (length crew.items) }
    requires servers { servers ≡ journal [] (length crew.items) }
    ensures { AreParts crew.items result }
{
    crew.reverse();
    while let Some(Seated { worker, seats: own }) = crew.pop() {
        let Worker {
            pollers: polls,
            servers: serves,
            ..
        } = worker;
        let Seats { rx, tx, hint } = own;
        seats.rx.push(rx);
        seats.tx.push(tx);
        seats.hints.push(hint);
        pollers.push(polls);
        servers.push(serves);
    }
    Parts {
        seats,
        pollers: pollers.into_vec(),
        servers: servers.into_vec(),
    }
}

/// Takes all actors of a kind back from the workers that played them, in the order of their
/// numbers. `all` is an empty list with room for the `count` actors; it is returned with them.
pub fn all_actors<T: Drop>(hands: Vec<Vec<T>>, all: Vec<T>, count: usize) -> Vec<T>
    requires hands { HaveAll hands.items count }
    requires empty { all.items ≡ [] }
    requires room { count ≤ vec_capacity all }
    ensures { result.items ≡ dealt_items hands.items count }
{
    gather(hands, all, count)
}
