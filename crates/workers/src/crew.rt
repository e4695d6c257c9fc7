//! The workers of a run with their actors.
ghost use Rattle.std.specs.Prelude.{◌≡◌, ◌<◌, ◌∷◌, IfOk, length};
ghost use Rattle.std.specs.Vec.{vec_len};
ghost use Rattle.workers.specs.Crews.{AreDealtOut, HasHands, HaveHands, IsCrewOf};

use crate::actors::Actors;
use crate::round_robin::deal;
use run_crew::Seated;
use run_words::Seats;
use run_workers::{Drain, Poller, Server, Worker};
use std::alloc::Global;
use steer_base::OutOfMemory;

/// The actors of a run, dealt out: of each kind a hand for each worker.
#[derive(Drop)]
pub(crate) struct Hands {
    pub pollers: Vec<Vec<Poller>>,
    pub drains: Vec<Vec<Drain>>,
    pub servers: Vec<Vec<Server>>,
    pub ships: Vec<Vec<Drain>>,
}

impl Hands {
    // Deals the actors out to so many workers.
    fn of(alloc: Global, actors: Actors, count: usize) -> Result<Hands, OutOfMemory>
        requires some { 0 < count }
        ensures count { IfOk result (λ hands. HasHands hands count) }
        ensures dealt { IfOk result (λ hands. AreDealtOut actors hands) }
    {
        let Actors {
            pollers,
            drains,
            servers,
            ships,
        } = actors;
        Ok(Hands {
            pollers: deal(alloc, pollers, count)?,
            drains: deal(alloc, drains, count)?,
            servers: deal(alloc, servers, count)?,
            ships: deal(alloc, ships, count)?,
        })
    }

    // The worker that has the first hand of each kind.
    fn next_worker(&mut self) -> Worker
        requires pollers { 0 < vec_len self.old.pollers }
        requires drains { 0 < vec_len self.old.drains }
        requires servers { 0 < vec_len self.old.servers }
        requires ships { 0 < vec_len self.old.ships }
        ensures pollers { self.old.pollers.items ≡ result.pollers ∷ self.new.pollers.items }
        ensures drains { self.old.drains.items ≡ result.drains ∷ self.new.drains.items }
        ensures servers { self.old.servers.items ≡ result.servers ∷ self.new.servers.items }
        ensures ships { self.old.ships.items ≡ result.ships ∷ self.new.ships.items }
    {
        Worker {
            pollers: self.pollers.remove(0),
            drains: self.drains.remove(0),
            servers: self.servers.remove(0),
            ships: self.ships.remove(0),
        }
    }
}

/// Deals the actors of a run out to a worker for each of these seats. The only error is out of
/// memory.
pub(crate) fn crew_of(
    alloc: Global,
    actors: Actors,
    seats: Vec<Seats>,
) -> Result<Vec<Seated>, OutOfMemory>
    requires { 0 < length seats.items }
    ensures { IfOk result (λ crew. IsCrewOf actors seats.items crew.items) }
{
    let hands = Hands::of(alloc, actors, seats.len())?;
    seated(alloc, hands, seats)
}

// A worker for each of these seats, with the hands of its number.
fn seated(alloc: Global, hands: Hands, seats: Vec<Seats>) -> Result<Vec<Seated>, OutOfMemory>
    requires { HasHands hands (length seats.items) }
    ensures { IfOk result (λ crew. HaveHands hands seats.items crew.items) }
{
    let mut left = hands;
    let mut crew = Vec::with_capacity(alloc, seats.len())?;
    for seats in seats {
        let worker = left.next_worker();
        crew.push(Seated { worker, seats })?;
    }
    Ok(crew)
}
