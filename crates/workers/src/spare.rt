//! The lists that take up what a run leaves.
ghost use Rattle.std.specs.Prelude.{◌≤◌, IfOk, length};
ghost use Rattle.workers.specs.Spares.{AreActors, AreLists, AreSeats, IsSpare};

use board_api::BoardSeat;
use hint_words::HintSeat;
use history::{Sent, SockWrite};
use plan_reader::Plan;
use run_workers::{Poller, Server};
use std::alloc::Global;
use steer_base::{Chosen, Journal, List, OutOfMemory};

/// Empty lists with room for what a run leaves, so that its end allocates nothing.
#[derive(Drop)]
pub struct Spare {
    /// For the seats of all threads.
    pub seats: SpareSeats,
    /// For the actors of all workers.
    pub actors: SpareActors,
    /// For the lists of a history.
    pub lists: SpareLists,
}

/// Empty lists of seats.
#[derive(Drop)]
pub struct SpareSeats {
    /// At the receive board: of the workers and of the controller.
    pub rx: Journal<BoardSeat>,
    /// At the transmit board: of the same.
    pub tx: Journal<BoardSeat>,
    /// At the hint words: of the same and of the wire.
    pub hints: Journal<HintSeat>,
}

/// Empty lists of actors.
#[derive(Drop)]
pub struct SpareActors {
    /// The pollers of each worker.
    pub dealt_pollers: Journal<Vec<Poller>>,
    /// The applications of each worker.
    pub dealt_servers: Journal<Vec<Server>>,
    /// The pollers of all receive queues.
    pub pollers: Vec<Poller>,
    /// All applications.
    pub servers: Vec<Server>,
}

/// Empty lists of a history.
#[derive(Drop)]
pub struct SpareLists {
    /// For each receive queue, the number of packets that its poller took.
    pub taken: Journal<u32>,
    /// For each receive queue, the processor choices of its packets.
    pub choices: Journal<List<Chosen>>,
    /// For each application, the replies that it began.
    pub sent: Journal<List<Sent>>,
    /// For each application, the transmit queue choices of its replies.
    pub tx_choices: Journal<List<Chosen>>,
    /// For each application, its writes to the socket flow table.
    pub writes: Journal<List<SockWrite>>,
}

impl Spare {
    /// Empty lists for the end of a run of this plan. Allocates their memory; the only error is out
    /// of memory.
    pub fn make(alloc: Global, plan: &Plan) -> Result<Spare, OutOfMemory>
        ensures { IfOk result (IsSpare (length plan.now.queues) (length plan.now.apps)
            plan.now.workers) }
    {
        let queues = plan.queues.len() as u32;
        let apps = plan.apps.len() as u32;
        Ok(Spare {
            seats: spare_seats(alloc, plan.workers)?,
            actors: spare_actors(alloc, queues, apps, plan.workers)?,
            lists: spare_lists(alloc, queues, apps)?,
        })
    }
}

// Lists for the seats of so many workers, of the controller and of the wire.
fn spare_seats(alloc: Global, workers: u32) -> Result<SpareSeats, OutOfMemory>
    requires few { workers ≤ 32 }
    ensures { IfOk result (AreSeats workers) }
{
    Ok(SpareSeats {
        rx: Journal::make(alloc, workers + 1)?,
        tx: Journal::make(alloc, workers + 1)?,
        hints: Journal::make(alloc, workers + 2)?,
    })
}

// Lists for so many actors of so many workers.
fn spare_actors(
    alloc: Global,
    queues: u32,
    apps: u32,
    workers: u32,
) -> Result<SpareActors, OutOfMemory>
    ensures { IfOk result (AreActors queues apps workers) }
{
    Ok(SpareActors {
        dealt_pollers: Journal::make(alloc, workers)?,
        dealt_servers: Journal::make(alloc, workers)?,
        pollers: Vec::with_capacity(alloc, queues as usize)?,
        servers: Vec::with_capacity(alloc, apps as usize)?,
    })
}

// Lists for so many receive queues and applications.
fn spare_lists(alloc: Global, queues: u32, apps: u32) -> Result<SpareLists, OutOfMemory>
    ensures { IfOk result (AreLists queues apps) }
{
    Ok(SpareLists {
        taken: Journal::make(alloc, queues)?,
        choices: Journal::make(alloc, queues)?,
        sent: Journal::make(alloc, apps)?,
        tx_choices: Journal::make(alloc, apps)?,
        writes: Journal::make(alloc, apps)?,
    })
}
