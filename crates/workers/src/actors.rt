//! The actors of a run, each kind in the order of its numbers.
ghost use Rattle.std.specs.Prelude.{◌≡◌, ◌≤◌, IfOk, length};
ghost use Rattle.steer_base.specs.declared.limits.TheConstants.{MAX_PACKETS};
ghost use Rattle.steer_model.specs.State.Ranges.{AreOfFlows};
ghost use Rattle.run_workers.specs.Actors.{Each};
ghost use Rattle.workers.specs.Actors.{AreFirst, ArePaired, IsFirstDrain, IsFirstPoller};
ghost use Rattle.workers.specs.Actors.{IsFirstServer};

use plan_reader::Plan;
use rtrb::{Producer, RingBuffer};
use run_workers::{Drain, Exit, Poller, Server};
use std::alloc::Global;
use steer_base::{OutOfMemory, Packet};
use steer_model::flow_count;

/// The ends of the rings at which packets arrive, by receive queue.
pub(crate) type Rings = Vec<Producer<u32, Global>>;

/// The actors of a run, each kind in the order of its numbers.
#[derive(Drop)]
pub(crate) struct Actors {
    /// The pollers, by receive queue.
    pub pollers: Vec<Poller>,
    /// What empties the backlogs, by processor.
    pub drains: Vec<Drain>,
    /// The applications.
    pub servers: Vec<Server>,
    /// What empties the transmit queues.
    pub ships: Vec<Drain>,
}

impl Actors {
    /// Makes all actors of a plan for the packets of a capture, and the other ends of the rings of
    /// the receive queues, each with room for all packets. The only error is out of memory.
    pub fn make(
        alloc: Global,
        plan: &Plan,
        packets: &[Packet],
    ) -> Result<(Rings, Actors), OutOfMemory>
        requires few { length packets.now ≤ MAX_PACKETS }
        requires flows { AreOfFlows packets.now }
        ensures rings { IfOk result (λ r.
            ArePaired (length packets.now) r.0.items r.1.pollers.items) }
        ensures first { IfOk result (λ r. AreFirst plan.now packets.now r.1) }
    {
        let room = packets.len() as u32;
        let (rings, pollers) = queues(alloc, plan, room)?;
        let actors = Actors {
            pollers,
            drains: drains(alloc, plan.cpus, Exit::Inboxes, plan.start)?,
            servers: servers(alloc, plan, flow_count(packets) as u32, room)?,
            ships: drains(alloc, plan.tx.len() as u8, Exit::Port, plan.start)?,
        };
        Ok((rings, actors))
    }
}

// A ring for each receive queue, with its poller.
fn queues(alloc: Global, plan: &Plan, room: u32) -> Result<(Rings, Vec<Poller>), OutOfMemory>
    requires { room ≤ MAX_PACKETS }
    ensures rings { IfOk result (λ r. ArePaired room r.0.items r.1.items) }
    ensures count { IfOk result (λ r. length r.1.items ≡ length plan.now.queues) }
    ensures first { IfOk result (λ r. Each (IsFirstPoller plan.now room) r.1.items) }
{
    let count = plan.queues.len();
    let mut rings = Vec::with_capacity(alloc, count)?;
    let mut pollers = Vec::with_capacity(alloc, count)?;
    for queue in 0..count as u8 {
        let (producer, ring) = RingBuffer::<u32>::new(alloc, room as usize)?;
        let flows = plan.queues.get(queue as usize).flows;
        rings.push(producer)?;
        pollers.push(Poller::make(alloc, queue, ring, flows, plan.start, room)?)?;
    }
    Ok((rings, pollers))
}

// What empties so many lanes, whose counters start at the number `start`.
fn drains(alloc: Global, lanes: u8, exit: Exit, start: u32) -> Result<Vec<Drain>, OutOfMemory>
    ensures count { IfOk result (λ all. length all.items ≡ lanes) }
    ensures first { IfOk result (λ all. Each (IsFirstDrain exit start) all.items) }
{
    Ok(
        (0..lanes)
            .map(
                |lane|
                    ensures { IsFirstDrain exit start lane result }
                { Drain::new(lane, exit, start) },
            )
            .collect(alloc)?,
    )
}

// The applications, each with a table for so many flows.
fn servers(alloc: Global, plan: &Plan, flows: u32, room: u32) -> Result<Vec<Server>, OutOfMemory>
    requires flows { flows ≤ MAX_PACKETS }
    requires room { room ≤ MAX_PACKETS }
    ensures count { IfOk result (λ all. length all.items ≡ length plan.now.apps) }
    ensures first { IfOk result (λ all. Each (IsFirstServer plan.now room flows) all.items) }
{
    let count = plan.apps.len();
    let mut all = Vec::with_capacity(alloc, count)?;
    for app in 0..count as u8 {
        let home = *plan.apps.get(app as usize);
        all.push(Server::make(alloc, app, home, plan.start, flows, room)?)?;
    }
    Ok(all)
}
