//! The machine of a plan, with all the memory that its steps take.
ghost use Rattle.std.specs.Prelude.{◌≡◌, ◌+◌, ◌<◌, ◌≤◌, ◌^◌, [], IfOk, length, map, replicate};
ghost use Rattle.steer_base.specs.Journals.{journal, new_journals};
ghost use Rattle.steer_base.specs.declared.limits.TheConstants.{MAX_PACKETS};
ghost use Rattle.steer_core.specs.Starting.{AreEmpty, AreUnset, IsFixed, started};
ghost use Rattle.steer_model.specs.State.Ranges.{AreOfFlows};
ghost use Rattle.steer_model.specs.State.Start.{fresh_rx, fresh_tx};

use crate::actors::Actors;
use accel_filter::FilterTable;
use history::{Arrival, Commanded, Sent, SockWrite};
use hop_core::Hop;
use hop_model::{HopShape, MAX_HOP_ROOM};
use plan_reader::{Plan, QueuePlan};
use sock_flow_table::SockTable;
use std::alloc::Global;
use steer_base::{CpuMask, Journal, Journals, OutOfMemory, Packet};
use steer_model::{Given, InForce, Note, flow_count};

impl Actors {
    /// The machine of a plan before its first step: open gates, empty lists, and room for all that
    /// the plan's steps append.
    pub fn make(
        alloc: Global,
        plan: &Plan,
        packets: &[Packet],
        cut: Option<u32>,
    ) -> Result<Actors, OutOfMemory>
        requires few { length packets.now ≤ MAX_PACKETS }
        requires flows { AreOfFlows packets.now }
        ensures { IfOk result (λ actors. actors ≡ started plan.now packets.now cut) }
    {
        // A read, so that the start is known to be a number of 32 bits.
        let _start = plan.start;
        let around = Around::make(alloc, plan, packets, cut)?;
        let hops = Hops::make(alloc, plan, packets)?;
        let Around {
            fixed,
            tables,
            lists,
        } = around;
        Ok(Actors {
            given: fixed.given,
            settings: fixed.settings,
            socket: tables.socket,
            filters: tables.filters,
            notes: tables.notes,
            rx: hops.rx,
            tx: hops.tx,
            arrivals: lists.of_packets.arrivals,
            sent: lists.of_packets.sent,
            writes: lists.of_steps.writes,
            commands: lists.of_steps.commands,
        })
    }
}

// What there is beside the hops. The machine is made in parts, so that few lists at a time are
// given back where memory runs out.
#[derive(Drop)]
struct Around {
    fixed: Fixed,
    tables: Tables,
    lists: Lists,
}

impl Around {
    // All of it before the first step.
    fn make(
        alloc: Global,
        plan: &Plan,
        packets: &[Packet],
        cut: Option<u32>,
    ) -> Result<Around, OutOfMemory>
        requires few { length packets.now ≤ MAX_PACKETS }
        requires flows { AreOfFlows packets.now }
        ensures fixed { IfOk result (λ around. IsFixed plan.now packets.now cut around.fixed) }
        ensures tables { IfOk result (λ around. AreUnset plan.now around.tables) }
        ensures lists { IfOk result (λ around. AreEmpty plan.now packets.now around.lists) }
    {
        let fixed = Fixed::make(alloc, plan, packets, cut)?;
        let tables = Tables::make(alloc, plan)?;
        let lists = Lists::make(alloc, plan, packets)?;
        Ok(Around {
            fixed,
            tables,
            lists,
        })
    }
}

// What the plan and the capture fix, and the settings that are in force.
#[derive(Drop)]
struct Fixed {
    given: Given,
    settings: InForce,
}

impl Fixed {
    // Both as the plan has them.
    fn make(
        alloc: Global,
        plan: &Plan,
        packets: &[Packet],
        cut: Option<u32>,
    ) -> Result<Fixed, OutOfMemory>
        requires few { length packets.now ≤ MAX_PACKETS }
        requires flows { AreOfFlows packets.now }
        ensures { IfOk result (IsFixed plan.now packets.now cut) }
    {
        let given = Given::of_plan(alloc, plan, packets, cut)?;
        let settings = InForce::of_plan(alloc, plan)?;
        Ok(Fixed { given, settings })
    }
}

// The socket flow table, the filters and the notes of the pollers.
#[derive(Drop)]
struct Tables {
    socket: SockTable,
    filters: FilterTable,
    notes: Vec<Note>,
}

impl Tables {
    // All of them unset.
    fn make(alloc: Global, plan: &Plan) -> Result<Tables, OutOfMemory>
        ensures { IfOk result (AreUnset plan.now) }
    {
        let socket = SockTable::make(alloc, plan.sock)?;
        let filters = FilterTable::make(alloc, plan.filters)?;
        let notes = no_notes(alloc, plan.queues.len() as u8)?;
        Ok(Tables {
            socket,
            filters,
            notes,
        })
    }
}

// The receive hop and the transmit hop.
#[derive(Drop)]
struct Hops {
    rx: Hop,
    tx: Hop,
}

impl Hops {
    // Both of them empty.
    fn make(alloc: Global, plan: &Plan, packets: &[Packet]) -> Result<Hops, OutOfMemory>
        requires few { length packets.now ≤ MAX_PACKETS }
        requires flows { AreOfFlows packets.now }
        ensures rx { IfOk result (λ hops. hops.rx ≡ fresh_rx plan.now packets.now) }
        ensures tx { IfOk result (λ hops. hops.tx ≡ fresh_tx plan.now packets.now) }
    {
        let rx = receive_hop(alloc, plan, packets)?;
        Hops::with_receive(rx, alloc, plan, packets)
    }

    // This receive hop, and an empty transmit hop.
    fn with_receive(
        rx: Hop,
        alloc: Global,
        plan: &Plan,
        packets: &[Packet],
    ) -> Result<Hops, OutOfMemory>
        requires few { length packets.now ≤ MAX_PACKETS }
        requires flows { AreOfFlows packets.now }
        ensures rx { IfOk result (λ hops. hops.rx ≡ rx) }
        ensures tx { IfOk result (λ hops. hops.tx ≡ fresh_tx plan.now packets.now) }
    {
        let tx = transmit_hop(alloc, plan, packets)?;
        Ok(Hops { rx, tx })
    }
}

// What the history keeps beside the hops.
#[derive(Drop)]
struct Lists {
    of_packets: PacketLists,
    of_steps: StepLists,
}

impl Lists {
    // Empty lists, with room for all that the plan's steps append.
    fn make(alloc: Global, plan: &Plan, packets: &[Packet]) -> Result<Lists, OutOfMemory>
        requires { length packets.now ≤ MAX_PACKETS }
        ensures { IfOk result (AreEmpty plan.now packets.now) }
    {
        let room = packets.len() as u32;
        let apps = plan.apps.len() as u8;
        let of_packets = PacketLists::make(alloc, apps, room)?;
        let of_steps = StepLists::make(alloc, apps, room, plan.step_count())?;
        Ok(Lists {
            of_packets,
            of_steps,
        })
    }
}

// The arrivals, and the replies of each application.
#[derive(Drop)]
struct PacketLists {
    arrivals: Journal<Arrival>,
    sent: Journals<Sent>,
}

impl PacketLists {
    // Empty lists, with room for each packet.
    fn make(alloc: Global, apps: u8, room: u32) -> Result<PacketLists, OutOfMemory>
        ensures arrivals { IfOk result (λ lists. lists.arrivals ≡ journal [] room) }
        ensures sent { IfOk result (λ lists. lists.sent ≡ new_journals apps room) }
    {
        let arrivals = Journal::make(alloc, room)?;
        let sent = Journals::make(alloc, apps, room)?;
        Ok(PacketLists { arrivals, sent })
    }
}

// The writes of each application to the socket flow table, and the commands.
#[derive(Drop)]
struct StepLists {
    writes: Journals<SockWrite>,
    commands: Journal<Commanded>,
}

impl StepLists {
    // Empty lists, with room for a command of each step and for a write of each step and packet.
    fn make(alloc: Global, apps: u8, packets: u32, steps: u32) -> Result<StepLists, OutOfMemory>
        requires { steps + packets < 2 ^ 32 }
        ensures writes { IfOk result (λ lists. lists.writes ≡ new_journals apps (steps + packets)) }
        ensures commands { IfOk result (λ lists. lists.commands ≡ journal [] steps) }
    {
        let writes = Journals::make(alloc, apps, steps + packets)?;
        let commands = Journal::make(alloc, steps)?;
        Ok(StepLists { writes, commands })
    }
}

// The receive hop: from the receive queues over the processors to the inboxes, with the
// applications and a controller as guests.
fn receive_hop(alloc: Global, plan: &Plan, packets: &[Packet]) -> Result<Hop, OutOfMemory>
    requires { length packets.now ≤ MAX_PACKETS }
    ensures { IfOk result (λ hop. hop ≡ fresh_rx plan.now packets.now) }
{
    let counts = flow_counts(alloc, plan.queues.as_slice())?;
    let apps = plan.apps.len() as u8;
    Hop::make(
        alloc,
        HopShape {
            producers: plan.queues.len() as u8,
            guests: apps + 1,
            lanes: plan.cpus,
            outs: apps,
            limit: plan.backlog,
            room: packets.len() as u32,
            counts,
            exact: false,
            start: plan.start,
            limited: plan.limited,
        },
    )
}

// The transmit hop: from the applications over the transmit queues to the port, with a class for
// each flow number and one at least, and lanes that are never full.
fn transmit_hop(alloc: Global, plan: &Plan, packets: &[Packet]) -> Result<Hop, OutOfMemory>
    requires few { length packets.now ≤ MAX_PACKETS }
    requires flows { AreOfFlows packets.now }
    ensures { IfOk result (λ hop. hop ≡ fresh_tx plan.now packets.now) }
{
    let apps = plan.apps.len() as u8;
    let counts = for_each_app(alloc, apps, flow_count(packets).max(1) as u32)?;
    Hop::make(
        alloc,
        HopShape {
            producers: apps,
            guests: 0,
            lanes: plan.tx.len() as u8,
            outs: 1,
            limit: MAX_HOP_ROOM,
            room: packets.len() as u32,
            counts,
            exact: true,
            start: plan.start,
            limited: CpuMask(0),
        },
    )
}

// The flow count of each receive queue, as given.
fn flow_counts(alloc: Global, queues: &[QueuePlan]) -> Result<Vec<u32>, OutOfMemory>
    ensures { IfOk result (λ counts. counts.items ≡ map (λ queue. queue.flows) queues.now) }
{
    Ok(queues.iter().map(|queue| queue.flows).collect(alloc)?)
}

// A number for each application.
fn for_each_app(alloc: Global, apps: u8, number: u32) -> Result<Vec<u32>, OutOfMemory>
    ensures { IfOk result (λ numbers. numbers.items ≡ replicate apps number) }
{
    Ok(Vec::from_elem(alloc, number, apps as usize)?)
}

// Nothing as the note of each poller.
fn no_notes(alloc: Global, queues: u8) -> Result<Vec<Note>, OutOfMemory>
    ensures { IfOk result (λ notes. notes.items ≡ replicate queues Note.Nothing) }
{
    Ok(Vec::from_elem(alloc, Note::Nothing, queues as usize)?)
}
