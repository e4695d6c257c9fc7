//! A hop: producers, lanes with their hands and heads, out lanes, and a gate.
ghost use Rattle.std.specs.Prelude.{◌≡◌, ℕ, ◌+◌, ◌<◌, ◌≤◌, false, length, IfOk, map, replicate};
ghost use Rattle.std.specs.List.{All};
ghost use Rattle.hop_model.specs.Events.{MayAsk, happens};
ghost use Rattle.steer_base.specs.Journals.{new_journals};
ghost use Rattle.hop_model.specs.Reads.{FitsRoom};
ghost use Rattle.hop_model.specs.Shape.{classes_for, most_classes, new_hop};
ghost use Rattle.hop_core.specs.Sizes.{SameSizes};
ghost use Rattle.hop_model.specs.Sound.{Sound};
ghost use Rattle.hop_model.specs.declared.shape.TheConstants.{MAX_HOP_ROOM};

mod asking;
mod events;
mod moves;
mod readers;

use crate::lanes::Lanes;
use crate::tables::Tables;
use hop_model::{HopAnswer, HopEvent, HopShape};
use std::alloc::Global;
use std::marker::Model;
use steer_base::{Chosen, Journals, OutOfMemory, PacketId, round_up};

/// One steered hop. In the receive direction the producers are receive queues, the lanes are the
/// processors' backlogs and the out lanes are the applications' inboxes; in the transmit direction
/// they are the applications, the transmit queues and the port.
#[derive(Drop)]
pub struct Hop {
    rings: Rings,
    counts: Vec<u32>,
    tables: Tables,
    lanes: Lanes,
    hands: Hands,
    outs: Journals<PacketId>,
    gate: Gate,
}

impl Model for Hop {
    ghost use Rattle.hop_model.specs.Hop.{HopState};
    ghost use Rattle.hop_core.specs.View.{parts_of, state_of};
    ghost use Rattle.hop_core.specs.Whole.{IsWhole};

    ghost Value = { HopState };

    ghost view = { λ h. state_of (parts_of h.rings h.counts.items h.tables h.lanes h.hands h.outs
        h.gate) };

    ghost invariant = { λ h. IsWhole (parts_of h.rings h.counts.items h.tables h.lanes h.hands
        h.outs h.gate) };
}

impl Hop {
    /// A hop in which nothing has happened yet. Allocates all its memory here.
    pub fn make(alloc: Global, shape: HopShape) -> Result<Hop, OutOfMemory>
        requires limit { 1 ≤ shape.limit }
        requires room { shape.room ≤ MAX_HOP_ROOM }
        requires producers { 1 ≤ shape.producers }
        requires few_producers { shape.producers ≤ 32 }
        requires guests { shape.guests ≤ 64 }
        requires lanes { 1 ≤ shape.lanes }
        requires few_lanes { shape.lanes ≤ 32 }
        requires outs { 1 ≤ shape.outs }
        requires few_outs { shape.outs ≤ 32 }
        requires counts { length shape.counts.items ≡ shape.producers }
        requires classes { All (λ count. count ≤ most_classes shape.exact) shape.counts.items }
        ensures { IfOk result (λ hop. hop ≡ new_hop shape) }
    {
        let (limit, room, start) = (shape.limit, shape.room, shape.start);
        let tables = Tables::make(alloc, &shape.counts, start, shape.exact)?;
        let counts = class_counts(alloc, &shape.counts, shape.exact)?;
        let rings = Rings::make(alloc, shape.producers, room)?;
        let lanes = Lanes::make(alloc, shape.lanes, limit, room, start, shape.limited)?;
        let hands = Hands::make(alloc, shape.lanes)?;
        let outs = Journals::make(alloc, shape.outs, room)?;
        let gate = Gate::make(alloc, shape.producers + shape.guests)?;
        Ok(Hop {
            rings,
            counts,
            tables,
            lanes,
            hands,
            outs,
            gate,
        })
    }

    /// Makes one event, the step of one actor. Allocates nothing.
    #[tactic(auto, using(crate::proofs::Wholes::sizes_stay))]
    pub fn step(&mut self, e: HopEvent) -> HopAnswer
        requires { MayAsk self.old e }
        ensures state { self.new ≡ (happens self.old e).0 }
        ensures answer { result ≡ (happens self.old e).1 }
        ensures sizes { SameSizes self.old self.new }
    {
        match e {
            HopEvent::Arrive { p, id } => self.arrive(p, id),
            HopEvent::Take { p } => self.take(p),
            HopEvent::Enter { p } => self.enter(p),
            HopEvent::Leave { p } => self.leave(p),
            HopEvent::Weigh {
                p,
                class,
                want,
                desired,
                online,
            } => self.weigh(p, class, want, desired, online),
            HopEvent::Put { p, hash } => self.put(p, hash),
            HopEvent::Pull { lane } => self.pull(lane),
            HopEvent::Deliver { lane, to } => self.deliver(lane, to),
            HopEvent::Retire { lane } => self.retire(lane),
            HopEvent::Resize { p, count } => self.resize(p, count),
            HopEvent::Close => self.close(),
            HopEvent::Reopen => self.reopen(),
        }
    }

    /// Lemma: every hop is sound, and its lists are no longer than its room.
    pub fn sound(&self)
        ensures sound { Sound self.now }
        ensures fits { FitsRoom self.now }
    {
        // Reads the hop, so that its invariant is known here.
        let _ = &self.gate.closed;
    }
}

// For each producer: its ring and how many packets of it were taken, its choices and how many of
// them were put, and how many there were at the last resize.
#[derive(Drop)]
struct Rings {
    arrivals: Journals<PacketId>,
    taken: Vec<u32>,
    choices: Journals<Chosen>,
    placed: Vec<u32>,
    since: Vec<u32>,
}

impl Rings {
    fn make(alloc: Global, producers: u8, room: u32) -> Result<Rings, OutOfMemory>
        requires { room ≤ MAX_HOP_ROOM }
        ensures arrivals { IfOk result (λ rings. rings.arrivals ≡ new_journals producers room) }
        ensures taken { IfOk result (λ rings. rings.taken.items ≡ replicate producers 0) }
        ensures choices { IfOk result (λ rings. rings.choices ≡ new_journals producers room) }
        ensures placed { IfOk result (λ rings. rings.placed.items ≡ replicate producers 0) }
        ensures since { IfOk result (λ rings. rings.since.items ≡ replicate producers 0) }
    {
        Ok(Rings {
            arrivals: Journals::make(alloc, producers, room)?,
            taken: zeros(alloc, producers)?,
            choices: Journals::make(alloc, producers, room)?,
            placed: zeros(alloc, producers)?,
            since: zeros(alloc, producers)?,
        })
    }
}

// For each lane, how many packets were delivered and retired.
#[derive(Drop)]
struct Hands {
    delivered: Vec<u32>,
    retired: Vec<u32>,
}

impl Hands {
    fn make(alloc: Global, lanes: u8) -> Result<Hands, OutOfMemory>
        ensures delivered { IfOk result (λ hands. hands.delivered.items ≡ replicate lanes 0) }
        ensures retired { IfOk result (λ hands. hands.retired.items ≡ replicate lanes 0) }
    {
        Ok(Hands {
            delivered: zeros(alloc, lanes)?,
            retired: zeros(alloc, lanes)?,
        })
    }
}

// Who is inside (each producer and then each guest), their number, and whether the gate is closed.
#[derive(Drop)]
struct Gate {
    visits: Vec<bool>,
    inside: u32,
    closed: bool,
}

impl Gate {
    fn make(alloc: Global, actors: u8) -> Result<Gate, OutOfMemory>
        ensures visits { IfOk result (λ gate. gate.visits.items ≡ replicate actors false) }
        ensures inside { IfOk result (λ gate. gate.inside ≡ 0) }
        ensures closed { IfOk result (λ gate. gate.closed ≡ false) }
    {
        Ok(Gate {
            visits: Vec::from_elem(alloc, false, actors as usize)?,
            inside: 0,
            closed: false,
        })
    }
}

// `count` zeros.
fn zeros(alloc: Global, count: u8) -> Result<Vec<u32>, OutOfMemory>
    ensures { IfOk result (λ zeros. zeros.items ≡ replicate count 0) }
{
    Ok(Vec::from_elem(alloc, 0, count as usize)?)
}

// The numbers of classes, rounded up to powers of two unless they are exact.
fn class_counts(alloc: Global, counts: &[u32], exact: bool) -> Result<Vec<u32>, OutOfMemory>
    requires { All (λ count. count ≤ most_classes exact) counts.now }
    ensures { IfOk result (λ classes. classes.items ≡ map (classes_for exact) counts.now) }
{
    let mut classes = Vec::with_capacity(alloc, counts.len())?;
    for count in counts {
        classes.push(classes_for(*count, exact))?;
    }
    Ok(classes)
}

fn classes_for(count: u32, exact: bool) -> u32
    requires { count ≤ most_classes exact }
    ensures { result ≡ classes_for exact count }
{
    if exact { count } else { round_up(count) }
}
