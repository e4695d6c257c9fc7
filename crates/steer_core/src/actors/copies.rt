//! The lists of the machine, copied for its history.
ghost use Rattle.std.specs.Prelude.{◌≡◌, ◌<◌, ◌^◌, IfOk, length};
ghost use Rattle.hop_model.specs.Hop.{accepted_at};
ghost use Rattle.steer_core.specs.HistoryParts.{hop_part, machine_beside};
ghost use Rattle.steer_model.specs.State.Machine.{history_of, lane_list as list_of_lane};
ghost use Rattle.steer_model.specs.State.Machine.{history_lanes as lists_of_lanes};

use crate::actors::Actors;
use crate::parts::{BesidePart, HistoryParts, HopPart};
use history::{History, LaneList};
use hop_core::Hop;
use std::alloc::Global;
use steer_base::{Chosen, Journals, List, OutOfMemory, PacketId};

impl Actors {
    /// A copy of the machine's history, with lists of exact lengths.
    pub fn history(&self, alloc: Global) -> Result<History, OutOfMemory>
        ensures { IfOk result (λ history. history ≡ history_of self.now.machine) }
    {
        let rx = self.receive_part(alloc)?;
        let tx = self.transmit_part(alloc)?;
        let beside = self.beside_part(alloc)?;
        let parts = HistoryParts {
            total: self.given.packet_count(),
            cut: self.given.cut(),
            rx,
            tx,
            beside,
        };
        Ok(parts.joined())
    }

    // What the history has of the receive hop.
    fn receive_part(&self, alloc: Global) -> Result<HopPart, OutOfMemory>
        ensures { IfOk result (λ part. part ≡ hop_part self.now.machine.rx) }
    {
        let taken = taken_counts(alloc, &self.rx, self.given.queues())?;
        let choices = choice_lists(alloc, &self.rx, self.given.queues())?;
        let lanes = lane_lists(alloc, &self.rx, self.given.cpus())?;
        let outs = out_lists(alloc, &self.rx, self.given.apps())?;
        Ok(HopPart {
            taken,
            choices,
            lanes,
            outs,
            start: start_of(&self.rx),
        })
    }

    // What the history has of the transmit hop.
    fn transmit_part(&self, alloc: Global) -> Result<HopPart, OutOfMemory>
        ensures { IfOk result (λ part. part ≡ hop_part self.now.machine.tx) }
    {
        let taken = taken_counts(alloc, &self.tx, self.given.apps())?;
        let choices = choice_lists(alloc, &self.tx, self.given.apps())?;
        let lanes = lane_lists(alloc, &self.tx, self.given.txs())?;
        let outs = out_lists(alloc, &self.tx, 1)?;
        Ok(HopPart {
            taken,
            choices,
            lanes,
            outs,
            start: start_of(&self.tx),
        })
    }

    // What the history has beside the hops.
    fn beside_part(&self, alloc: Global) -> Result<BesidePart, OutOfMemory>
        ensures { IfOk result (λ part. part ≡ machine_beside self.now.machine) }
    {
        let arrivals = copied(alloc, self.arrivals.as_slice())?;
        let sent = copied_all(alloc, &self.sent)?;
        let writes = copied_all(alloc, &self.writes)?;
        let commands = copied(alloc, self.commands.as_slice())?;
        Ok(BesidePart {
            arrivals,
            sent,
            writes,
            commands,
        })
    }
}

// A list of the same items.
fn copied<T: Copy>(alloc: Global, items: &[T]) -> Result<List<T>, OutOfMemory>
    ensures { IfOk result (λ copy. copy ≡ items.now) }
{
    Ok(List::from_vec(items.iter().copied().collect(alloc)?))
}

// Lists of the same items.
fn copied_all<T: Copy>(alloc: Global, journals: &Journals<T>) -> Result<List<List<T>>, OutOfMemory>
    requires { length journals.now.lists < 256 }
    ensures { IfOk result (λ lists. lists ≡ journals.now.lists) }
{
    let count = journals.count() as u8;
    let mut lists = Vec::with_capacity(alloc, count as usize)?;
    for i in 0..count {
        lists.push(copied(alloc, journals.list(i))?)?;
    }
    Ok(List::from_vec(lists))
}

// How many packets each producer has taken up.
fn taken_counts(alloc: Global, hop: &Hop, producers: u8) -> Result<List<u32>, OutOfMemory>
    requires all { producers ≡ length hop.now.taken }
    requires many { length hop.now.arrivals ≡ producers }
    ensures { IfOk result (λ counts. counts ≡ hop.now.taken) }
{
    let mut counts = Vec::with_capacity(alloc, producers as usize)?;
    for p in 0..producers {
        counts.push(hop.taken(p))?;
    }
    Ok(List::from_vec(counts))
}

// The choices of each producer.
fn choice_lists(alloc: Global, hop: &Hop, producers: u8) -> Result<List<List<Chosen>>, OutOfMemory>
    requires all { producers ≡ length hop.now.choices }
    requires many { length hop.now.arrivals ≡ producers }
    ensures { IfOk result (λ lists. lists ≡ hop.now.choices) }
{
    let mut lists = Vec::with_capacity(alloc, producers as usize)?;
    for p in 0..producers {
        lists.push(copied(alloc, hop.choices(p))?)?;
    }
    Ok(List::from_vec(lists))
}

// The packets that were delivered to each out lane.
fn out_lists(alloc: Global, hop: &Hop, outs: u8) -> Result<List<List<PacketId>>, OutOfMemory>
    requires { outs ≡ length hop.now.bare.outs }
    ensures { IfOk result (λ lists. lists ≡ hop.now.bare.outs) }
{
    let mut lists = Vec::with_capacity(alloc, outs as usize)?;
    for o in 0..outs {
        lists.push(copied(alloc, hop.out(o))?)?;
    }
    Ok(List::from_vec(lists))
}

// What became of the packets that were put to each lane.
fn lane_lists(alloc: Global, hop: &Hop, lanes: u8) -> Result<List<LaneList>, OutOfMemory>
    requires { lanes ≡ length hop.now.bare.accepted }
    ensures { IfOk result (λ lists. lists ≡ lists_of_lanes hop.now.bare) }
{
    let mut lists = Vec::with_capacity(alloc, lanes as usize)?;
    for lane in 0..lanes {
        lists.push(lane_list(alloc, hop, lane)?)?;
    }
    Ok(List::from_vec(lists))
}

// What became of the packets that were put to a lane.
fn lane_list(alloc: Global, hop: &Hop, lane: u8) -> Result<LaneList, OutOfMemory>
    requires { lane < length hop.now.bare.accepted }
    ensures { IfOk result (λ list. list ≡ list_of_lane hop.now.bare lane) }
{
    Ok(LaneList {
        accepted: accepted_list(alloc, hop, lane)?,
        drops: copied(alloc, hop.drops(lane))?,
        pulled: hop.pulled(lane),
        delivered: hop.delivered(lane),
        retired: hop.retired(lane),
    })
}

// The packets that a lane accepted.
fn accepted_list(alloc: Global, hop: &Hop, lane: u8) -> Result<List<PacketId>, OutOfMemory>
    requires { lane < length hop.now.bare.accepted }
    ensures { IfOk result (λ list. list ≡ accepted_at hop.now.bare lane) }
{
    let count = hop.accepted_len(lane);
    let mut list = Vec::with_capacity(alloc, count as usize)?;
    for n in 0..count {
        list.push(hop.accepted_at(lane, n).unwrap())?;
    }
    Ok(List::from_vec(list))
}

// The number that the counters of a hop's lanes show before their first packet.
fn start_of(hop: &Hop) -> u32
    requires lane { 0 < length hop.now.bare.accepted }
    requires start { hop.now.fixed.start < 2 ^ 32 }
    ensures { result ≡ hop.now.fixed.start }
{
    hop.head(0).wrapping_sub(hop.retired(0))
}
