//! The lines of a packet, from its places in the lists of a history.
ghost use Rattle.std.specs.Prelude.{◌≡◌, ◌<◌, ◌≤◌, Some, length, nat_lt, slice_get, slice_index};
ghost use Rattle.std.specs.Option.{option_and, option_and_then, option_map, option_or};
ghost use Rattle.steer_base.specs.Counters.{number};
ghost use Rattle.steer_base.specs.declared.put.Put.TheVariants.{At as at_position};
ghost use Rattle.history.specs.Counted.{rank_of};
ghost use Rattle.history.specs.Finding.{first_some};
ghost use Rattle.history.specs.InOrder.{begun_of};
ghost use Rattle.history.specs.Known.{pulled_lane};
ghost use Rattle.history.specs.Lines.{accepted_place, choice_of, drop_in, inbox_place_of};
ghost use Rattle.history.specs.Lines.{packet_line as line_of_packet, reply_line as line_of_reply};
ghost use Rattle.history.specs.Lines.{via_of as via_of_arrival};
ghost use Rattle.history.specs.Lists.{list_at};
ghost use Rattle.history.specs.Places.{place_by as first_place};
ghost use Rattle.history.specs.Regular.{Regular};
ghost use Rattle.history.specs.Slots.{AreSlots, index_before};

use crate::arrival::Arrival;
use crate::history::History;
use crate::lane_list::LaneList;
use crate::lines::begun::Begun;
use crate::lines::slots::Slots;
use crate::packet_line::{PacketLine, Via};
use crate::place::Place;
use crate::reply_line::ReplyLine;
use crate::sent::Sent;
use steer_base::{AppId, Choice, Chosen, Cpu, List, Packet, PacketId, Put, app_of, number_at};

// The line of a packet that arrived, which `rank` others of its queue came before, and for which
// this processor was chosen.
pub(crate) fn packet_line(
    h: &History,
    slots: &Slots,
    packets: &[Packet],
    apps: u8,
    rank: u32,
    lane: Option<u8>,
    id: PacketId,
) -> PacketLine
    requires regular { Regular packets.now apps h.now }
    requires slots { AreSlots h.now slots.now }
    requires apps { 1 ≤ apps }
    requires arrived { id < length h.now.arrivals }
    requires rank { rank ≡ rank_of h.now id }
    requires lane { lane ≡ option_map (λ c. c.lane) (choice_of h.now id) }
    ensures { result ≡ line_of_packet packets.now apps h.now id }
{
    let arrival = h.arrivals.get(id.0 as usize);
    let packet = &packets[id.0 as usize];
    let queue = arrival.queue.0 as usize;
    let app = app_of(packet.hash, apps);
    let choice = choice_at(&h.choices, queue, rank as usize);
    let taken = is_taken(&h.taken, queue, rank);
    PacketLine {
        id,
        queue: arrival.queue,
        via: via_of(arrival),
        choice,
        put: put_of(h.start, slots.accepted.get(id), slots.drops.get(id)),
        app,
        inbox: slots.inboxes.get(id),
        place: place_of(h, slots, app, lane, taken, id),
        flow_number: packet.flow_number,
    }
}

// What the lists say of the reply to a packet, if one was begun: they are in the inbox's order.
pub(crate) fn begun_reply(
    h: &History,
    slots: &Slots,
    packets: &[Packet],
    apps: u8,
    id: PacketId,
) -> Option<Begun>
    requires regular { Regular packets.now apps h.now }
    requires slots { AreSlots h.now slots.now }
    requires apps { 1 ≤ apps }
    requires arrived { id < length h.now.arrivals }
    ensures { result ≡ option_map begun_of (line_of_reply packets.now apps h.now id) }
{
    let packet = &packets[id.0 as usize];
    let app = app_of(packet.hash, apps).0 as usize;
    let index = index_of(slots.inboxes.get(id))?;
    let sent = sent_at(&h.sent, app, index)?;
    Some(Begun {
        rxq: sent.rxq,
        cpu: sent.cpu,
        choice: choice_at(&h.tx_choices, app, index),
    })
}

// The line of the reply to a packet, of which the lists say this.
pub(crate) fn reply_line(
    h: &History,
    slots: &Slots,
    packets: &[Packet],
    apps: u8,
    begun: Begun,
    id: PacketId,
) -> ReplyLine
    requires regular { Regular packets.now apps h.now }
    requires slots { AreSlots h.now slots.now }
    requires apps { 1 ≤ apps }
    requires arrived { id < length h.now.arrivals }
    requires begun { option_map begun_of (line_of_reply packets.now apps h.now id) ≡ Some begun }
    ensures { line_of_reply packets.now apps h.now id ≡ Some result }
{
    let packet = &packets[id.0 as usize];
    ReplyLine {
        id,
        app: app_of(packet.hash, apps),
        rxq: begun.rxq,
        cpu: begun.cpu,
        choice: begun.choice,
        put: position_of(h.start, slots.tx_accepted.get(id)),
        port: slots.port.get(id),
        flow_number: packet.flow_number,
    }
}

// The index of a place, which is counted from 1.
fn index_of(place: Option<u32>) -> Option<usize>
    ensures { result ≡ option_and_then index_before place }
{
    match place {
        Some(0) | None => None,
        Some(count) => Some(count as usize - 1),
    }
}

// The choice at an index of one of some lists.
pub(crate) fn choice_at(lists: &List<List<Chosen>>, list: usize, index: usize) -> Option<Choice>
    ensures { result ≡ option_map (λ c. c.choice) (slice_get (list_at lists.now list) index) }
{
    let list = lists.as_slice().get(list)?;
    let chosen = list.as_slice().get(index)?;
    Some(chosen.choice)
}

// The reply at an index of one of some lists.
fn sent_at(lists: &List<List<Sent>>, list: usize, index: usize) -> Option<Sent>
    ensures { result ≡ slice_get (list_at lists.now list) index }
{
    let list = lists.as_slice().get(list)?;
    list.as_slice().get(index).copied()
}

// Whether the poller of a queue took the packet that so many came before there.
fn is_taken(taken: &List<u32>, queue: usize, rank: u32) -> bool
    ensures { result ≡ nat_lt rank (slice_index taken.now queue) }
{
    match taken.as_slice().get(queue) {
        Some(count) => rank < *count,
        None => false,
    }
}

// The place of a packet: at the processor of its choice, or in the inbox of its application.
fn place_of(
    h: &History,
    slots: &Slots,
    app: AppId,
    cpu: Option<u8>,
    taken: bool,
    id: PacketId,
) -> Place
    requires slots { AreSlots h.now slots.now }
    requires arrived { id < length h.now.arrivals }
    ensures { result
        ≡ first_place (option_and (first_some (drop_in id) h.now.lanes) cpu)
        (option_and (inbox_place_of h.now id) (Some app))
        (pulled_lane h.now.lanes cpu (accepted_place h.now.lanes id))
        (option_and (accepted_place h.now.lanes id) cpu) taken }
{
    let accepted = slots.accepted.get(id);
    place_by(
        slots.drops.get(id).and(cpu),
        slots.inboxes.get(id).and(Some(app.0)),
        pulled_at(&h.lanes, cpu, accepted),
        accepted.and(cpu),
        taken,
    )
}

// The first of these that holds.
fn place_by(
    dropped: Option<u8>,
    inbox: Option<u8>,
    pulled: Option<u8>,
    accepted: Option<u8>,
    taken: bool,
) -> Place
    ensures { result ≡ first_place dropped inbox pulled accepted taken }
{
    match (dropped, inbox, pulled, accepted) {
        (Some(cpu), _, _, _) => Place::Dropped(Cpu(cpu)),
        (None, Some(app), _, _) => Place::Inbox(AppId(app)),
        (None, None, Some(cpu), _) => Place::Hand(Cpu(cpu)),
        (None, None, None, Some(cpu)) => Place::Backlog(Cpu(cpu)),
        (None, None, None, None) if taken => Place::Poller,
        (None, None, None, None) => Place::Ring,
    }
}

// The processor of a choice.
pub(crate) fn lane_of(choice: Option<Choice>) -> Option<u8>
    ensures { result ≡ option_map (λ c. c.lane) choice }
{
    Some(choice?.lane)
}

// The processor of a packet, where its place among the accepted ones there is among those that were
// pulled.
fn pulled_at(lanes: &List<LaneList>, cpu: Option<u8>, accepted: Option<u32>) -> Option<u8>
    ensures { result ≡ pulled_lane lanes.now cpu accepted }
{
    let (Some(cpu), Some(place)) = (cpu, accepted) else {
        return None;
    };
    let at = cpu as usize;
    if at < lanes.len() && place <= lanes.get(at).pulled {
        Some(cpu)
    } else {
        None
    }
}

// The counter number of a place.
fn position_of(start: u32, place: Option<u32>) -> Option<u32>
    ensures { result ≡ option_map (number start) place }
{
    Some(number_at(start, place?))
}

// The position of an accepted packet, or else its drop.
pub(crate) fn put_of(start: u32, accepted: Option<u32>, dropped: Option<Put>) -> Option<Put>
    ensures { result
        ≡ option_or (option_map (λ n. at_position n) (option_map (number start) accepted)) dropped }
{
    match position_of(start, accepted) {
        Some(position) => Some(Put::At(position)),
        None => dropped,
    }
}

// What led to the queue of an arrival.
fn via_of(arrival: &Arrival) -> Via
    ensures { result ≡ via_of_arrival arrival.now }
{
    if arrival.filter.is_some() {
        Via::Filter
    } else if arrival.entry.is_some() {
        Via::Reta
    } else {
        Via::Unhashed
    }
}
