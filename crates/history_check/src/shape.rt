//! How many the lists of a history are and how long, and that its arrivals are numbered.
ghost use Rattle.std.specs.Prelude.{◌≡◌, ◌==◌, length, nat_le};
ghost use Rattle.std.specs.List.{list_all};
ghost use Rattle.history_check.specs.Tests.{each, has_shape, has_short_lanes, has_short_lists};

use history::{Arrival, History, LaneList};
use steer_base::{List, Packet, PacketId};

fn are_numbered(arrivals: &List<Arrival>) -> bool
    ensures { result ≡ each (λ i a. a.id == i) arrivals.now }
{
    arrivals
        .as_slice()
        .iter()
        .enumerate()
        .all(|(i, arrival)| arrival.id.0 as usize == i)
}

pub(crate) fn has_shape(h: &History, packets: &[Packet], apps: usize) -> bool
    ensures { result ≡ has_shape packets.now apps h.now }
{
    h.choices.len() == h.taken.len()
        && h.inboxes.len() == apps
        && h.sent.len() == apps
        && h.tx_choices.len() == apps
        && h.writes.len() == apps
        && h.arrivals.len() <= packets.len()
        && are_numbered(&h.arrivals)
}

fn has_short_lanes(lanes: &List<LaneList>, count: usize) -> bool
    ensures { result ≡ has_short_lanes count lanes.now }
{
    lanes.as_slice().iter().all(|lane| lane.accepted.len() <= count && lane.drops.len() <= count)
}

fn has_short_inboxes(inboxes: &List<List<PacketId>>, count: usize) -> bool
    ensures { result ≡ list_all (λ inbox. nat_le (length inbox) count) inboxes.now }
{
    inboxes.as_slice().iter().all(|inbox| inbox.len() <= count)
}

pub(crate) fn has_short_lists(h: &History) -> bool
    ensures { result ≡ has_short_lists h.now }
{
    let count = h.arrivals.len();
    has_short_lanes(&h.lanes, count)
        && has_short_lanes(&h.tx_lanes, count)
        && has_short_inboxes(&h.inboxes, count)
        && h.port.len() <= count
}
