//! The history of a run.
ghost use Rattle.std.specs.Prelude.{◌≡◌, IsTrue, slice_index};
ghost use Rattle.std.specs.List.{position};
ghost use Rattle.history.specs.Finding.{is_among, is_in};
ghost use Rattle.history.specs.Lists.{arrival_of, arrivals_at, drop_ids};
ghost use Rattle.history.specs.Places.{IsInReach, has_arrived, place_of, was_taken};

pub mod finding;
pub mod fits;

use crate::arrival::Arrival;
use crate::commanded::Commanded;
use crate::lane_list::LaneList;
use crate::place::Place;
use crate::sent::Sent;
use crate::sock_write::SockWrite;
use finding::has_packet;
use steer_base::{AppId, Chosen, Cpu, List, PacketId, RxQueue};

/// Everything that happened in a run, as lists in the order in which it happened.
#[derive(Debug, Drop)]
pub struct History {
    /// The number of packets in the capture.
    pub total: u32,
    /// The length of a truncated record at the end of the capture, if there is one.
    pub cut: Option<u32>,
    /// The packets that arrived.
    pub arrivals: List<Arrival>,
    /// For each receive queue, the number of packets that its poller took.
    pub taken: List<u32>,
    /// For each receive queue, the processor choices of its packets.
    pub choices: List<List<Chosen>>,
    /// For each processor, its backlog.
    pub lanes: List<LaneList>,
    /// For each application, the packets that were delivered to it.
    pub inboxes: List<List<PacketId>>,
    /// For each application, the replies that it began.
    pub sent: List<List<Sent>>,
    /// For each application, the transmit queue choices of its replies.
    pub tx_choices: List<List<Chosen>>,
    /// For each transmit queue, its replies.
    pub tx_lanes: List<LaneList>,
    /// The replies that left through the port.
    pub port: List<PacketId>,
    /// For each application, its writes to the socket flow table.
    pub writes: List<List<SockWrite>>,
    /// The commands that were given, with their answers.
    pub commands: List<Commanded>,
    /// The number at which the counters of all lanes start, before their first packet.
    pub start: u32,
}

impl History {
    /// Whether a packet arrived.
    pub fn has_arrived(&self, id: PacketId) -> bool
        ensures { result ≡ has_arrived self.now id }
    {
        for arrival in self.arrivals.as_slice() {
            if arrival.id == id {
                return true;
            }
        }
        false
    }

    /// The place of a packet that arrived: the first that applies of dropped, in an inbox, pulled,
    /// accepted, and taken from the ring. If several lanes or inboxes have it, which never happens
    /// in a regular history, the one with the least number is meant. Allocates nothing and walks
    /// each list once.
    pub fn place(&self, id: PacketId) -> Place
        requires arrived { IsTrue (has_arrived self.now id) }
        requires in_reach { IsInReach self.now id }
        ensures { result ≡ place_of self.now id }
    {
        if let Some(cpu) = self.dropped_at(id) {
            return Place::Dropped(Cpu(cpu as u8));
        }
        if let Some(app) = self.inbox_of(id) {
            return Place::Inbox(AppId(app as u8));
        }
        if let Some(cpu) = self.pulled_at(id) {
            return Place::Hand(Cpu(cpu as u8));
        }
        if let Some(cpu) = self.accepted_at(id) {
            return Place::Backlog(Cpu(cpu as u8));
        }
        if self.was_taken(id) {
            Place::Poller
        } else {
            Place::Ring
        }
    }

    // The first processor that dropped the packet.
    fn dropped_at(&self, id: PacketId) -> Option<usize>
        ensures { result ≡ position (λ lane. is_in id (drop_ids lane)) self.now.lanes }
    {
        self.lanes
            .as_slice()
            .iter()
            .position(|lane| lane.has_dropped(id))
    }

    // The first inbox that has the packet.
    fn inbox_of(&self, id: PacketId) -> Option<usize>
        ensures { result ≡ position (λ inbox. is_in id inbox) self.now.inboxes }
    {
        self.inboxes
            .as_slice()
            .iter()
            .position(|inbox| has_packet(inbox.as_slice(), id))
    }

    // The first processor that has the packet among those that were pulled there.
    fn pulled_at(&self, id: PacketId) -> Option<usize>
        ensures { result ≡ position (λ lane. is_among lane.pulled id lane.accepted) self.now.lanes }
    {
        self.lanes
            .as_slice()
            .iter()
            .position(|lane| lane.has_pulled(id))
    }

    // The first processor that accepted the packet.
    fn accepted_at(&self, id: PacketId) -> Option<usize>
        ensures { result ≡ position (λ lane. is_in id lane.accepted) self.now.lanes }
    {
        self.lanes
            .as_slice()
            .iter()
            .position(|lane| lane.has_accepted(id))
    }

    // Whether the poller of its queue took a packet that arrived.
    fn was_taken(&self, id: PacketId) -> bool
        requires { IsTrue (has_arrived self.now id) }
        ensures { result ≡ was_taken self.now id }
    {
        let queue = self.queue_of(id);
        let Some(count) = self.taken.as_slice().get(queue.0 as usize) else {
            return false;
        };
        self.has_among_arrivals(queue, *count, id)
    }

    // The queue that a packet arrived at.
    fn queue_of(&self, id: PacketId) -> RxQueue
        ensures { result ≡ (arrival_of self.now.arrivals id).queue }
    {
        for arrival in self.arrivals.as_slice() {
            if arrival.id == id {
                return arrival.queue;
            }
        }
        RxQueue(0)
    }

    // Whether a packet is among the first `count` arrivals of a queue.
    fn has_among_arrivals(&self, queue: RxQueue, count: u32, id: PacketId) -> bool
        ensures { result ≡ is_among count id (arrivals_at self.now.arrivals queue) }
    {
        let mut left = count;
        for arrival in self.arrivals.as_slice() {
            if left == 0 {
                return false;
            }
            if arrival.queue == queue {
                if arrival.id == id {
                    return true;
                }
                left -= 1;
            }
        }
        false
    }
}
