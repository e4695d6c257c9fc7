//! Two histories written out by hand, and the lists that they are made of. Each maker ends the test
//! where there is no memory.
use history::{Arrival, History, LaneList, Sent, SockWrite};
use std::alloc::Global;
use std::process::Abort;
use steer_base::{Choice, Chosen, Cpu, DropCause, LaneDrop, List, PacketId, RxQueue, Why};

pub(crate) fn none<T>(alloc: Global) -> List<T> {
    List::from_vec(Vec::new(alloc))
}

pub(crate) fn list<T: Copy>(rt: &impl Abort, alloc: Global, items: &[T]) -> List<T> {
    List::from_vec(Vec::from_slice(alloc, items).expect(rt, "memory"))
}

// A list of one.
pub(crate) fn one<T: Drop>(rt: &impl Abort, alloc: Global, item: T) -> List<T> {
    let mut items = Vec::new(alloc);
    items.push(item).expect(rt, "memory");
    List::from_vec(items)
}

pub(crate) fn two<T: Drop>(rt: &impl Abort, alloc: Global, first: T, second: T) -> List<T> {
    let mut items = Vec::new(alloc);
    items.push(first).expect(rt, "memory");
    items.push(second).expect(rt, "memory");
    List::from_vec(items)
}

// The packets of these numbers.
pub(crate) fn ids(rt: &impl Abort, alloc: Global, numbers: &[u32]) -> List<PacketId> {
    let mut packets = Vec::new(alloc);
    for number in numbers {
        packets.push(PacketId(*number)).expect(rt, "memory");
    }
    List::from_vec(packets)
}

// A lane that accepted these packets, and pulled, delivered and retired so many of them.
pub(crate) fn lane(
    rt: &impl Abort,
    alloc: Global,
    accepted: &[u32],
    pulled: u32,
    delivered: u32,
    retired: u32,
) -> LaneList {
    LaneList {
        accepted: ids(rt, alloc, accepted),
        drops: none(alloc),
        pulled,
        delivered,
        retired,
    }
}

// An arrival at queue 0, by the redirection table.
pub(crate) fn arrival(id: u32) -> Arrival {
    Arrival {
        id: PacketId(id),
        queue: RxQueue(0),
        filter: None,
        entry: Some(RxQueue(0)),
    }
}

// The choice of a packet for processor 1, without a class.
const PLAIN: Chosen = Chosen {
    id: PacketId(0),
    choice: Choice {
        class: None,
        want: None,
        head: None,
        tail: None,
        lane: 1,
        why: Why::Plain,
    },
};

// The choice of a packet of class 0.
pub(crate) fn classed(
    id: u32,
    want: Option<u8>,
    head: Option<u32>,
    tail: u32,
    lane: u8,
    why: Why,
) -> Chosen {
    Chosen {
        id: PacketId(id),
        choice: Choice {
            class: Some(0),
            want,
            head,
            tail: Some(tail),
            lane,
            why,
        },
    }
}

// A reply to a packet of queue 0, from a processor.
pub(crate) fn reply(id: u32, cpu: u8) -> Sent {
    Sent {
        id: PacketId(id),
        rxq: RxQueue(0),
        cpu: Cpu(cpu),
    }
}

// The write of a processor to entry 0.
pub(crate) fn write(cpu: u8) -> SockWrite {
    SockWrite {
        entry: 0,
        cpu: Cpu(cpu),
    }
}

// One packet of queue 0 went to processor 1, which delivered it to the one application. That stands
// on processor 0, and its reply left by the port.
pub(crate) fn replied(rt: &impl Abort, alloc: Global) -> History {
    let sent = classed(0, Some(0), None, 0, 0, Why::Unset);
    History {
        total: 1,
        cut: None,
        arrivals: list(rt, alloc, &[arrival(0)]),
        taken: one(rt, alloc, 1),
        choices: one(rt, alloc, list(rt, alloc, &[PLAIN])),
        lanes: two(
            rt,
            alloc,
            lane(rt, alloc, &[], 0, 0, 0),
            lane(rt, alloc, &[0], 1, 1, 1),
        ),
        inboxes: one(rt, alloc, ids(rt, alloc, &[0])),
        sent: one(rt, alloc, list(rt, alloc, &[reply(0, 0)])),
        tx_choices: one(rt, alloc, list(rt, alloc, &[sent])),
        tx_lanes: one(rt, alloc, lane(rt, alloc, &[0], 1, 1, 1)),
        port: ids(rt, alloc, &[0]),
        writes: one(rt, alloc, none(alloc)),
        commands: none(alloc),
        start: 0,
    }
}

// The choices of the three packets of one flow: the first goes to the processor of the mask, the
// second to that of the application, since the first is retired by then, and the third after it.
pub(crate) fn first() -> Chosen {
    classed(0, None, None, 0, 1, Why::Unset)
}

pub(crate) fn second() -> Chosen {
    classed(1, Some(0), Some(1), 1, 0, Why::Passed)
}

pub(crate) fn third() -> Chosen {
    classed(2, Some(0), None, 1, 0, Why::Same)
}

// The transmit choices of the two replies.
pub(crate) fn first_sent() -> Chosen {
    classed(0, Some(0), None, 0, 0, Why::Unset)
}

pub(crate) fn second_sent() -> Chosen {
    classed(1, Some(0), None, 1, 0, Why::Same)
}

// The drop of the third packet, when the second waited in a backlog for one.
pub(crate) const FULL: LaneDrop = LaneDrop {
    id: PacketId(2),
    accepted: 1,
    pulled: 0,
    cause: DropCause::Full,
};

// The lanes of the two processors, of which the first made this drop and retired so many packets,
// and the second delivered so many.
pub(crate) fn lanes(
    rt: &impl Abort,
    alloc: Global,
    drop: LaneDrop,
    retired: u32,
    delivered: u32,
) -> List<LaneList> {
    let mut first = lane(rt, alloc, &[1], 1, 1, retired);
    first.drops = list(rt, alloc, &[drop]);
    two(rt, alloc, first, lane(rt, alloc, &[0], 1, delivered, 1))
}

// Three packets of one flow, whose application stands on processor 0. Each clause of a good history
// holds of it, with the plan and the packets of `clauses`.
pub(crate) fn good(rt: &impl Abort, alloc: Global) -> History {
    History {
        total: 3,
        cut: None,
        arrivals: list(rt, alloc, &[arrival(0), arrival(1), arrival(2)]),
        taken: one(rt, alloc, 3),
        choices: one(rt, alloc, list(rt, alloc, &[first(), second(), third()])),
        lanes: lanes(rt, alloc, FULL, 1, 1),
        inboxes: one(rt, alloc, ids(rt, alloc, &[0, 1])),
        sent: one(rt, alloc, list(rt, alloc, &[reply(0, 0), reply(1, 0)])),
        tx_choices: one(rt, alloc, list(rt, alloc, &[first_sent(), second_sent()])),
        tx_lanes: one(rt, alloc, lane(rt, alloc, &[0, 1], 2, 2, 2)),
        port: ids(rt, alloc, &[0, 1]),
        writes: one(rt, alloc, list(rt, alloc, &[write(0), write(0)])),
        commands: none(alloc),
        start: 0,
    }
}

// The same with the two packets of the inbox in the other order, and so their replies.
pub(crate) fn turned(rt: &impl Abort, alloc: Global) -> History {
    let mut h = good(rt, alloc);
    let later = Chosen {
        id: PacketId(1),
        ..first_sent()
    };
    let earlier = Chosen {
        id: PacketId(0),
        ..second_sent()
    };
    h.inboxes = one(rt, alloc, ids(rt, alloc, &[1, 0]));
    h.sent = one(rt, alloc, list(rt, alloc, &[reply(1, 0), reply(0, 0)]));
    h.tx_choices = one(rt, alloc, list(rt, alloc, &[later, earlier]));
    h
}
