//! Histories written out by hand, and the lists that they are made of. Each maker ends the test
//! where there is no memory.
ghost use Rattle.std.specs.Prelude.{◌≤◌};
ghost use Rattle.report.specs.Made.{AreLinesOf};

use history::{Arrival, Commanded, History, LaneList, Lines, Sent, SockWrite};
use history_check::is_regular;
use std::alloc::Global;
use std::process::Abort;
use std::snapshot::Snapshot;
use steer_base::{
    Answer, Choice, Chosen, Command, Cpu, CpuMask, DropCause, Flow, LaneDrop, List, Packet,
    PacketId, Pair, Proto, RxQueue, Why,
};

const SEGMENT_FLOW: Flow = Flow::Four(
    Pair::V4 {
        src: 0x4209_95bb,
        dst: 0xa18e_6450,
    },
    Proto::Tcp,
    2794,
    1766,
);

const OTHER_FLOW: Flow = Flow::Four(
    Pair::V4 {
        src: 0xc75c_6f02,
        dst: 0x4145_8c53,
    },
    Proto::Tcp,
    14230,
    4739,
);

// A TCP segment from 66.9.149.187:2794 to 161.142.100.80:1766, with its published hash.
pub(crate) fn segment() -> Packet {
    Packet {
        flow: Snapshot::of(&SEGMENT_FLOW),
        hash: Some(0x51cc_c178),
        len: 54,
        flow_number: 0,
    }
}

// One from 199.92.111.2:14230 to 65.69.140.83:4739.
pub(crate) fn other_segment() -> Packet {
    Packet {
        flow: Snapshot::of(&OTHER_FLOW),
        hash: Some(0xc626_b0ea),
        len: 54,
        flow_number: 1,
    }
}

// So many of the first.
pub(crate) fn segments(rt: &impl Abort, alloc: Global, count: usize) -> Vec<Packet> {
    let mut packets = Vec::with_capacity(alloc, count).expect(rt, "memory");
    for _ in 0..count {
        packets.push(segment()).expect(rt, "memory");
    }
    packets
}

// Processor 1, without a class.
pub(crate) const PLAIN: Choice = Choice {
    class: None,
    want: None,
    head: None,
    tail: None,
    lane: 1,
    why: Why::Plain,
};

pub(crate) fn none<T>(alloc: Global) -> List<T> {
    List::from_vec(Vec::new(alloc))
}

// A list of one.
pub(crate) fn one<T: Drop>(rt: &impl Abort, alloc: Global, item: T) -> List<T> {
    let mut items = Vec::new(alloc);
    items.push(item).expect(rt, "memory");
    List::from_vec(items)
}

pub(crate) fn two<T: Drop>(rt: &impl Abort, alloc: Global, first: T, second: T) -> List<T> {
    let mut items = Vec::new(alloc);
    items.push(first).expect(rt, "memory");
    items.push(second).expect(rt, "memory");
    List::from_vec(items)
}

pub(crate) fn list<T: Copy>(rt: &impl Abort, alloc: Global, items: &[T]) -> List<T> {
    List::from_vec(Vec::from_slice(alloc, items).expect(rt, "memory"))
}

// The packets of these numbers.
pub(crate) fn ids(rt: &impl Abort, alloc: Global, numbers: &[u32]) -> List<PacketId> {
    let mut packets = Vec::new(alloc);
    for number in numbers {
        packets.push(PacketId(*number)).expect(rt, "memory");
    }
    List::from_vec(packets)
}

// A lane whose first packets were retired.
pub(crate) fn lane(rt: &impl Abort, alloc: Global, accepted: &[u32], retired: u32) -> LaneList {
    LaneList {
        accepted: ids(rt, alloc, accepted),
        drops: none(alloc),
        pulled: retired,
        delivered: retired,
        retired,
    }
}

// The lanes of so many processors, of which only 1 and 2 have packets.
pub(crate) fn lanes(
    rt: &impl Abort,
    alloc: Global,
    cpus: u32,
    second: LaneList,
    third: LaneList,
) -> List<LaneList> {
    let mut lanes = Vec::new(alloc);
    lanes.push(lane(rt, alloc, &[], 0)).expect(rt, "memory");
    lanes.push(second).expect(rt, "memory");
    lanes.push(third).expect(rt, "memory");
    for _ in 3..cpus {
        lanes.push(lane(rt, alloc, &[], 0)).expect(rt, "memory");
    }
    List::from_vec(lanes)
}

// The arrivals of packets 0, 1 and so on at these queues, by the redirection table.
pub(crate) fn arrivals(rt: &impl Abort, alloc: Global, queues: &[u8]) -> List<Arrival> {
    let mut arrivals = Vec::new(alloc);
    for (queue, id) in queues.iter().zip(0u32..) {
        let arrival = Arrival {
            id: PacketId(id),
            queue: RxQueue(*queue),
            filter: None,
            entry: Some(RxQueue(*queue)),
        };
        arrivals.push(arrival).expect(rt, "memory");
    }
    List::from_vec(arrivals)
}

// The first choice is for packet 0, the next for packet 1 and so on.
pub(crate) fn chosen(rt: &impl Abort, alloc: Global, choices: &[Choice]) -> List<Chosen> {
    let mut list = Vec::new(alloc);
    for (choice, id) in choices.iter().zip(0u32..) {
        let chosen = Chosen {
            id: PacketId(id),
            choice: *choice,
        };
        list.push(chosen).expect(rt, "memory");
    }
    List::from_vec(list)
}

// The packets that arrived at these queues were taken from the one queue as many as there are, and
// were weighed. The one application has not replied.
pub(crate) fn received(
    rt: &impl Abort,
    alloc: Global,
    queues: &[u8],
    choices: &[Choice],
    lanes: List<LaneList>,
    inbox: &[u32],
) -> History {
    let count = u32::try_from(queues.len()).expect(rt, "few packets");
    History {
        total: count,
        cut: None,
        arrivals: arrivals(rt, alloc, queues),
        taken: one(rt, alloc, count),
        choices: one(rt, alloc, chosen(rt, alloc, choices)),
        lanes,
        inboxes: one(rt, alloc, ids(rt, alloc, inbox)),
        sent: one(rt, alloc, none(alloc)),
        tx_choices: one(rt, alloc, none(alloc)),
        tx_lanes: one(rt, alloc, lane(rt, alloc, &[], 0)),
        port: none(alloc),
        writes: one(rt, alloc, none(alloc)),
        commands: none(alloc),
        start: 0,
    }
}

// A choice with class 0.
pub(crate) fn classed(
    want: Option<u8>,
    head: Option<u32>,
    tail: u32,
    lane: u8,
    why: Why,
) -> Choice {
    Choice {
        class: Some(0),
        want,
        head,
        tail: Some(tail),
        lane,
        why,
    }
}

// Four packets of one flow, whose application stands on processor 2. Processor 1 keeps the flow
// until it has retired three of them, and then the fourth moves. The counters begin at `start`.
pub(crate) fn moved(rt: &impl Abort, alloc: Global, start: u32) -> History {
    let third = start.wrapping_add(3);
    let choices = [
        classed(None, None, start, 1, Why::Unset),
        classed(Some(2), Some(start), start.wrapping_add(1), 1, Why::Kept),
        classed(Some(2), Some(start), start.wrapping_add(2), 1, Why::Kept),
        classed(Some(2), Some(third), third, 2, Why::Passed),
    ];
    let lanes = lanes(
        rt,
        alloc,
        4,
        lane(rt, alloc, &[0, 1, 2], 3),
        lane(rt, alloc, &[3], 0),
    );
    let mut h = received(rt, alloc, &[0; 4], &choices, lanes, &[0, 1, 2]);
    let write = SockWrite {
        entry: 0,
        cpu: Cpu(2),
    };
    h.writes = one(rt, alloc, one(rt, alloc, write));
    h.start = start;
    h
}

// Three packets for a backlog of one: the second is dropped, the first pulled, and the third waits.
pub(crate) fn full(rt: &impl Abort, alloc: Global) -> History {
    let fallen = LaneDrop {
        id: PacketId(1),
        accepted: 1,
        pulled: 0,
        cause: DropCause::Full,
    };
    let second = LaneList {
        accepted: ids(rt, alloc, &[0, 2]),
        drops: one(rt, alloc, fallen),
        pulled: 1,
        delivered: 0,
        retired: 0,
    };
    let lanes = lanes(rt, alloc, 4, second, lane(rt, alloc, &[], 0));
    received(rt, alloc, &[0; 3], &[PLAIN; 3], lanes, &[])
}

// One packet steered without a flow table, and delivered.
pub(crate) fn delivered(rt: &impl Abort, alloc: Global, cpus: u32) -> History {
    let lanes = lanes(
        rt,
        alloc,
        cpus,
        lane(rt, alloc, &[0], 1),
        lane(rt, alloc, &[], 0),
    );
    received(rt, alloc, &[0; 1], &[PLAIN], lanes, &[0])
}

// The same with three processors, replied to and sent.
pub(crate) fn replied(rt: &impl Abort, alloc: Global, start: u32) -> History {
    let mut h = delivered(rt, alloc, 3);
    let sent = Sent {
        id: PacketId(0),
        rxq: RxQueue(0),
        cpu: Cpu(2),
    };
    h.sent = one(rt, alloc, one(rt, alloc, sent));
    let first = classed(Some(0), None, start, 0, Why::Unset);
    h.tx_choices = one(rt, alloc, chosen(rt, alloc, &[first]));
    h.tx_lanes = one(rt, alloc, lane(rt, alloc, &[0], 1));
    h.port = ids(rt, alloc, &[0]);
    h.start = start;
    h
}

// The lane of processor 1 under the flow limit: 151 packets of a flow were accepted, the next 49
// dropped, and one of another flow accepted.
fn limited_lane(rt: &impl Abort, alloc: Global) -> LaneList {
    let mut accepted = Vec::new(alloc);
    let mut drops = Vec::new(alloc);
    for id in 0..200 {
        if id < 151 {
            accepted.push(PacketId(id)).expect(rt, "memory");
        } else {
            let fallen = LaneDrop {
                id: PacketId(id),
                accepted: 151,
                pulled: 0,
                cause: DropCause::Flow(id + 1),
            };
            drops.push(fallen).expect(rt, "memory");
        }
    }
    accepted.push(PacketId(200)).expect(rt, "memory");
    LaneList {
        accepted: List::from_vec(accepted),
        drops: List::from_vec(drops),
        pulled: 0,
        delivered: 0,
        retired: 0,
    }
}

// 200 packets of one flow and one of another, with that lane.
pub(crate) fn limited(rt: &impl Abort, alloc: Global) -> History {
    let lanes = lanes(
        rt,
        alloc,
        4,
        limited_lane(rt, alloc),
        lane(rt, alloc, &[], 0),
    );
    received(rt, alloc, &[0; 201], &[PLAIN; 201], lanes, &[])
}

// Two packets of three wait in the ring. The capture has a cut.
pub(crate) fn waiting(rt: &impl Abort, alloc: Global) -> History {
    let lanes = two(rt, alloc, lane(rt, alloc, &[], 0), lane(rt, alloc, &[], 0));
    let mut h = received(rt, alloc, &[0; 2], &[], lanes, &[]);
    h.total = 3;
    h.cut = Some(9);
    h.taken = one(rt, alloc, 0);
    let write = SockWrite {
        entry: 3,
        cpu: Cpu(1),
    };
    h.writes = one(rt, alloc, one(rt, alloc, write));
    let command = Commanded {
        command: Command::Mask(RxQueue(0), CpuMask(2)),
        answer: Answer::Done,
    };
    h.commands = one(rt, alloc, command);
    h
}

// Packets of two queues: one without a hash, two that a filter sent to queue 1, one that left an
// offline processor, and one in the hand of its poller.
pub(crate) fn filtered(rt: &impl Abort, alloc: Global) -> History {
    let lanes = two(
        rt,
        alloc,
        lane(rt, alloc, &[0, 3], 0),
        lane(rt, alloc, &[1, 2], 1),
    );
    let mut h = received(rt, alloc, &[0, 1, 1, 1, 0], &[], lanes, &[1]);
    let plain = Arrival {
        id: PacketId(0),
        queue: RxQueue(0),
        filter: None,
        entry: None,
    };
    let by_filter = Arrival {
        id: PacketId(1),
        queue: RxQueue(1),
        filter: Some(RxQueue(1)),
        ..plain
    };
    let by_entry = Arrival {
        id: PacketId(3),
        queue: RxQueue(1),
        entry: Some(RxQueue(1)),
        ..plain
    };
    let arrivals = [
        plain,
        by_filter,
        Arrival {
            id: PacketId(2),
            ..by_filter
        },
        by_entry,
        Arrival {
            id: PacketId(4),
            queue: RxQueue(0),
            ..by_entry
        },
    ];
    h.arrivals = list(rt, alloc, &arrivals);
    h.taken = list(rt, alloc, &[2, 3]);
    let first = Chosen {
        id: PacketId(0),
        choice: Choice { lane: 0, ..PLAIN },
    };
    let others = [
        Chosen {
            id: PacketId(1),
            choice: classed(Some(1), None, 0, 1, Why::Unset),
        },
        Chosen {
            id: PacketId(2),
            choice: classed(Some(1), None, 1, 1, Why::Same),
        },
        Chosen {
            id: PacketId(3),
            choice: classed(Some(0), None, 2, 0, Why::Offline),
        },
    ];
    h.choices = two(rt, alloc, one(rt, alloc, first), list(rt, alloc, &others));
    h
}

// Three replies: one left by the port, one waits in its transmit queue, and one was begun.
pub(crate) fn replying(rt: &impl Abort, alloc: Global) -> History {
    let lanes = two(
        rt,
        alloc,
        lane(rt, alloc, &[], 0),
        lane(rt, alloc, &[0, 1, 2], 3),
    );
    let mut h = received(rt, alloc, &[0; 3], &[PLAIN; 3], lanes, &[0, 1, 2]);
    let begun = Sent {
        id: PacketId(0),
        rxq: RxQueue(0),
        cpu: Cpu(2),
    };
    let sent = [
        begun,
        Sent {
            id: PacketId(1),
            cpu: Cpu(3),
            ..begun
        },
        Sent {
            id: PacketId(2),
            ..begun
        },
    ];
    h.sent = one(rt, alloc, list(rt, alloc, &sent));
    let choices = [
        classed(Some(0), None, 0, 0, Why::Unset),
        classed(Some(1), Some(2), 2, 1, Why::Passed),
    ];
    h.tx_choices = one(rt, alloc, chosen(rt, alloc, &choices));
    h.tx_lanes = two(
        rt,
        alloc,
        lane(rt, alloc, &[0], 1),
        lane(rt, alloc, &[1], 0),
    );
    h.port = ids(rt, alloc, &[0]);
    h
}

// The lines of a history that the test made for these packets and so many applications. It has to
// be regular.
pub(crate) fn lines_of<'a>(
    rt: &impl Abort,
    alloc: Global,
    h: &'a History,
    packets: &'a [Packet],
    apps: u8,
) -> Lines<'a>
    requires apps { 1 ≤ apps }
    ensures { AreLinesOf result h.now }
{
    assert!(rt; packets.len() <= 262_144);
    let regular = is_regular(alloc, h, packets, apps).expect(rt, "memory");
    assert!(rt; regular, "the history is regular");
    Lines::make(alloc, h, packets, apps).expect(rt, "memory")
}
