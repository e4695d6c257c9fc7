//! Traces of hops, worked by hand.
use hop_model::MAX_HOP_ROOM;
use steer_base::{Busy, Choice, CpuMask, DropCause, Put, Why};

// The hashes of the flow 66.9.149.187:2794 to 161.142.100.80:1766 and of its neighbour in
// Microsoft's vectors, both TCP.
pub(crate) const FIRST: u32 = 0x51cc_c178;

pub(crate) const SECOND: u32 = 0xc626_b0ea;

pub(crate) const ALL: CpuMask = CpuMask(0b1111);

const WITHOUT_1: CpuMask = CpuMask(0b1101);

/// A packet of the producer 0: how it is weighed and put, and what is wanted.
#[derive(Drop)]
pub(crate) struct Packet {
    pub(crate) id: u32,
    pub(crate) hash: u32,
    pub(crate) online: CpuMask,
    pub(crate) desired: u8,
    pub(crate) choice: Choice,
    pub(crate) went: Put,
}

/// What is done to a hop, with the answers that are wanted.
pub(crate) enum Deed {
    /// This packet arrives at a producer.
    Arrive(u8, u32),
    /// The producer takes this packet.
    Take(u8, u32),
    /// The producer 0 enters, takes this packet, weighs and puts it, and leaves.
    Poll(Packet),
    /// An actor enters, or finds the gate closed.
    Enter(u8),
    Closed(u8),
    Leave(u8),
    /// A lane pulls this packet, or has one in its hand.
    Pull(u8, u32),
    HandFull(u8),
    /// It delivers that packet to the out lane 0, as this place.
    Deliver(u8, u32),
    Retire(u8),
    /// The gate closes, or stays open since so many are inside.
    Close,
    Inside(u32),
    Reopen,
    /// The producer 0 gets so many classes, or may not.
    Resize(u32),
    MayNotResize(u32),
    /// Whether these lanes are empty.
    Emptied(CpuMask, Result<(), Busy>),
}

// A packet that waits for no class comes first of its class.
const UNSET: Choice = Choice {
    class: Some(0),
    want: None,
    head: None,
    tail: Some(0),
    lane: 1,
    why: Why::Unset,
};

const ALONE: Packet = Packet {
    id: 0,
    hash: FIRST,
    online: ALL,
    desired: 1,
    choice: UNSET,
    went: Put::At(1),
};

// Wants lane 2 and is kept in lane 1.
const KEPT: Choice = Choice {
    want: Some(2),
    head: Some(0),
    tail: Some(1),
    why: Why::Kept,
    ..UNSET
};

const MOVES: Choice = Choice {
    want: Some(2),
    head: Some(3),
    tail: Some(3),
    lane: 2,
    why: Why::Passed,
    ..UNSET
};

/// The first two packets choose lane 1, the third is kept there, and the fourth moves to lane 2.
/// The first is delivered before the third comes, and retired behind it.
pub(crate) const MOVING: &[Deed] = &[
    Deed::Arrive(0, 0),
    Deed::Arrive(0, 1),
    Deed::Arrive(0, 2),
    Deed::Arrive(0, 3),
    Deed::Poll(ALONE),
    Deed::Poll(Packet {
        id: 1,
        desired: 2,
        choice: KEPT,
        went: Put::At(2),
        ..ALONE
    }),
    Deed::Pull(1, 0),
    Deed::Deliver(1, 1),
    Deed::Poll(Packet {
        id: 2,
        desired: 2,
        choice: Choice {
            tail: Some(2),
            ..KEPT
        },
        went: Put::At(3),
        ..ALONE
    }),
    Deed::Retire(1),
    Deed::Pull(1, 1),
    Deed::Deliver(1, 2),
    Deed::Retire(1),
    Deed::Pull(1, 2),
    Deed::Deliver(1, 3),
    Deed::Retire(1),
    Deed::Poll(Packet {
        id: 3,
        desired: 2,
        choice: MOVES,
        went: Put::At(1),
        ..ALONE
    }),
];

/// The same where 4294967294 is the number of no packet.
pub(crate) const WRAPPING: &[Deed] = &[
    Deed::Arrive(0, 0),
    Deed::Arrive(0, 1),
    Deed::Arrive(0, 2),
    Deed::Arrive(0, 3),
    Deed::Poll(Packet {
        choice: Choice {
            tail: Some(4294967294),
            ..UNSET
        },
        went: Put::At(4294967295),
        ..ALONE
    }),
    Deed::Poll(Packet {
        id: 1,
        desired: 2,
        choice: Choice {
            head: Some(4294967294),
            tail: Some(4294967295),
            ..KEPT
        },
        went: Put::At(0),
        ..ALONE
    }),
    Deed::Pull(1, 0),
    Deed::Deliver(1, 1),
    Deed::Poll(Packet {
        id: 2,
        desired: 2,
        choice: Choice {
            head: Some(4294967294),
            tail: Some(0),
            ..KEPT
        },
        went: Put::At(1),
        ..ALONE
    }),
    Deed::Retire(1),
    Deed::Pull(1, 1),
    Deed::Deliver(1, 2),
    Deed::Retire(1),
    Deed::Pull(1, 2),
    Deed::Deliver(1, 3),
    Deed::Retire(1),
    Deed::Poll(Packet {
        id: 3,
        desired: 2,
        choice: Choice {
            head: Some(1),
            tail: Some(1),
            ..MOVES
        },
        went: Put::At(4294967295),
        ..ALONE
    }),
];

/// Two flows of one class: the second moves it to lane 2, where the first then goes too.
pub(crate) const APART: &[Deed] = &[
    Deed::Arrive(0, 0),
    Deed::Arrive(0, 1),
    Deed::Arrive(0, 2),
    Deed::Arrive(0, 3),
    Deed::Poll(ALONE),
    Deed::Poll(Packet {
        id: 1,
        hash: SECOND,
        desired: 2,
        choice: KEPT,
        went: Put::At(2),
        ..ALONE
    }),
    Deed::Pull(1, 0),
    Deed::Deliver(1, 1),
    Deed::Retire(1),
    Deed::Pull(1, 1),
    Deed::Deliver(1, 2),
    Deed::Retire(1),
    Deed::Poll(Packet {
        id: 2,
        hash: SECOND,
        desired: 2,
        choice: Choice {
            head: Some(2),
            tail: Some(2),
            ..MOVES
        },
        went: Put::At(1),
        ..ALONE
    }),
    Deed::Poll(Packet {
        id: 3,
        choice: Choice {
            head: Some(0),
            tail: Some(1),
            lane: 2,
            why: Why::Kept,
            ..UNSET
        },
        went: Put::At(2),
        ..ALONE
    }),
];

/// The lane of the first packet is offline for the second.
pub(crate) const OFFLINE: &[Deed] = &[
    Deed::Arrive(0, 0),
    Deed::Arrive(0, 1),
    Deed::Poll(ALONE),
    Deed::Pull(1, 0),
    Deed::Deliver(1, 1),
    Deed::Retire(1),
    Deed::Poll(Packet {
        id: 1,
        online: WITHOUT_1,
        desired: 0,
        choice: Choice {
            tail: Some(1),
            lane: 0,
            why: Why::Offline,
            ..UNSET
        },
        ..ALONE
    }),
];

/// The classes are resized once nothing waits.
pub(crate) const RESIZING: &[Deed] = &[
    Deed::Arrive(0, 0),
    Deed::Arrive(0, 1),
    Deed::Poll(ALONE),
    Deed::Close,
    Deed::MayNotResize(2),
    Deed::Pull(1, 0),
    Deed::Deliver(1, 1),
    Deed::Retire(1),
    Deed::Resize(2),
    Deed::Reopen,
    Deed::Poll(Packet {
        id: 1,
        desired: 2,
        choice: Choice { lane: 2, ..UNSET },
        ..ALONE
    }),
];

/// The choice of a packet without a class.
pub(crate) const PLAIN: Choice = Choice {
    class: None,
    tail: None,
    why: Why::Plain,
    ..UNSET
};

/// One packet may wait, and the one in the lane's hand does not.
pub(crate) const IN_HAND: &[Deed] = &[
    Deed::Arrive(0, 0),
    Deed::Arrive(0, 1),
    Deed::Arrive(0, 2),
    Deed::Poll(Packet {
        choice: PLAIN,
        ..ALONE
    }),
    Deed::Poll(Packet {
        id: 1,
        choice: PLAIN,
        went: Put::Dropped {
            number: 1,
            accepted: 1,
            pulled: 0,
            cause: DropCause::Full,
        },
        ..ALONE
    }),
    Deed::Pull(1, 0),
    Deed::Poll(Packet {
        id: 2,
        choice: PLAIN,
        went: Put::At(2),
        ..ALONE
    }),
    Deed::HandFull(1),
];

/// Lane 1 has one packet, which is retired.
pub(crate) const EMPTIED: &[Deed] = &[
    Deed::Arrive(0, 0),
    Deed::Poll(Packet {
        choice: PLAIN,
        ..ALONE
    }),
    Deed::Emptied(
        ALL,
        Err(Busy::NotEmpty {
            lane: 1,
            head: 0,
            tail: 1,
        }),
    ),
    Deed::Emptied(WITHOUT_1, Ok(())),
    Deed::Pull(1, 0),
    Deed::Deliver(1, 1),
    Deed::Retire(1),
    Deed::Emptied(ALL, Ok(())),
];

/// The same where 4294967295 is the number of no packet.
pub(crate) const EMPTIED_AT_THE_WRAP: &[Deed] = &[
    Deed::Arrive(0, 0),
    Deed::Poll(Packet {
        choice: PLAIN,
        went: Put::At(0),
        ..ALONE
    }),
    Deed::Emptied(
        ALL,
        Err(Busy::NotEmpty {
            lane: 1,
            head: 4294967295,
            tail: 0,
        }),
    ),
    Deed::Emptied(WITHOUT_1, Ok(())),
    Deed::Pull(1, 0),
    Deed::Deliver(1, 1),
    Deed::Retire(1),
    Deed::Emptied(ALL, Ok(())),
];

/// The producer and a guest visit, the gate closes, and the other guest finds it closed.
pub(crate) const GATE: &[Deed] = &[
    Deed::Enter(0),
    Deed::Enter(2),
    Deed::Inside(2),
    Deed::Leave(2),
    Deed::Leave(0),
    Deed::Close,
    Deed::Closed(1),
    Deed::Reopen,
    Deed::Enter(1),
];

/// The last packet comes to the last producer.
pub(crate) const LAST: &[Deed] = &[
    Deed::Arrive(31, MAX_HOP_ROOM - 1),
    Deed::Take(31, MAX_HOP_ROOM - 1),
];

/// The first choice where 7 is the number of no packet.
pub(crate) const AT_7: Choice = Choice {
    tail: Some(7),
    ..UNSET
};

/// One packet is in the hand of lane 1 and the next one in that of the producer.
pub(crate) const HANDS: &[Deed] = &[
    Deed::Arrive(0, 0),
    Deed::Arrive(0, 1),
    Deed::Poll(Packet {
        choice: AT_7,
        went: Put::At(8),
        ..ALONE
    }),
    Deed::Pull(1, 0),
    Deed::Enter(0),
    Deed::Take(0, 1),
];
