//! The events of a hop and their answers.
use steer_base::{Choice, CpuMask, Idle, PacketId, Put};

/// One step of one actor of a hop. Producers, guests, lanes and out lanes are named by number from
/// 0; the guests are numbered after the producers.
#[derive(Clone, Copy, Debug, PartialEq, Eq)]
pub enum HopEvent {
    /// A packet arrives at a producer.
    Arrive {
        p: u8,
        id: PacketId,
    },
    /// A producer takes the next packet that arrived.
    Take {
        p: u8,
    },
    /// A producer or guest enters the gate.
    Enter {
        p: u8,
    },
    /// A producer or guest leaves the gate.
    Leave {
        p: u8,
    },
    /// A producer chooses the lane of the packet in its hand, by the migration rule of the kernel's
    /// scaling chapter.
    Weigh {
        p: u8,
        /// The class of the packet, if it has one.
        class: Option<u32>,
        /// The lane that was wanted, recorded with the choice.
        want: Option<u8>,
        desired: u8,
        online: CpuMask,
    },
    /// A producer puts the packet in its hand, which has this hash, to the chosen lane.
    Put {
        p: u8,
        hash: Option<u32>,
    },
    /// A lane pulls the oldest packet that waits.
    Pull {
        lane: u8,
    },
    /// A lane delivers the packet in its hand to an out lane.
    Deliver {
        lane: u8,
        to: u8,
    },
    /// A lane retires the packet that it delivered: its head rises by one.
    Retire {
        lane: u8,
    },
    /// A producer's entries are cleared and resized to `count` classes, rounded up to a power of
    /// two.
    Resize {
        p: u8,
        count: u32,
    },
    /// The gate closes.
    Close,
    /// The gate opens again.
    Reopen,
}

/// The answer to an event.
#[derive(Clone, Copy, Debug, PartialEq, Eq)]
pub enum HopAnswer {
    /// The event was done.
    Done,
    /// The choice that was made.
    Chose(Choice),
    /// Where the put left its packet.
    Went(Put),
    /// The packet that was taken or pulled.
    Took(PacketId),
    /// The place of the delivered packet in its out lane, from 1.
    Position(u32),
    /// Nothing was done, for the first reason that applies.
    Idle(Idle),
    /// The gate stays open, since this many actors are inside.
    Inside(u32),
    /// The actor stays outside, since the gate is closed.
    Closed,
}
