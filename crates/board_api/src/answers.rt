//! The results of the calls of a board.
use crate::held_lane::HeldLane;
use steer_base::PacketId;

/// Whether a visit began.
#[derive(Clone, Copy, Debug, PartialEq, Eq, Drop)]
pub enum EnterAnswer {
    /// The seat is inside.
    Ok,
    /// The gate was closed, and the visitor has backed out.
    Closed {
        /// The gate's word that was found.
        word: u64,
    },
}

/// Whether a lane was taken.
#[derive(Drop)]
pub enum Hold {
    /// The lane, which the seat now holds.
    Ok(HeldLane),
    /// Another seat held it, or this one did already.
    Held {
        /// The lane's whole word, which is odd.
        word: u64,
    },
}

/// The result of a pull from a middle lane.
#[derive(Clone, Copy, Debug, PartialEq, Eq, Drop)]
pub enum Pull {
    /// The packet that waited longest.
    Took(PacketId),
    /// No packet waited.
    Empty,
}

/// Whether the gate was closed.
#[derive(Clone, Copy, Debug, PartialEq, Eq, Drop)]
pub enum CloseAnswer {
    /// It is closed.
    Ok,
    /// A seat was inside, or backing out of a closed gate.
    Inside {
        /// The number of open visits.
        n: u64,
    },
}

/// Whether lanes were found empty.
#[derive(Clone, Copy, Debug, PartialEq, Eq, Drop)]
pub enum Emptied {
    /// Each lane had its head at its tail.
    Ok,
    /// A lane was not empty; those before it in the set were.
    NotEmpty {
        /// The first such lane.
        lane: u8,
        /// Its head, a counter number.
        head: u32,
        /// Its tail, a counter number.
        tail: u32,
    },
}
