//! The outcome of putting a packet to a lane.
use crate::ids::PacketId;

/// Why a packet was dropped.
#[derive(Clone, Copy, Debug, PartialEq, Eq)]
pub enum DropCause {
    /// As many packets waited as the backlog limit allows.
    Full,
    /// The flow limit, with the number of recent offers of the packet's bucket.
    Flow(u32),
}

/// The outcome of a put.
#[derive(Clone, Copy, Debug, PartialEq, Eq)]
pub enum Put {
    /// It was accepted at this position, a counter number that wraps.
    At(u32),
    /// It was dropped.
    Dropped {
        /// The number of this drop among those of the lane, from 1: a count.
        number: u32,
        /// How many packets the lane had accepted, a count.
        accepted: u32,
        /// How many of these had been pulled, a count.
        pulled: u32,
        /// Why it was dropped.
        cause: DropCause,
    },
}

/// A dropped packet with the two counts that its put found.
#[derive(Clone, Copy, Debug, PartialEq, Eq)]
pub struct LaneDrop {
    /// The packet.
    pub id: PacketId,
    /// How many packets the lane had accepted, a count.
    pub accepted: u32,
    /// How many of these had been pulled, a count.
    pub pulled: u32,
    /// Why it was dropped.
    pub cause: DropCause,
}
