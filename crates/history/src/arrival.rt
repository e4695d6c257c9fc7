//! The arrival of a packet at a receive queue.
use steer_base::{PacketId, RxQueue};

/// A packet that arrived, its receive queue, and what led to this queue.
#[derive(Clone, Copy, Debug, PartialEq, Eq)]
pub struct Arrival {
    /// The packet.
    pub id: PacketId,
    /// The queue that it arrived at.
    pub queue: RxQueue,
    /// The queue that a hardware filter named, if one matched.
    pub filter: Option<RxQueue>,
    /// The queue that the entry of the redirection table named, if the table was consulted.
    pub entry: Option<RxQueue>,
}
