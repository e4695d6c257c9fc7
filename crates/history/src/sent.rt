//! A reply that an application began.
use steer_base::{Cpu, PacketId, RxQueue};

/// A reply to a packet, with what selects its transmit queue.
#[derive(Clone, Copy, Debug, PartialEq, Eq)]
pub struct Sent {
    /// The packet that is replied to.
    pub id: PacketId,
    /// The receive queue of that packet.
    pub rxq: RxQueue,
    /// The processor that the application ran on.
    pub cpu: Cpu,
}
