//! The line that a report shows of a packet on its way in.
use crate::place::Place;
use steer_base::{AppId, Choice, PacketId, Put, RxQueue};

/// What led to the receive queue of a packet.
#[derive(Clone, Copy, Debug, PartialEq, Eq)]
pub enum Via {
    /// A hardware filter.
    Filter,
    /// The redirection table.
    Reta,
    /// The packet has no hash.
    Unhashed,
}

/// The line of a packet that arrived: its queue, the choice of its processor, what happened to it
/// there, and where it is.
#[derive(Clone, Copy, Debug, PartialEq, Eq)]
pub struct PacketLine {
    /// The packet.
    pub id: PacketId,
    /// The receive queue that it arrived at.
    pub queue: RxQueue,
    /// What led to that queue.
    pub via: Via,
    /// The choice of a processor, once it was made.
    pub choice: Option<Choice>,
    /// The position in the backlog or the drop, once it was put there.
    pub put: Option<Put>,
    /// The application that its hash leads to.
    pub app: AppId,
    /// Its place in the inbox of that application, from 1.
    pub inbox: Option<u32>,
    /// Where it is.
    pub place: Place,
    /// The place of its flow among the distinct flows of the capture, from 0.
    pub flow_number: u32,
}
