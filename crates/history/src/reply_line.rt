//! The line that a report shows of a reply.
use steer_base::{AppId, Choice, Cpu, PacketId, RxQueue};

/// The line of a reply that was begun: what selects its transmit queue, the choice of the queue,
/// and how far it has come.
#[derive(Clone, Copy, Debug, PartialEq, Eq)]
pub struct ReplyLine {
    /// The packet that is replied to.
    pub id: PacketId,
    /// The application that replies.
    pub app: AppId,
    /// The receive queue of that packet.
    pub rxq: RxQueue,
    /// The processor that the application ran on.
    pub cpu: Cpu,
    /// The choice of a transmit queue, once it was made.
    pub choice: Option<Choice>,
    /// The position at that transmit queue, a counter number, once it was put there.
    pub put: Option<u32>,
    /// Its place on the port, from 1.
    pub port: Option<u32>,
    /// The place of its flow among the distinct flows of the capture, from 0.
    pub flow_number: u32,
}
