//! Where a packet is.
use steer_base::{AppId, Cpu};

/// The place of a packet that arrived.
#[derive(Clone, Copy, Debug, PartialEq, Eq)]
pub enum Place {
    /// In the ring of its receive queue.
    Ring,
    /// Taken from the ring by the poller of the queue, and not yet put to a processor.
    Poller,
    /// Waiting in the backlog of a processor.
    Backlog(Cpu),
    /// Pulled from the backlog, and not yet delivered.
    Hand(Cpu),
    /// In the inbox of an application.
    Inbox(AppId),
    /// Dropped at the backlog of a processor.
    Dropped(Cpu),
}
