//! The numbers of processors, queues and applications of a plan.

/// The numbers of processors, receive queues, applications and transmit queues of a plan. One that
/// has not been read yet is 0.
#[derive(Clone, Copy, Debug, PartialEq, Eq)]
pub struct Sizes {
    /// Processors, at most 32.
    pub cpus: u8,
    /// Receive queues, at most 16.
    pub queues: u8,
    /// Applications, at most 32.
    pub apps: u8,
    /// Transmit queues, at most 32.
    pub tx: u8,
}
