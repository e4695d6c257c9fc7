//! What the lists of an application say of a reply.
use steer_base::{Choice, Cpu, RxQueue};

/// What the lists of an application say of a reply that was begun: what selects its transmit
/// queue, and the choice of the queue.
#[derive(Clone, Copy, Debug, PartialEq, Eq)]
pub struct Begun {
    /// The receive queue of the packet that is replied to.
    pub rxq: RxQueue,
    /// The processor that the application ran on.
    pub cpu: Cpu,
    /// The choice of a transmit queue, once it was made.
    pub choice: Option<Choice>,
}
