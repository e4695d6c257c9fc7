//! A hardware filter of accelerated receive flow steering.
use crate::ids::{Cpu, RxQueue};

/// Where a filter sends the packets that match it, and what it remembers for its expiry.
#[derive(Clone, Copy, Debug, PartialEq, Eq)]
pub struct Filter {
    /// The receive queue that matching packets go to.
    pub queue: RxQueue,
    /// The processor that the filter steers to.
    pub cpu: Cpu,
    /// The position at that processor of the packet that led to the filter, a counter number that
    /// wraps.
    pub mark: u32,
}
