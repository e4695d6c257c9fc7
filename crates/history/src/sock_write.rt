//! A write of the socket flow table.
use steer_base::Cpu;

/// An application recorded the processor that it ran on.
#[derive(Clone, Copy, Debug, PartialEq, Eq)]
pub struct SockWrite {
    /// The index of the table's entry.
    pub entry: u32,
    /// The processor that was recorded.
    pub cpu: Cpu,
}
