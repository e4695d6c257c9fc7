//! Limits that more than one part of the replayer keeps.

/// The most packets that a capture may have. Packet numbers are below it, and counts of packets are
/// at most this.
pub const MAX_PACKETS: usize = 262_144;

/// The most entries of a receive queue's flow table, as a plan and the command `flows` may ask.
pub const MAX_FLOW_COUNT: u32 = 32_768;

/// The most entries of the socket flow table, as a plan and the command `sock` may ask.
pub const MAX_SOCKET_SIZE: u32 = 65_536;

/// The buckets over which the flow limit counts the packets of hashes, as the kernel's default
/// (`net.core.flow_limit_table_len`).
pub const FLOW_LIMIT_BUCKETS: u32 = 4_096;
