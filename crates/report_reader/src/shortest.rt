//! The fewest bytes that a row of each kind has. A shorter row is none of its kind and is not kept,
//! so that what is kept takes memory in proportion to the bytes.

/// Of the row of a packet: `p 0 q 0 via none class - want - head - tail - cpu - why - at - app 0
/// in - place ring` and a line feed.
pub const SHORTEST_PACKET: usize = 85;

/// Of the row of a reply: `r 0 app 0 rxq 0 cpu 0 pick - head - tail - tx - why - at - port -` and
/// a line feed.
pub const SHORTEST_REPLY: usize = 66;

/// Of the row of a receive queue: `queue 0 arrived 0 taken 0` and a line feed.
pub const SHORTEST_QUEUE: usize = 26;

/// Of the row of a processor: `cpu 0 accepted 0 pulled 0 delivered 0 retired 0 dropped 0` and a
/// line feed.
pub const SHORTEST_CPU: usize = 58;

/// Of the row of a transmit queue: `tx 0 accepted 0 pulled 0 delivered 0 retired 0` and a line
/// feed.
pub const SHORTEST_TX: usize = 47;

/// Of the row of a write to the socket flow table: `w app 0 entry 0 cpu 0` and a line feed.
pub const SHORTEST_WRITE: usize = 22;

/// Of the row of a command: `c 0 expire done` and a line feed.
pub const SHORTEST_COMMAND: usize = 16;

/// Of the row of a tap: `tap 0 bytes 0` and a line feed.
pub const SHORTEST_TAP: usize = 14;
