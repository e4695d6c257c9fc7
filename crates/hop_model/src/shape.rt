//! The shape of a hop.
use steer_base::CpuMask;

/// The most packets that one hop takes.
pub const MAX_HOP_ROOM: u32 = 262_144;

/// The parameters with which a hop is made.
#[derive(Debug, Drop)]
pub struct HopShape {
    /// The number of producers, 1 to 32.
    pub producers: u8,
    /// The number of guests, the actors that only enter and leave: at most 64.
    pub guests: u8,
    /// The number of lanes, 1 to 32.
    pub lanes: u8,
    /// The number of out lanes, 1 to 32.
    pub outs: u8,
    /// How many packets may wait in a lane, at least 1.
    pub limit: u32,
    /// The bound of packet numbers: each is below it. At most 262,144.
    pub room: u32,
    /// The number of classes of each producer: at most 32,768, or 262,144 where the shape is exact.
    pub counts: Vec<u32>,
    /// Whether the numbers of classes are taken as they are; otherwise they are rounded up to
    /// powers of two.
    pub exact: bool,
    /// The number at which the lanes' counters begin.
    pub start: u32,
    /// The lanes to which the flow limit applies.
    pub limited: CpuMask,
}
