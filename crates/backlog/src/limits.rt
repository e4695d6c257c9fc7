//! The limit on the size of a lane.

/// The most packets that one lane takes, accepted and dropped together.
pub const MAX_LANE_ROOM: u32 = 262_144;
