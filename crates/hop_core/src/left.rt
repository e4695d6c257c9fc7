//! What a hop leaves when its lists are moved out of it.
use steer_base::{Chosen, LaneDrop, List, PacketId};

/// What a hop leaves: its lists, and how far its packets have come.
#[derive(Drop)]
pub struct HopLists {
    /// For each producer, how many packets it took.
    pub taken: Vec<u32>,
    /// For each producer, its choices, oldest first.
    pub choices: Vec<Vec<Chosen>>,
    /// What each lane leaves.
    pub lanes: Vec<LeftLane>,
    /// For each out lane, the packets that were delivered to it, oldest first.
    pub outs: Vec<Vec<PacketId>>,
    /// The number that the counters of the lanes showed before their first packet.
    pub start: u32,
}

/// What a lane of a hop leaves.
#[derive(Drop)]
pub struct LeftLane {
    /// The packets that it accepted, oldest first.
    pub accepted: List<PacketId>,
    /// The packets that it dropped, oldest first.
    pub drops: List<LaneDrop>,
    /// The number of accepted packets that were pulled.
    pub pulled: u32,
    /// The number of pulled packets that were delivered.
    pub delivered: u32,
    /// The number of delivered packets that were retired.
    pub retired: u32,
}
