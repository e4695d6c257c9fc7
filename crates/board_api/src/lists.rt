//! The lists that a board leaves.
use history::LaneList;
use steer_base::{List, PacketId};

/// The lists of all lanes of a board, by number.
#[derive(Debug, Drop)]
pub struct BoardLists {
    /// For each middle lane what it accepted and dropped, and how far its packets came.
    pub lanes: List<LaneList>,
    /// For each out lane the packets that were delivered to it, in order.
    pub outs: List<List<PacketId>>,
}
