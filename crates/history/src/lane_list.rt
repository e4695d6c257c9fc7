//! The packets of one lane, and how far they have come.
ghost use Rattle.std.specs.Prelude.{◌≡◌};
ghost use Rattle.history.specs.Finding.{is_among, is_in};
ghost use Rattle.history.specs.Lists.{drop_ids};

use crate::history::finding::{has_packet, has_packet_among};
use steer_base::{LaneDrop, List, PacketId};

/// The backlog of a processor, or a transmit queue: its packets in the order in which they were put
/// there, and how far they have come.
#[derive(Debug, Drop)]
pub struct LaneList {
    /// The packets that were accepted, in order: the n-th, from 1, has the position n.
    pub accepted: List<PacketId>,
    /// The packets that were dropped, in the order of their numbers.
    pub drops: List<LaneDrop>,
    /// The number of accepted packets that were pulled.
    pub pulled: u32,
    /// The number of pulled packets that were delivered.
    pub delivered: u32,
    /// The number of delivered packets that were retired: the head of the lane counts these.
    pub retired: u32,
}

impl LaneList {
    // Whether the packet is among those that were dropped.
    pub(crate) fn has_dropped(&self, id: PacketId) -> bool
        ensures { result ≡ is_in id (drop_ids self.now) }
    {
        for fallen in self.drops.as_slice() {
            if fallen.id == id {
                return true;
            }
        }
        false
    }

    // Whether it is among those that were accepted.
    pub(crate) fn has_accepted(&self, id: PacketId) -> bool
        ensures { result ≡ is_in id self.now.accepted }
    {
        has_packet(self.accepted.as_slice(), id)
    }

    // Whether it is among the accepted ones that were pulled.
    pub(crate) fn has_pulled(&self, id: PacketId) -> bool
        ensures { result ≡ is_among self.now.pulled id self.now.accepted }
    {
        has_packet_among(self.accepted.as_slice(), self.pulled as usize, id)
    }
}
