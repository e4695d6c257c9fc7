//! The places of each packet in the lists of a history.
ghost use Rattle.std.specs.Prelude.{IfOk};
ghost use Rattle.history.specs.Known.{HasShortLists};
ghost use Rattle.history.specs.Slots.{AreSlots};

use crate::history::History;
use crate::known::index::{Index, index_accepted, index_list, index_places, some_drops};
use crate::known::places::Places;
use std::alloc::Global;
use steer_base::{OutOfMemory, Put};

/// One slot for each packet that arrived, for each kind of list that other lists do not lead to.
/// Places are counted from 1, and of several the first is kept.
#[derive(Drop)]
pub struct Slots {
    /// The place among the packets that a processor accepted.
    pub accepted: Places,
    /// The drop at a processor, with its number; no slots where no processor dropped a packet.
    pub drops: Index<Put>,
    /// The place in an inbox.
    pub inboxes: Places,
    /// The place among the packets that a transmit queue accepted.
    pub tx_accepted: Places,
    /// The place among the packets that left by the port.
    pub port: Places,
}

impl Slots {
    // Looks up every packet, in one pass over each list.
    pub(crate) fn make(alloc: Global, h: &History) -> Result<Slots, OutOfMemory>
        requires { HasShortLists h.now }
        ensures { IfOk result (λ s. AreSlots h.now s) }
    {
        let count = h.arrivals.len();
        Ok(Slots {
            accepted: index_accepted(alloc, count, &h.lanes)?,
            drops: some_drops(alloc, count, &h.lanes)?,
            inboxes: index_places(alloc, count, &h.inboxes)?,
            tx_accepted: index_accepted(alloc, count, &h.tx_lanes)?,
            port: index_list(alloc, count, &h.port)?,
        })
    }
}
