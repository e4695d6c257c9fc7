//! What the lists of a history say about each packet.
ghost use Rattle.std.specs.Prelude.{IfOk};
ghost use Rattle.history.specs.Known.{HasShortLists, IsKnown};

pub mod counted;
pub mod index;
pub mod places;

use crate::history::History;
use index::{
    Index, index_accepted, index_lanes, index_list, index_places, index_senders, some_drops,
};
use places::Places;
use std::alloc::Global;
use steer_base::{Cpu, OutOfMemory, Put};

/// One slot for each packet that arrived, for each kind of list. Places are counted from 1. If
/// several lists, or several places in a list, have a packet, the first of them is kept. Of a
/// choice the lane is kept, and of a reply the processor: the slots of a packet are few bytes.
#[derive(Drop)]
pub struct Known {
    /// The processor that was chosen.
    pub lanes: Index<u8>,
    /// The place among the packets that a processor accepted.
    pub accepted: Places,
    /// The drop at a processor, with its number; no slots where no processor dropped a packet.
    pub drops: Index<Put>,
    /// The place in an inbox.
    pub inboxes: Places,
    /// The processor that the reply was sent from, if one was begun.
    pub senders: Index<Cpu>,
    /// The transmit queue that was chosen for the reply.
    pub tx_lanes: Index<u8>,
    /// The place among the packets that a transmit queue accepted.
    pub tx_accepted: Places,
    /// The place among the packets that left by the port.
    pub port: Places,
}

impl Known {
    /// Looks up every packet, in one pass over each list. The history need not be regular.
    pub fn make(alloc: Global, h: &History) -> Result<Known, OutOfMemory>
        requires { HasShortLists h.now }
        ensures { IfOk result (λ k. IsKnown h.now k) }
    {
        let count = h.arrivals.len();
        Ok(Known {
            lanes: index_lanes(alloc, count, &h.choices)?,
            accepted: index_accepted(alloc, count, &h.lanes)?,
            drops: some_drops(alloc, count, &h.lanes)?,
            inboxes: index_places(alloc, count, &h.inboxes)?,
            senders: index_senders(alloc, count, &h.sent)?,
            tx_lanes: index_lanes(alloc, count, &h.tx_choices)?,
            tx_accepted: index_accepted(alloc, count, &h.tx_lanes)?,
            port: index_list(alloc, count, &h.port)?,
        })
    }
}
