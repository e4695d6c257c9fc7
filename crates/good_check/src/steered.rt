//! Clause 7: each packet is at one place, and the packets of each flow are in order.
ghost use Rattle.std.specs.Prelude.{◌≡◌, ◌<◌, ◌≤◌};
ghost use Rattle.dev_flow_table.specs.declared.table.TheConstants.{MAX_EXACT_CLASSES};
ghost use Rattle.good_check.specs.Order.{queue_and_flow};

use crate::case::Case;
use crate::order::{joined, leave_in_order};
use std::alloc::Global;
use steer_base::{OutOfMemory, PacketId, RxQueue};

// A receive queue and a flow as one number, where there are `flows` flow numbers.
fn queue_and_flow(flows: u32, queue: RxQueue, flow: u32) -> u32
    requires few { flows ≤ MAX_EXACT_CLASSES }
    requires below { flow < flows }
    ensures { result ≡ queue_and_flow flows queue flow }
{
    u32::from(queue.0) * flows + flow
}

impl Case<'_> {
    ghost use Rattle.std.specs.Prelude.{ℕ, ◌≡◌, ◌<◌, ◌≤◌, IfOk, true};
    ghost use Rattle.dev_flow_table.specs.declared.table.TheConstants.{MAX_EXACT_CLASSES};
    ghost use Rattle.steer_model.specs.Good.Deliveries.{IsDeliveredInOrder, IsSteered};
    ghost use Rattle.steer_model.specs.State.Setup.{flow_number_of};
    ghost use Rattle.good_check.specs.Cases.{IsPlain, input_of};
    ghost use Rattle.good_check.specs.Order.{kept_arrivals, arrival_classes};

    // The class of each packet that arrived, by its receive queue and its flow.
    pub(crate) fn arrival_classes(
        &self,
        alloc: Global,
        flows: u32,
    ) -> Result<Vec<Option<u32>>, OutOfMemory>
        requires above { (x : ℕ) → flow_number_of self.now.given.now x < flows }
        requires few { flows ≤ MAX_EXACT_CLASSES }
        ensures { IfOk result (λ classes.
            classes.items ≡ arrival_classes flows self.now.given.now self.now.h.now.arrivals) }
    {
        let mut classes = Vec::with_capacity(alloc, self.h.arrivals.len())?;
        for arrival in self.h.arrivals.as_slice() {
            let flow = self.given.flow_of(arrival.id);
            classes.push(Some(queue_and_flow(flows, arrival.queue, flow)))?;
        }
        Ok(classes)
    }

    // The packets that arrived and were not dropped, in their order.
    pub(crate) fn kept_arrivals(&self, alloc: Global) -> Result<Vec<PacketId>, OutOfMemory>
        ensures { IfOk result (λ packets.
            packets.items ≡ kept_arrivals self.now.known.now self.now.h.now.arrivals) }
    {
        let mut packets = Vec::with_capacity(alloc, self.h.arrivals.len())?;
        for arrival in self.h.arrivals.as_slice() {
            if self.known.drops.get(arrival.id).is_none() {
                packets.push(arrival.id)?;
            }
        }
        Ok(packets)
    }

    /// Whether the packets of each flow from each receive queue are in the inbox in the order of
    /// their arrivals, without the dropped ones: a part of clause 7.
    ///
    /// # Errors
    ///
    /// `OutOfMemory`, and nothing else.
    pub fn has_order(&self, alloc: Global) -> Result<bool, OutOfMemory>
        requires plain { IsPlain self.now }
        ensures yes { IfOk result (λ r. r ≡ true
            → IsDeliveredInOrder (input_of self.now) self.now.h.now) }
        ensures no { IfOk result (λ r. IsDeliveredInOrder (input_of self.now) self.now.h.now
            → r ≡ true) }
    {
        let classes = self.arrival_classes(alloc, self.flow_classes())?;
        let came = self.kept_arrivals(alloc)?;
        let delivered = joined(alloc, &self.h.inboxes)?;
        leave_in_order(alloc, &classes, &came, &delivered)
    }

    /// Clause 7: whether each packet is at one place, and each inbox is in order. That the history
    /// is regular is required.
    ///
    /// # Errors
    ///
    /// `OutOfMemory`, and nothing else.
    pub fn is_steered(&self, alloc: Global) -> Result<bool, OutOfMemory>
        requires plain { IsPlain self.now }
        ensures yes { IfOk result (λ r. r ≡ true → IsSteered (input_of self.now) self.now.h.now) }
        ensures no { IfOk result (λ r. IsSteered (input_of self.now) self.now.h.now → r ≡ true) }
    {
        if !self.has_places() {
            return Ok(false);
        }
        self.has_order(alloc)
    }
}
