//! Clause 11, in part: the replies leave in order.
ghost use Rattle.std.specs.Prelude.{◌≡◌, ◌++◌, IfOk, OnOk, map};
ghost use Rattle.good_check.specs.Order.{all_replies};

use crate::case::Case;
use crate::order::leave_in_order;
use history::Sent;
use std::alloc::Global;
use steer_base::{List, OutOfMemory, PacketId};

// Adds the packets of an application's replies.
fn add_replies(packets: &mut Vec<PacketId>, sent: &[Sent]) -> Result<(), OutOfMemory>
    ensures { OnOk result (packets.new.items ≡ packets.old.items ++ map (λ s. s.id) sent.now) }
{
    for reply in sent {
        packets.push(reply.id)?;
    }
    Ok(())
}

// The packets of all replies, application after application.
fn all_replies(alloc: Global, sent: &List<List<Sent>>) -> Result<Vec<PacketId>, OutOfMemory>
    ensures { IfOk result (λ packets. packets.items ≡ all_replies sent.now) }
{
    let mut packets = Vec::new(alloc);
    for list in sent.as_slice() {
        add_replies(&mut packets, list.as_slice())?;
    }
    Ok(packets)
}

impl Case<'_> {
    ghost use Rattle.std.specs.Prelude.{ℕ, ◌≡◌, ◌<◌, ◌≤◌, IfOk, true};
    ghost use Rattle.dev_flow_table.specs.declared.table.TheConstants.{MAX_EXACT_CLASSES};
    ghost use Rattle.steer_model.specs.Good.Replies.{LeaveInOrder};
    ghost use Rattle.steer_model.specs.State.Setup.{flow_number_of};
    ghost use Rattle.good_check.specs.Cases.{IsPlain, input_of};
    ghost use Rattle.good_check.specs.Order.{LeftInOrder, all_replies, reply_classes};
    ghost use Rattle.good_check.specs.Order.{kept_arrivals, arrival_classes};

    // The class of each packet that arrived, by its flow alone.
    fn reply_classes(&self, alloc: Global) -> Result<Vec<Option<u32>>, OutOfMemory>
        ensures { IfOk result (λ classes.
            classes.items ≡ reply_classes self.now.given.now self.now.h.now.arrivals) }
    {
        let mut classes = Vec::with_capacity(alloc, self.h.arrivals.len())?;
        for arrival in self.h.arrivals.as_slice() {
            classes.push(Some(self.given.flow_of(arrival.id)))?;
        }
        Ok(classes)
    }

    // Whether the replies of each flow leave in the order in which they were sent.
    fn replies_leave(&self, alloc: Global) -> Result<bool, OutOfMemory>
        requires plain { IsPlain self.now }
        ensures yes { IfOk result (λ r. r ≡ true
            → LeftInOrder (reply_classes self.now.given.now self.now.h.now.arrivals)
            (all_replies self.now.h.now.sent) self.now.h.now.port) }
        ensures no { IfOk result (λ r.
            LeftInOrder (reply_classes self.now.given.now self.now.h.now.arrivals)
            (all_replies self.now.h.now.sent) self.now.h.now.port → r ≡ true) }
    {
        let classes = self.reply_classes(alloc)?;
        let replies = all_replies(alloc, &self.h.sent)?;
        leave_in_order(alloc, &classes, &replies, self.h.port.as_slice())
    }

    // Whether the packets of each flow from each receive queue leave in the order of their
    // arrivals.
    fn arrivals_leave(&self, alloc: Global, flows: u32) -> Result<bool, OutOfMemory>
        requires plain { IsPlain self.now }
        requires above { (x : ℕ) → flow_number_of self.now.given.now x < flows }
        requires few { flows ≤ MAX_EXACT_CLASSES }
        ensures yes { IfOk result (λ r. r ≡ true
            → LeftInOrder (arrival_classes flows self.now.given.now self.now.h.now.arrivals)
            (kept_arrivals self.now.known.now self.now.h.now.arrivals) self.now.h.now.port) }
        ensures no { IfOk result (λ r.
            LeftInOrder (arrival_classes flows self.now.given.now self.now.h.now.arrivals)
            (kept_arrivals self.now.known.now self.now.h.now.arrivals) self.now.h.now.port
            → r ≡ true) }
    {
        let classes = self.arrival_classes(alloc, flows)?;
        let came = self.kept_arrivals(alloc)?;
        leave_in_order(alloc, &classes, &came, self.h.port.as_slice())
    }

    /// Whether the replies of each application to each flow leave in the order in which they were
    /// sent, and each flow leaves in the order of its arrivals at each receive queue: a part of
    /// clause 11.
    ///
    /// # Errors
    ///
    /// `OutOfMemory`, and nothing else.
    pub fn leaves_in_order(&self, alloc: Global) -> Result<bool, OutOfMemory>
        requires plain { IsPlain self.now }
        ensures yes { IfOk result (λ r. r ≡ true
            → LeaveInOrder (input_of self.now) self.now.h.now) }
        ensures no { IfOk result (λ r. LeaveInOrder (input_of self.now) self.now.h.now
            → r ≡ true) }
    {
        if !self.replies_leave(alloc)? {
            return Ok(false);
        }
        self.arrivals_leave(alloc, self.flow_classes())
    }
}
