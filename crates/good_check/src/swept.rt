//! Clause 8: all is done in the end.
ghost use Rattle.std.specs.Prelude.{◌≡◌};
ghost use Rattle.std.specs.List.{list_all};
ghost use Rattle.good_check.specs.Swept.{is_done};

use crate::case::Case;
use history::LaneList;
use steer_base::{List, PacketId};

// Whether a lane pulled, delivered and retired all that it accepted.
fn is_done(lane: &LaneList) -> bool
    ensures { result ≡ is_done lane.now }
{
    let count = lane.accepted.len();
    lane.pulled as usize == count
        && lane.delivered as usize == count
        && lane.retired as usize == count
}

// Whether all lanes did.
fn are_done(lanes: &List<LaneList>) -> bool
    ensures { result ≡ list_all is_done lanes.now }
{
    lanes.as_slice().iter().all(|lane| is_done(lane))
}

impl Case<'_> {
    ghost use Rattle.std.specs.Prelude.{◌≡◌, true, ◌<◌, length};
    ghost use Rattle.std.specs.List.{list_all};
    ghost use Rattle.steer_model.specs.Good.Deliveries.{IsSwept};
    ghost use Rattle.good_check.specs.Cases.{IsPlain};
    ghost use Rattle.good_check.specs.Swept.{has_ended};

    // Whether a packet was dropped, or is in an inbox, was replied to, and left by the port.
    fn has_ended(&self, id: PacketId) -> bool
        requires { id < length self.now.h.now.arrivals }
        ensures { result ≡ has_ended self.now.h.now id }
    {
        match self.known.inboxes.get(id) {
            Some(_) => self.known.senders.get(id).is_some() && self.known.port.get(id).is_some(),
            None => self.known.drops.get(id).is_some(),
        }
    }

    // Whether all packets that arrived have ended.
    fn have_ended(&self) -> bool
        requires plain { IsPlain self.now }
        ensures { result ≡ list_all (λ a. has_ended self.now.h.now a.id) self.now.h.now.arrivals }
    {
        for arrival in self.h.arrivals.as_slice() {
            if !self.has_ended(arrival.id) {
                return false;
            }
        }
        true
    }

    /// Clause 8: whether each packet that arrived was dropped, or is in an inbox, was replied to
    /// and left by the port; and each lane pulled, delivered and retired all that it accepted.
    pub fn is_swept(&self) -> bool
        requires plain { IsPlain self.now }
        ensures yes { result ≡ true → IsSwept self.now.h.now }
        ensures no { IsSwept self.now.h.now → result ≡ true }
    {
        if !are_done(&self.h.lanes) {
            return false;
        }
        if !are_done(&self.h.tx_lanes) {
            return false;
        }
        self.have_ended()
    }
}
