//! Clause 7, in part: each packet is at one place.
ghost use Rattle.std.specs.Prelude.{◌≡◌};
ghost use Rattle.history.specs.Lists.{lane_at};
ghost use Rattle.good_check.specs.Places.{is_delivered_by};

use crate::case::Case;
use history::LaneList;
use steer_base::{List, PacketId};

// How many packets a lane delivered in the end.
fn delivered(lanes: &List<LaneList>, lane: u8) -> u32
    ensures { result ≡ (lane_at lanes.now lane).delivered }
{
    match lanes.as_slice().get(usize::from(lane)) {
        Some(lane) => lane.delivered,
        None => 0,
    }
}

// Whether a packet with this own lane and place is among the delivered ones of its lane.
fn is_delivered_by(lanes: &List<LaneList>, own: Option<u8>, place: Option<u32>) -> bool
    ensures { result ≡ is_delivered_by lanes.now own place }
{
    let Some(own) = own else {
        return false;
    };
    match place {
        None => false,
        Some(place) => place <= delivered(lanes, own),
    }
}

impl Case<'_> {
    ghost use Rattle.std.specs.Prelude.{◌≡◌, true};
    ghost use Rattle.std.specs.List.{list_all};
    ghost use Rattle.history.specs.Places.{AreInOnePlace};
    ghost use Rattle.good_check.specs.Cases.{IsPlain};
    ghost use Rattle.good_check.specs.Places.{is_delivered_in};

    // Whether a packet is among the delivered ones of its lane.
    fn is_delivered(&self, id: PacketId) -> bool
        ensures { result ≡ is_delivered_in self.now.h.now.lanes self.now.known.now id }
    {
        is_delivered_by(
            &self.h.lanes,
            self.known.lanes.get(id),
            self.known.accepted.get(id),
        )
    }

    // Whether all packets of an inbox are.
    fn are_delivered(&self, inbox: &List<PacketId>) -> bool
        ensures { result
            ≡ list_all (is_delivered_in self.now.h.now.lanes self.now.known.now) inbox.now }
    {
        inbox.as_slice().iter().all(|id| self.is_delivered(*id))
    }

    // Whether all packets of all inboxes are.
    fn all_are_delivered(&self) -> bool
        ensures { result ≡ list_all (list_all (is_delivered_in self.now.h.now.lanes
            self.now.known.now)) self.now.h.now.inboxes }
    {
        self.h
            .inboxes
            .as_slice()
            .iter()
            .all(|inbox| self.are_delivered(inbox))
    }

    /// Whether each packet is at one place: a part of clause 7.
    pub fn has_places(&self) -> bool
        requires plain { IsPlain self.now }
        ensures yes { result ≡ true → AreInOnePlace self.now.h.now }
        ensures no { AreInOnePlace self.now.h.now → result ≡ true }
    {
        self.all_are_delivered()
    }
}
