//! The numbers of a history are within the types of its fields.
ghost use Rattle.std.specs.Prelude.{◌<◌, ◌^◌};
ghost use Rattle.std.specs.List.{All};
ghost use Rattle.history.specs.Ranges.{ArrivalFits, ChosenFits, CommandedFits, DropFits, FitsIn};
ghost use Rattle.history.specs.Ranges.{HistoryFits, LaneFits, SentFits, WriteFits};

use crate::arrival::Arrival;
use crate::commanded::Commanded;
use crate::history::History;
use crate::lane_list::LaneList;
use crate::sent::Sent;
use crate::sock_write::SockWrite;
use steer_base::{Chosen, LaneDrop, List, PacketId};

// A value whose numbers are bounded by their types.
trait Typed: Copy {
    ghost fits: { Self → Type 0 };

    // Lemma (no code): the numbers of the value are within their types.
    fn tell(self)
        ensures { fits self };
}

impl Typed for u32 {
    ghost fits = { λ n. n < 2 ^ 32 };

    fn tell(self) {}
}

impl Typed for Option<u32> {
    ghost fits = { FitsIn 32 };

    fn tell(self) {}
}

impl Typed for PacketId {
    ghost fits = { λ n. n < 2 ^ 32 };

    fn tell(self) {}
}

impl Typed for Arrival {
    ghost fits = { ArrivalFits };

    fn tell(self) {}
}

impl Typed for Chosen {
    ghost fits = { ChosenFits };

    fn tell(self) {}
}

impl Typed for LaneDrop {
    ghost fits = { DropFits };

    fn tell(self) {}
}

impl Typed for Sent {
    ghost fits = { SentFits };

    fn tell(self) {}
}

impl Typed for SockWrite {
    ghost fits = { WriteFits };

    fn tell(self) {}
}

impl Typed for Commanded {
    ghost fits = { CommandedFits };

    fn tell(self) {}
}

// Lemma: the numbers in a list are within their types.
fn tell_each<T: Typed>(list: &List<T>)
    ensures { All T.fits list.now }
{
    for item in list.as_slice() {
        item.tell();
    }
}

// Lemma: the numbers in a list of lists are within their types.
fn tell_lists<T: Typed>(lists: &List<List<T>>)
    ensures { All (All T.fits) lists.now }
{
    for list in lists.as_slice() {
        tell_each(list);
    }
}

// Lemma: the numbers of a lane are within their types.
fn tell_lane(lane: &LaneList)
    ensures { LaneFits lane.now }
{
    tell_each(&lane.accepted);
    tell_each(&lane.drops);
    lane.pulled.tell();
    lane.delivered.tell();
    lane.retired.tell();
}

fn tell_lanes(lanes: &List<LaneList>)
    ensures { All LaneFits lanes.now }
{
    for lane in lanes.as_slice() {
        tell_lane(lane);
    }
}

impl History {
    /// Lemma: the numbers of a history are within the types of its fields, as they are in every
    /// history that a program holds. It changes nothing and walks each list once; code never needs
    /// to call it.
    pub fn numbers_fit(&self)
        ensures { HistoryFits self.now }
    {
        self.total.tell();
        self.cut.tell();
        tell_each(&self.arrivals);
        tell_each(&self.taken);
        tell_lists(&self.choices);
        tell_lanes(&self.lanes);
        tell_lists(&self.inboxes);
        tell_lists(&self.sent);
        tell_lists(&self.tx_choices);
        tell_lanes(&self.tx_lanes);
        tell_each(&self.port);
        tell_lists(&self.writes);
        tell_each(&self.commands);
        self.start.tell();
    }
}
