//! Taking a lane, and giving it back as it was.
ghost use Rattle.std.specs.Prelude.{◌≡◌};
ghost use Rattle.board_api.specs.Calls.HeldLanes.{FitsLane, Holds, HoldsOut};
ghost use Rattle.board_api.specs.Calls.Results.{BackTells, HoldTells, ReadTells, TailTells};
ghost use Rattle.hop_board.specs.Named.{content_of, held_by, held_lane_id};

use crate::board::Board;
use crate::places::Word;
use crate::release::Release;
use board_api::{BoardSeat, HeldLane, Hold, LaneId, LaneWord};
use hop_rule::Slot;
use steer_base::PacketId;

impl Board {
    /// Reads the tail of a lane, a counter number: how many packets a middle lane has accepted, or
    /// how many were delivered to an out lane. The lane may be held.
    pub fn tail(&self, seat: &mut BoardSeat, lane: LaneId) -> u32
        requires table { seat.old.table ≡ self.now.table }
        requires within { FitsLane self.now.sizes lane }
        ensures { TailTells lane seat.old seat.new result }
    {
        LaneWord(self.load(&mut seat.seat, Word::Lane(lane))).tail()
    }

    /// Takes a lane if no seat holds it.
    pub fn try_hold(&self, seat: &mut BoardSeat, lane: LaneId) -> Hold
        requires table { seat.old.table ≡ self.now.table }
        requires within { FitsLane self.now.sizes lane }
        ensures { HoldTells self.now.sizes lane seat.old seat.new result }
    {
        match self.take(&mut seat.seat, lane) {
            Ok(found) => Hold::Ok(held_by(lane, found)),
            Err(word) => Hold::Held { word },
        }
    }

    /// Gives a lane back as it was.
    pub fn give_back(&self, seat: &mut BoardSeat, held: HeldLane)
        requires table { seat.old.table ≡ self.now.table }
        requires held { Holds self.now.sizes seat.old.steps held }
        ensures { BackTells self.now.sizes held seat.old seat.new }
    {
        let (lane, content) = parts(held);
        self.give(&mut seat.seat, Release::Unchanged(lane), content);
    }

    /// The packet at index `n` of an out lane, from 0, if it has more than `n` packets. The lane is
    /// given back as it was.
    pub fn read_out(&self, seat: &mut BoardSeat, held: HeldLane, n: u32) -> Option<PacketId>
        requires table { seat.old.table ≡ self.now.table }
        requires held { HoldsOut self.now.sizes seat.old.steps held }
        ensures step { BackTells self.now.sizes held seat.old seat.new }
        ensures packet { ReadTells self.now.sizes held n result }
    {
        match held {
            HeldLane::Out(out, content) => {
                let packet = content.get(n);
                let release = Release::Unchanged(LaneId::Out(out));
                self.give(&mut seat.seat, release, Slot::Out(content));
                packet
            }
            HeldLane::Middle(_, _) => unreachable!(),
        }
    }
}

// The held lane with what was found in its slot.
fn held_by(lane: LaneId, found: Slot) -> HeldLane
    ensures { result ≡ held_by lane found }
{
    let number = match lane {
        LaneId::Middle(number) => number,
        LaneId::Out(number) => number,
    };
    match found {
        Slot::Middle(content) => HeldLane::Middle(number, content),
        Slot::Out(content) => HeldLane::Out(number, content),
    }
}

// The identifier of a held lane, and what was found in its slot.
fn parts(held: HeldLane) -> (LaneId, Slot)
    ensures lane { result.0 ≡ held_lane_id held }
    ensures content { result.1 ≡ content_of held }
{
    match held {
        HeldLane::Middle(lane, content) => (LaneId::Middle(lane), Slot::Middle(content)),
        HeldLane::Out(out, content) => (LaneId::Out(out), Slot::Out(content)),
    }
}
