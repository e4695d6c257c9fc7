//! Putting packets to lanes, pulling, delivering and retiring them.
ghost use Rattle.std.specs.Prelude.{◌≡◌, ◌<◌, ◌∷◌};
ghost use Rattle.board_api.specs.Calls.HeldLanes.{HasNoneOf, HoldsMiddle, HoldsOut, PullsFrom};
ghost use Rattle.board_api.specs.Calls.HeldLanes.{room_in};
ghost use Rattle.board_api.specs.Calls.Rights.{HasDelivered, HasPulled, IsInside, Pulls};
ghost use Rattle.board_api.specs.Calls.Results.{DeliverTells, PullTells, PutTells, RetireTells};

use crate::board::{Board, WordSeat};
use crate::places::Word;
use crate::release::Release;
use board_api::{BoardSeat, HeldLane, LaneId, Pull};
use hop_rule::{BoardStep, LaneStep, Slot};
use std::marker::Brand;
use steer_base::{PacketId, Put};

impl Board {
    /// Offers a packet with its hash to a middle lane, and gives the lane back.
    pub fn put(&self, seat: &mut BoardSeat, held: HeldLane, id: PacketId, hash: Option<u32>) -> Put
        requires table { seat.old.table ≡ self.now.table }
        requires inside { IsInside seat.old.steps }
        requires held { HoldsMiddle self.now.sizes seat.old.steps held }
        requires room { 0 < room_in held }
        requires id { id < self.now.sizes.room }
        ensures { PutTells held id hash seat.old seat.new result }
    {
        match held {
            HeldLane::Middle(lane, mut content) => {
                let answer = content.put(id, hash);
                let release = Release::Offered {
                    lane,
                    id,
                    hash,
                    answer,
                };
                self.give(&mut seat.seat, release, Slot::Middle(content));
                answer
            }
            HeldLane::Out(_, _) => unreachable!(),
        }
    }

    /// Pulls the packet that waits longest in a middle lane, and gives the lane back. The seat has
    /// no packet of this lane in hand, including one that was delivered and not retired.
    pub fn pull(&self, seat: &mut BoardSeat, held: HeldLane) -> Pull
        requires table { seat.old.table ≡ self.now.table }
        requires held { HoldsMiddle self.now.sizes seat.old.steps held }
        requires mine { PullsFrom self.now.sizes seat.old.number held }
        requires idle { HasNoneOf seat.old.steps held }
        ensures { PullTells self.now.sizes held seat.old seat.new result }
    {
        self.fits();
        match held {
            HeldLane::Middle(lane, mut content) => match content.take() {
                Some(id) => {
                    let release = Release::Pulled { lane, id };
                    self.give(&mut seat.seat, release, Slot::Middle(content));
                    seat.pulled[lane as usize] = id.0;
                    Pull::Took(id)
                }
                None => {
                    let release = Release::Unchanged(LaneId::Middle(lane));
                    self.give(&mut seat.seat, release, Slot::Middle(content));
                    Pull::Empty
                }
            },
            HeldLane::Out(_, _) => unreachable!(),
        }
    }

    /// Delivers the packet that this seat pulled from the middle lane `lane` to an out lane, gives
    /// the out lane back, and returns the place of the packet there, from 1.
    pub fn deliver(&self, seat: &mut BoardSeat, held: HeldLane, lane: u8) -> u32
        requires table { seat.old.table ≡ self.now.table }
        requires held { HoldsOut self.now.sizes seat.old.steps held }
        requires room { 0 < room_in held }
        requires within { lane < self.now.sizes.lanes }
        requires mine { Pulls self.now.sizes seat.old.number lane }
        requires pulled { HasPulled seat.old.steps lane }
        ensures { DeliverTells self.now.sizes held lane seat.old seat.new result }
    {
        self.fits();
        match held {
            HeldLane::Out(out, mut content) => {
                let id = PacketId(seat.pulled[lane as usize]);
                content.push(id);
                let place = content.len();
                let release = Release::Given {
                    out,
                    from: lane,
                    id,
                    place,
                };
                self.give(&mut seat.seat, release, Slot::Out(content));
                place
            }
            HeldLane::Middle(_, _) => unreachable!(),
        }
    }

    /// Raises the head of a middle lane by 1, after this seat delivered a packet of it.
    pub fn retire(&self, seat: &mut BoardSeat, lane: u8)
        requires table { seat.old.table ≡ self.now.table }
        requires within { lane < self.now.sizes.lanes }
        requires mine { Pulls self.now.sizes seat.old.number lane }
        requires delivered { HasDelivered seat.old.steps lane }
        ensures { RetireTells lane seat.old seat.new }
    {
        self.raise_head(&mut seat.seat, lane);
    }

    // Adds 1 to the word of a head, and returns it as it was.
    fn raise_head(&self, seat: &mut WordSeat, lane: u8) -> u64
        requires table { seat.old.table ≡ self.now.table }
        requires within { lane < self.now.sizes.lanes }
        requires mine { Pulls self.now.sizes seat.old.number lane }
        requires delivered { HasDelivered seat.old.steps lane }
        ensures { seat.new ≡ record seat.old {
          steps = BoardStep.Lane (LaneStep.Retired lane result) ∷ seat.old.steps;
        } }
    {
        self.add_as::<Brand>(seat, Word::Head(lane), 1)
    }
}
