//! The calls of a board, as a trait.
ghost use Rattle.std.specs.Prelude.{◌≡◌, ◌<◌, ◌∷◌, [], length, true, All};
ghost use Rattle.std.specs.Vec.{vec_len};
ghost use Rattle.hop_rule.specs.Boards.{gate_steps};
ghost use Rattle.hop_rule.specs.Gates.{openings};
ghost use Rattle.board_api.specs.Closings.Closings.{HasEnded, IsAtRest};
ghost use Rattle.board_api.specs.Calls.HeldLanes.{FitsLane, HasNoneOf, Holds, HoldsMiddle};
ghost use Rattle.board_api.specs.Calls.HeldLanes.{HoldsOut};
ghost use Rattle.board_api.specs.Calls.HeldLanes.{PullsFrom, room_in};
ghost use Rattle.board_api.specs.Calls.Rights.{HasClosed, HasDelivered, HasOpen, HasPulled};
ghost use Rattle.board_api.specs.Calls.Rights.{IsCloser};
ghost use Rattle.board_api.specs.Calls.Rights.{IsInside, IsOutside, MayRead, Pulls};
ghost use Rattle.board_api.specs.Seats.{Adds};
ghost use Rattle.board_api.specs.Calls.Results.{BackTells, CloseTells, DeliverTells, EmptiedTells};
ghost use Rattle.board_api.specs.Calls.Results.{EnterTells, HoldTells, OpenTells, PullTells};
ghost use Rattle.board_api.specs.Calls.Results.{PutTells};
ghost use Rattle.board_api.specs.Calls.Results.{ReadTells, RetireTells, TailTells, WeighTells};
ghost use Rattle.board_api.specs.Views.{BoardView};
ghost use Rattle.hop_rule.specs.declared.sizes.TheConstants.{MAX_OPENINGS};

use crate::answers::{CloseAnswer, Emptied, EnterAnswer, Hold, Pull};
use crate::board_seat::BoardSeat;
use crate::held_lane::{HeldLane, LaneId};
use crate::lists::BoardLists;
use hop_rule::{BoardStep, GateStep};
use steer_base::{CpuMask, PacketId, Put};

/// Lanes, heads, a gate and settings that threads share without a lock. Each thread has a seat. A
/// call adds its own steps to its seat's list and shows nothing of the other seats; it allocates
/// nothing and does not wait. How the lists of all seats agree is known at the closing.
pub trait Board {
    // The table of its words, and its sizes.
    ghost view: { Self → BoardView };

    /// Begins a visit if the gate is open. If it is closed the visitor backs out in the same call;
    /// the closer never finds it so, since it alone closes it.
    fn enter(&self, seat: &mut BoardSeat) -> EnterAnswer
        requires table { seat.old.table ≡ (view self.now).table }
        requires outside { IsOutside seat.old.steps }
        requires open { HasOpen seat.old.steps }
        ensures step { EnterTells seat.old seat.new result }
        ensures closer { IsCloser (view self.now).sizes seat.old.number → result ≡ EnterAnswer.Ok };

    /// Ends the visit.
    fn leave(&self, seat: &mut BoardSeat)
        requires table { seat.old.table ≡ (view self.now).table }
        requires inside { IsInside seat.old.steps }
        ensures { Adds (BoardStep.Gate GateStep.Left ∷ []) seat.old seat.new };

    /// Reads a setting, by its number from 0.
    fn setting(&self, seat: &mut BoardSeat, i: u32) -> u64
        requires table { seat.old.table ≡ (view self.now).table }
        requires inside { MayRead seat.old.steps }
        requires within { i < length (view self.now).sizes.settings }
        ensures { Adds (BoardStep.Gate (GateStep.Read i result) ∷ []) seat.old seat.new };

    /// Reads the head of a middle lane, a counter number.
    fn weigh(&self, seat: &mut BoardSeat, lane: u8) -> u32
        requires table { seat.old.table ≡ (view self.now).table }
        requires inside { MayRead seat.old.steps }
        requires within { lane < (view self.now).sizes.lanes }
        ensures { WeighTells lane seat.old seat.new result };

    /// Reads the tail of a lane, a counter number: how many packets a middle lane has accepted, or
    /// how many were delivered to an out lane. The lane may be held. A seat that is the only one to
    /// take packets from a lane can so see whether one waits, before it takes the lane.
    fn tail(&self, seat: &mut BoardSeat, lane: LaneId) -> u32
        requires table { seat.old.table ≡ (view self.now).table }
        requires within { FitsLane (view self.now).sizes lane }
        ensures { TailTells lane seat.old seat.new result };

    /// Takes a lane if no seat holds it.
    fn try_hold(&self, seat: &mut BoardSeat, lane: LaneId) -> Hold
        requires table { seat.old.table ≡ (view self.now).table }
        requires within { FitsLane (view self.now).sizes lane }
        ensures { HoldTells (view self.now).sizes lane seat.old seat.new result };

    /// Gives a lane back as it was.
    fn give_back(&self, seat: &mut BoardSeat, held: HeldLane)
        requires table { seat.old.table ≡ (view self.now).table }
        requires held { Holds (view self.now).sizes seat.old.steps held }
        ensures { BackTells (view self.now).sizes held seat.old seat.new };

    /// Offers a packet with its hash to a middle lane, and gives the lane back.
    fn put(&self, seat: &mut BoardSeat, held: HeldLane, id: PacketId, hash: Option<u32>) -> Put
        requires table { seat.old.table ≡ (view self.now).table }
        requires inside { IsInside seat.old.steps }
        requires held { HoldsMiddle (view self.now).sizes seat.old.steps held }
        requires room { 0 < room_in held }
        requires id { id < (view self.now).sizes.room }
        ensures { PutTells held id hash seat.old seat.new result };

    /// Pulls the packet that waits longest in a middle lane, and gives the lane back. The seat has
    /// no packet of this lane in hand, including one that was delivered and not retired.
    fn pull(&self, seat: &mut BoardSeat, held: HeldLane) -> Pull
        requires table { seat.old.table ≡ (view self.now).table }
        requires held { HoldsMiddle (view self.now).sizes seat.old.steps held }
        requires mine { PullsFrom (view self.now).sizes seat.old.number held }
        requires idle { HasNoneOf seat.old.steps held }
        ensures { PullTells (view self.now).sizes held seat.old seat.new result };

    /// Delivers the packet that this seat pulled from the middle lane `lane` to an out lane, gives
    /// the out lane back, and returns the place of the packet there, from 1.
    fn deliver(&self, seat: &mut BoardSeat, held: HeldLane, lane: u8) -> u32
        requires table { seat.old.table ≡ (view self.now).table }
        requires held { HoldsOut (view self.now).sizes seat.old.steps held }
        requires room { 0 < room_in held }
        requires within { lane < (view self.now).sizes.lanes }
        requires mine { Pulls (view self.now).sizes seat.old.number lane }
        requires pulled { HasPulled seat.old.steps lane }
        ensures { DeliverTells (view self.now).sizes held lane seat.old seat.new result };

    /// The packet at index `n` of an out lane, from 0, if it has more than `n` packets. The lane is
    /// given back as it was.
    fn read_out(&self, seat: &mut BoardSeat, held: HeldLane, n: u32) -> Option<PacketId>
        requires table { seat.old.table ≡ (view self.now).table }
        requires held { HoldsOut (view self.now).sizes seat.old.steps held }
        ensures step { BackTells (view self.now).sizes held seat.old seat.new }
        ensures packet { ReadTells (view self.now).sizes held n result };

    /// Raises the head of a middle lane by 1, after this seat delivered a packet of it.
    fn retire(&self, seat: &mut BoardSeat, lane: u8)
        requires table { seat.old.table ≡ (view self.now).table }
        requires within { lane < (view self.now).sizes.lanes }
        requires mine { Pulls (view self.now).sizes seat.old.number lane }
        requires delivered { HasDelivered seat.old.steps lane }
        ensures { RetireTells lane seat.old seat.new };

    /// Closes the gate if no visit is open, counting those that found a closed gate and have not
    /// backed out yet.
    fn try_close(&self, seat: &mut BoardSeat) -> CloseAnswer
        requires table { seat.old.table ≡ (view self.now).table }
        requires closer { IsCloser (view self.now).sizes seat.old.number }
        requires outside { IsOutside seat.old.steps }
        requires open { HasOpen seat.old.steps }
        requires few { openings (gate_steps seat.old.steps) < MAX_OPENINGS }
        ensures { CloseTells (view self.now).sizes seat.old seat.new result };

    /// Looks at the middle lanes of a set, ascending, up to the first that is not empty. Numbers
    /// that are not those of a lane are skipped.
    fn emptied(&self, seat: &mut BoardSeat, lanes: CpuMask) -> Emptied
        requires table { seat.old.table ≡ (view self.now).table }
        requires closer { IsCloser (view self.now).sizes seat.old.number }
        requires closed { HasClosed seat.old.steps }
        ensures { EmptiedTells (view self.now).sizes lanes seat.old seat.new result };

    /// Changes a setting, if lanes were found empty since the gate was closed.
    fn set(&self, seat: &mut BoardSeat, i: u32, v: u64)
        requires table { seat.old.table ≡ (view self.now).table }
        requires closer { IsCloser (view self.now).sizes seat.old.number }
        requires closed { HasClosed seat.old.steps }
        requires emptied { seat.old.has_emptied ≡ true }
        requires within { i < length (view self.now).sizes.settings }
        ensures { Adds (BoardStep.Gate (GateStep.Set i v) ∷ []) seat.old seat.new };

    /// Opens the gate.
    fn open_gate(&self, seat: &mut BoardSeat)
        requires table { seat.old.table ≡ (view self.now).table }
        requires closer { IsCloser (view self.now).sizes seat.old.number }
        requires closed { HasClosed seat.old.steps }
        ensures { OpenTells seat.old seat.new };

    /// Ends the board with all of its seats, each outside, with no lane held and no packet in hand,
    /// and returns the lists of its lanes.
    fn close_board(self, seats: Vec<BoardSeat>) -> BoardLists
        requires table { All (λ s. s.table ≡ (view self).table) seats.items }
        requires all { vec_len seats ≡ (view self).sizes.seats }
        requires rest { All (λ s. IsAtRest (view self).sizes s.steps) seats.items }
        ensures { HasEnded (view self).sizes seats.items result };
}
