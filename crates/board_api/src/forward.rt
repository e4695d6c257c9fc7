//! A board that forwards its calls.
use crate::answers::{CloseAnswer, Emptied, EnterAnswer, Hold, Pull};
use crate::board::Board;
use crate::board_seat::BoardSeat;
use crate::held_lane::{HeldLane, LaneId};
use crate::lists::BoardLists;
use steer_base::{CpuMask, PacketId, Put};

/// Forwards each call to the board in it. It shows that the requirements and the results of the
/// calls are consistent: a layer above a board can itself be a board.
pub struct Forward<B> {
    /// The board that makes the steps.
    pub inner: B,
}

impl<B: Board> Board for Forward<B> {
    ghost view = { λ f. B.view f.inner };

    fn enter(&self, seat: &mut BoardSeat) -> EnterAnswer {
        self.inner.enter(seat)
    }

    fn leave(&self, seat: &mut BoardSeat) {
        self.inner.leave(seat)
    }

    fn setting(&self, seat: &mut BoardSeat, i: u32) -> u64 {
        self.inner.setting(seat, i)
    }

    fn weigh(&self, seat: &mut BoardSeat, lane: u8) -> u32 {
        self.inner.weigh(seat, lane)
    }

    fn tail(&self, seat: &mut BoardSeat, lane: LaneId) -> u32 {
        self.inner.tail(seat, lane)
    }

    fn try_hold(&self, seat: &mut BoardSeat, lane: LaneId) -> Hold {
        self.inner.try_hold(seat, lane)
    }

    fn give_back(&self, seat: &mut BoardSeat, held: HeldLane) {
        self.inner.give_back(seat, held)
    }

    fn put(&self, seat: &mut BoardSeat, held: HeldLane, id: PacketId, hash: Option<u32>) -> Put {
        self.inner.put(seat, held, id, hash)
    }

    fn pull(&self, seat: &mut BoardSeat, held: HeldLane) -> Pull {
        self.inner.pull(seat, held)
    }

    fn deliver(&self, seat: &mut BoardSeat, held: HeldLane, lane: u8) -> u32 {
        self.inner.deliver(seat, held, lane)
    }

    fn read_out(&self, seat: &mut BoardSeat, held: HeldLane, n: u32) -> Option<PacketId> {
        self.inner.read_out(seat, held, n)
    }

    fn retire(&self, seat: &mut BoardSeat, lane: u8) {
        self.inner.retire(seat, lane)
    }

    fn try_close(&self, seat: &mut BoardSeat) -> CloseAnswer {
        self.inner.try_close(seat)
    }

    fn emptied(&self, seat: &mut BoardSeat, lanes: CpuMask) -> Emptied {
        self.inner.emptied(seat, lanes)
    }

    fn set(&self, seat: &mut BoardSeat, i: u32, v: u64) {
        self.inner.set(seat, i, v)
    }

    fn open_gate(&self, seat: &mut BoardSeat) {
        self.inner.open_gate(seat)
    }

    fn close_board(self, seats: Vec<BoardSeat>) -> BoardLists {
        let Forward { inner } = self;
        inner.close_board(seats)
    }
}
