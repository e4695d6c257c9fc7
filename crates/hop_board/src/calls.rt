//! The board of atomic words implements the trait of `board_api`.
use crate::board::Board;
use board_api::{
    Board as Calls, BoardLists, BoardSeat, CloseAnswer, Emptied, EnterAnswer, HeldLane, Hold,
    LaneId, Pull,
};
use steer_base::{CpuMask, PacketId, Put};

impl Calls for Board {
    ghost view = { λ b. b };

    fn enter(&self, seat: &mut BoardSeat) -> EnterAnswer {
        self.enter(seat)
    }

    fn leave(&self, seat: &mut BoardSeat) {
        self.leave(seat)
    }

    fn setting(&self, seat: &mut BoardSeat, i: u32) -> u64 {
        self.setting(seat, i)
    }

    fn weigh(&self, seat: &mut BoardSeat, lane: u8) -> u32 {
        self.weigh(seat, lane)
    }

    fn tail(&self, seat: &mut BoardSeat, lane: LaneId) -> u32 {
        self.tail(seat, lane)
    }

    fn try_hold(&self, seat: &mut BoardSeat, lane: LaneId) -> Hold {
        self.try_hold(seat, lane)
    }

    fn give_back(&self, seat: &mut BoardSeat, held: HeldLane) {
        self.give_back(seat, held)
    }

    fn put(&self, seat: &mut BoardSeat, held: HeldLane, id: PacketId, hash: Option<u32>) -> Put {
        self.put(seat, held, id, hash)
    }

    fn pull(&self, seat: &mut BoardSeat, held: HeldLane) -> Pull {
        self.pull(seat, held)
    }

    fn deliver(&self, seat: &mut BoardSeat, held: HeldLane, lane: u8) -> u32 {
        self.deliver(seat, held, lane)
    }

    fn read_out(&self, seat: &mut BoardSeat, held: HeldLane, n: u32) -> Option<PacketId> {
        self.read_out(seat, held, n)
    }

    fn retire(&self, seat: &mut BoardSeat, lane: u8) {
        self.retire(seat, lane)
    }

    fn try_close(&self, seat: &mut BoardSeat) -> CloseAnswer {
        self.try_close(seat)
    }

    fn emptied(&self, seat: &mut BoardSeat, lanes: CpuMask) -> Emptied {
        self.emptied(seat, lanes)
    }

    fn set(&self, seat: &mut BoardSeat, i: u32, v: u64) {
        self.set(seat, i, v)
    }

    fn open_gate(&self, seat: &mut BoardSeat) {
        self.open_gate(seat)
    }

    fn close_board(self, seats: Vec<BoardSeat>) -> BoardLists {
        self.close_board(seats)
    }
}
