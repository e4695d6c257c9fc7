//! A board for some threads, and its seats.
ghost use Rattle.std.specs.Prelude.{◌≡◌, ◌+◌, ◌-◌, ◌<◌, All, IfOk, IfSome, OnOk};
ghost use Rattle.std.specs.Vec.{vec_len};
ghost use Rattle.hop_board.specs.Made.{new_board_seats};
ghost use Rattle.board_tests.specs.Shares.{IsReady};
ghost use Rattle.board_tests.specs.Stands.{IsDone, SeatIsOutside, opened_by};

use crate::notes::Notes;
use crate::rounds::Stuck;
use crate::told::START;
use crate::worker::{PACKETS, Worker};
use board_api::{BoardLists, BoardSeat};
use hop_board::Board;
use hop_model::HopShape;
use std::alloc::Global;
use steer_base::CpuMask;

/// A hop of four lanes and two out lanes, with room for all packets of four threads, of which few
/// may wait. The counters wrap at the first.
pub fn wide_shape(counts: Vec<u32>) -> HopShape
    ensures lanes { result.lanes ≡ 4 }
    ensures outs { result.outs ≡ 2 }
    ensures limit { result.limit ≡ 8 }
    ensures room { result.room ≡ 40000 }
{
    HopShape {
        producers: 4,
        guests: 0,
        lanes: 4,
        outs: 2,
        limit: 8,
        room: 40_000,
        counts,
        exact: false,
        start: START,
        limited: CpuMask(0),
    }
}

/// The last of so many seats that have made no step.
pub fn last_seat(board: &Board, seats: &mut Vec<BoardSeat>, count: u32) -> Option<BoardSeat>
    requires some { 0 < count }
    requires seats { seats.old.items ≡ new_board_seats board.now.table count }
    requires all { vec_len seats.old ≡ count }
    ensures stands { IfSome result (λ s. SeatIsOutside board.now (count - 1) s) }
    ensures opened { IfSome result (λ s. opened_by s ≡ 0) }
    ensures seats { seats.new.items ≡ new_board_seats board.now.table (count - 1) }
    ensures all { vec_len seats.new ≡ count - 1 }
{
    seats.pop()
}

/// A worker that takes the last seat.
pub fn last_worker(
    alloc: Global,
    board: &Board,
    seats: &mut Vec<BoardSeat>,
    number: u8,
    workers: u8,
) -> Result<Worker, Stuck>
    requires within { number < workers }
    requires seats { seats.old.items ≡ new_board_seats board.now.table (number + 1) }
    requires all { vec_len seats.old ≡ number + 1 }
    ensures worker { IfOk result (λ w. IsReady board.now number workers w.seat) }
    ensures number { IfOk result (λ w. w.number ≡ number) }
    ensures workers { IfOk result (λ w. w.workers ≡ workers) }
    ensures seats { OnOk result (seats.new.items ≡ new_board_seats board.now.table number) }
    ensures all { OnOk result (vec_len seats.new ≡ number) }
{
    let Some(seat) = last_seat(board, seats, number as u32 + 1) else {
        return Err(Stuck);
    };
    let notes = Notes::make(alloc, PACKETS as usize)?;
    Ok(Worker {
        number,
        workers,
        seat,
        notes,
    })
}

/// Two workers that take the last two seats, the first of them with this number.
pub fn two_workers(
    alloc: Global,
    board: &Board,
    seats: &mut Vec<BoardSeat>,
    first: u8,
    workers: u8,
) -> Result<(Worker, Worker), Stuck>
    requires within { first + 1 < workers }
    requires seats { seats.old.items ≡ new_board_seats board.now.table (first + 1 + 1) }
    requires all { vec_len seats.old ≡ first + 1 + 1 }
    ensures zero { IfOk result (λ r. IsReady board.now r.0.number r.0.workers r.0.seat) }
    ensures one { IfOk result (λ r. IsReady board.now r.1.number r.1.workers r.1.seat) }
    ensures crew { IfOk result (λ r. (r.0.workers ≡ workers) × (r.1.workers ≡ workers)) }
    ensures seats { OnOk result (seats.new.items ≡ new_board_seats board.now.table first) }
    ensures all { OnOk result (vec_len seats.new ≡ first) }
{
    let one = last_worker(alloc, board, seats, first + 1, workers)?;
    let zero = last_worker(alloc, board, seats, first, workers)?;
    Ok((zero, one))
}

/// One seat more, which is done.
pub fn add_seat(board: &Board, seats: &mut Vec<BoardSeat>, seat: BoardSeat) -> Result<(), Stuck>
    requires seats { All (IsDone board.now) seats.old.items }
    requires seat { IsDone board.now seat }
    ensures seats { OnOk result (All (IsDone board.now) seats.new.items) }
    ensures one_more { OnOk result (vec_len seats.new ≡ vec_len seats.old + 1) }
{
    let Ok(()) = seats.push(seat) else {
        return Err(Stuck);
    };
    Ok(())
}

/// The lists of a board with all of its seats, which are done.
pub fn lists_of(board: Board, seats: Vec<BoardSeat>) -> BoardLists
    requires seats { All (IsDone board) seats.items }
    requires all { vec_len seats ≡ board.sizes.seats }
{
    board.close_board(seats)
}
