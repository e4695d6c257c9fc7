//! What the thread of the gate does.
ghost use Rattle.std.specs.Prelude.{◌≡◌, ◌<◌, ◌≤◌, ◌+◌, length, false, true};
ghost use Rattle.board_api.specs.Calls.Rights.{IsCloser};
ghost use Rattle.board_tests.specs.Stands.{IsBehind, SeatIsOutside, opened_by};
ghost use Rattle.hop_rule.specs.declared.sizes.TheConstants.{MAX_OPENINGS};

use board_api::{Board, BoardSeat, CloseAnswer, Emptied, EnterAnswer};
use steer_base::CpuMask;

/// How often the gate is closed, or found with somebody inside.
const ROUNDS: u64 = 1_000_000;

/// Closes the gate many times, and changes the setting to numbers that rise. Answers the last one.
pub fn change_often<B: Board>(board: &B, seat: &mut BoardSeat) -> u64
    requires closer { IsCloser (B.view board.now).sizes seat.old.number }
    requires setting { 0 < length (B.view board.now).sizes.settings }
    requires few { opened_by seat.old ≡ 0 }
    requires stands { SeatIsOutside (B.view board.now) seat.old.number seat.old }
    ensures { SeatIsOutside (B.view board.now) seat.old.number seat.new }
{
    let mut last = 0;
    for round in 0..ROUNDS {
        let lanes = if round % 2 == 0 {
            CpuMask(5)
        } else {
            CpuMask(10)
        };
        if change(board, seat, lanes, round + 1) {
            last = round + 1;
        }
    }
    last
}

/// Closes the gate, changes a setting if these lanes are empty, and opens. Answers whether it was
/// changed.
pub fn change<B: Board>(board: &B, seat: &mut BoardSeat, lanes: CpuMask, value: u64) -> bool
    requires closer { IsCloser (B.view board.now).sizes seat.old.number }
    requires setting { 0 < length (B.view board.now).sizes.settings }
    requires few { opened_by seat.old < MAX_OPENINGS }
    requires stands { SeatIsOutside (B.view board.now) seat.old.number seat.old }
    ensures stands { SeatIsOutside (B.view board.now) seat.old.number seat.new }
    ensures few { opened_by seat.new ≤ opened_by seat.old + 1 }
{
    if !close(board, seat) {
        return false;
    }
    let has_changed = change_behind(board, seat, lanes, value);
    board.open_gate(seat);
    has_changed
}

/// One visit of the thread of the gate, with its number.
pub fn look_in<B: Board>(board: &B, seat: &mut BoardSeat) -> u32
    requires closer { IsCloser (B.view board.now).sizes seat.old.number }
    requires stands { SeatIsOutside (B.view board.now) seat.old.number seat.old }
    ensures { SeatIsOutside (B.view board.now) seat.old.number seat.new }
{
    match board.enter(seat) {
        EnterAnswer::Ok => {}
        EnterAnswer::Closed { word: _ } => unreachable!(),
    }
    let number = seat.visit_number();
    board.leave(seat);
    number
}

// Closes the gate, if nobody is inside.
fn close<B: Board>(board: &B, seat: &mut BoardSeat) -> bool
    requires closer { IsCloser (B.view board.now).sizes seat.old.number }
    requires few { opened_by seat.old < MAX_OPENINGS }
    requires stands { SeatIsOutside (B.view board.now) seat.old.number seat.old }
    ensures closed { result ≡ true → IsBehind (B.view board.now) seat.old.number seat.new }
    ensures open { result ≡ false → SeatIsOutside (B.view board.now) seat.old.number seat.new }
    ensures few { opened_by seat.new ≡ opened_by seat.old }
{
    match board.try_close(seat) {
        CloseAnswer::Ok => true,
        CloseAnswer::Inside { n: _ } => false,
    }
}

// Changes the setting behind the closed gate, if these lanes are empty.
fn change_behind<B: Board>(board: &B, seat: &mut BoardSeat, lanes: CpuMask, value: u64) -> bool
    requires closer { IsCloser (B.view board.now).sizes seat.old.number }
    requires setting { 0 < length (B.view board.now).sizes.settings }
    requires stands { IsBehind (B.view board.now) seat.old.number seat.old }
    ensures stands { IsBehind (B.view board.now) seat.old.number seat.new }
    ensures few { opened_by seat.new ≡ opened_by seat.old }
{
    match board.emptied(seat, lanes) {
        Emptied::Ok => {}
        Emptied::NotEmpty {
            lane: _,
            head: _,
            tail: _,
        } => return false,
    }
    board.set(seat, 0, value);
    true
}
