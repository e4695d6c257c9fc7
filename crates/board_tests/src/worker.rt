//! A thread that puts packets to all lanes, and serves its own.
ghost use Rattle.std.specs.Prelude.{◌≡◌, ◌<◌, ◌≤◌, IfOk, IfSome, length};
ghost use Rattle.board_api.specs.Calls.Rights.{Pulls};
ghost use Rattle.board_tests.specs.Stands.{IsDone, SeatIsOutside};
ghost use Rattle.board_tests.specs.Shares.{IsReady, IsWide};

use crate::notes::{Gift, Notes, Offer, Reading};
use crate::rounds::{Stuck, serve, visit};
use board_api::{Board, BoardSeat};
use steer_base::PacketId;

/// How many packets each thread has.
pub const PACKETS: u32 = 10_000;

/// The lanes of the board.
const LANES: u8 = 4;

/// How often a thread offers one packet before it gives that packet up.
const OFFERS: u32 = 1 << 20;

/// A thread with its number among the workers, its seat and its notes.
#[derive(Drop)]
pub struct Worker {
    pub number: u8,
    pub workers: u8,
    pub seat: BoardSeat,
    pub notes: Notes,
}

/// Puts all packets of the thread, and serves its lanes after each.
pub fn work<B: Board>(board: &B, worker: Worker) -> Result<Worker, Stuck>
    requires wide { IsWide (B.view board.now).sizes worker.workers }
    requires ready { IsReady (B.view board.now) worker.number worker.workers worker.seat }
    ensures { IfOk result (λ w. IsDone (B.view board.now) w.seat) }
{
    let Worker {
        number,
        workers,
        mut seat,
        mut notes,
    } = worker;
    for round in 0..PACKETS {
        let id = PacketId(PACKETS * number as u32 + round);
        let lane = (round + number as u32) % 4;
        offer_soon(board, &mut seat, lane as u8, id, &mut notes)?;
        serve_all(
            board,
            &mut seat,
            number,
            workers,
            (round % 2) as u8,
            &mut notes,
        )?;
    }
    Ok(Worker {
        number,
        workers,
        seat,
        notes,
    })
}

// Offers a packet as soon as the gate is open and the lane is free.
fn offer_soon<B: Board>(
    board: &B,
    seat: &mut BoardSeat,
    lane: u8,
    id: PacketId,
    notes: &mut Notes,
) -> Result<(), Stuck>
    requires lane { lane < (B.view board.now).sizes.lanes }
    requires id { id < (B.view board.now).sizes.room }
    requires setting { 0 < length (B.view board.now).sizes.settings }
    requires stands { SeatIsOutside (B.view board.now) seat.old.number seat.old }
    ensures { IfOk result (λ _. SeatIsOutside (B.view board.now) seat.old.number seat.new) }
{
    for _ in 0..OFFERS {
        if offer_once(board, seat, lane, id, notes)? {
            return Ok(());
        }
    }
    Ok(())
}

// Offers it once. Answers whether the lane took it or dropped it.
fn offer_once<B: Board>(
    board: &B,
    seat: &mut BoardSeat,
    lane: u8,
    id: PacketId,
    notes: &mut Notes,
) -> Result<bool, Stuck>
    requires lane { lane < (B.view board.now).sizes.lanes }
    requires id { id < (B.view board.now).sizes.room }
    requires setting { 0 < length (B.view board.now).sizes.settings }
    requires stands { SeatIsOutside (B.view board.now) seat.old.number seat.old }
    ensures { IfOk result (λ _. SeatIsOutside (B.view board.now) seat.old.number seat.new) }
{
    let Some(seen) = visit(board, seat, lane, id) else {
        return Ok(false);
    };
    let Some(answer) = seen.answer else {
        return Ok(false);
    };
    let reading = Reading {
        lane,
        setting: seen.setting,
        head: seen.head,
    };
    notes.offered(reading, Offer { lane, id, answer })?;
    Ok(true)
}

// Serves each lane of the seat twice.
fn serve_all<B: Board>(
    board: &B,
    seat: &mut BoardSeat,
    number: u8,
    workers: u8,
    out: u8,
    notes: &mut Notes,
) -> Result<(), Stuck>
    requires wide { IsWide (B.view board.now).sizes workers }
    requires out { out < 2 }
    requires stands { SeatIsOutside (B.view board.now) number seat.old }
    ensures { IfOk result (λ _. SeatIsOutside (B.view board.now) number seat.new) }
{
    for turn in 0..2 * LANES {
        let lane = turn % LANES;
        if lane % workers == number {
            serve_one(board, seat, lane, out, notes)?;
        }
    }
    Ok(())
}

// Serves a lane once.
fn serve_one<B: Board>(
    board: &B,
    seat: &mut BoardSeat,
    lane: u8,
    out: u8,
    notes: &mut Notes,
) -> Result<(), Stuck>
    requires lane { lane < (B.view board.now).sizes.lanes }
    requires out { out < (B.view board.now).sizes.outs }
    requires mine { Pulls (B.view board.now).sizes seat.old.number lane }
    requires stands { SeatIsOutside (B.view board.now) seat.old.number seat.old }
    ensures { IfOk result (λ _. SeatIsOutside (B.view board.now) seat.old.number seat.new) }
{
    if let Some((id, place)) = serve(board, seat, lane, out)? {
        notes.given(Gift {
            lane,
            out,
            id,
            place,
        })?;
    }
    Ok(())
}
