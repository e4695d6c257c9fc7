//! Threads that put, pull, deliver and retire beside each other, while one more closes and opens
//! the gate.
ghost use Rattle.std.specs.Prelude.{◌≡◌, ◌+◌, All, IfOk, OnOk};
ghost use Rattle.std.specs.Thread.{IsSync};
ghost use Rattle.std.specs.Vec.{vec_len};
ghost use Rattle.board_tests.specs.Shares.{MayKeep, MayWork};
ghost use Rattle.board_tests.specs.Stands.{IsDone};

use crate::closer::change_often;
use crate::crew::{add_seat, last_seat, lists_of, two_workers, wide_shape};
use crate::equal::same;
use crate::notes::Notes;
use crate::rounds::Stuck;
use crate::told::{
    gifts_stand, given_to, heads_rise, lane_was_served, offers_stand, put_to, settings_rise,
};
use crate::worker::{Worker, work};
use board_api::{BoardLists, BoardSeat};
use hop_board::Board;
use std::process::Abort;
use std::test::Fail;
use std::thread::{Threads, join};
use steer_base::OutOfMemory;

/// The seat of the gate's thread when it has ended, and the last setting that it made.
type Kept = (BoardSeat, u64);

// The thread of the gate.
fn keep_gate(board: &Board, mut seat: BoardSeat) -> Kept
    requires { MayKeep board.now seat }
    ensures { IsDone board.now result.0 }
{
    let last = change_often(board, &mut seat);
    (seat, last)
}

/// Two workers that are done.
type Pair = (Result<Worker, Stuck>, Result<Worker, Stuck>);

// Two workers beside each other.
fn run_two<R: Threads + Sync>(rt: &R, board: &Board, zero: Worker, one: Worker) -> Pair
    requires zero { MayWork board.now zero.number zero.workers zero.seat }
    requires one { MayWork board.now one.number one.workers one.seat }
    ensures zero { IfOk result.0 (λ w. IsDone board.now w.seat) }
    ensures one { IfOk result.1 (λ w. IsDone board.now w.seat) }
{
    join(
        rt,
        || -> Result<Worker, Stuck>
            requires { MayWork board.now zero.number zero.workers zero.seat }
            ensures { IfOk result (λ w. IsDone board.entry.now w.seat) }
        { work(board, zero) },
        || -> Result<Worker, Stuck>
            requires { MayWork board.now one.number one.workers one.seat }
            ensures { IfOk result (λ w. IsDone board.entry.now w.seat) }
        { work(board, one) },
    )
}

// Four workers beside each other.
fn run_four<R: Threads + Sync>(
    rt: &R,
    board: &Board,
    zero: Worker,
    one: Worker,
    two: Worker,
    three: Worker,
) -> (Pair, Pair)
    requires zero { MayWork board.now zero.number zero.workers zero.seat }
    requires one { MayWork board.now one.number one.workers one.seat }
    requires two { MayWork board.now two.number two.workers two.seat }
    requires three { MayWork board.now three.number three.workers three.seat }
    ensures zero { IfOk result.0.0 (λ w. IsDone board.now w.seat) }
    ensures one { IfOk result.0.1 (λ w. IsDone board.now w.seat) }
    ensures two { IfOk result.1.0 (λ w. IsDone board.now w.seat) }
    ensures three { IfOk result.1.1 (λ w. IsDone board.now w.seat) }
{
    join(
        rt,
        || -> Pair
            requires { IsSync R.row × MayWork board.now zero.number zero.workers zero.seat
                × MayWork board.now one.number one.workers one.seat }
            ensures { IfOk result.0 (λ w. IsDone board.entry.now w.seat)
                × IfOk result.1 (λ w. IsDone board.entry.now w.seat) }
        { run_two(rt, board, zero, one) },
        || -> Pair
            requires { IsSync R.row × MayWork board.now two.number two.workers two.seat
                × MayWork board.now three.number three.workers three.seat }
            ensures { IfOk result.0 (λ w. IsDone board.entry.now w.seat)
                × IfOk result.1 (λ w. IsDone board.entry.now w.seat) }
        { run_two(rt, board, two, three) },
    )
}

// Two workers beside the thread of the gate.
fn gate_and_two<R: Threads + Sync>(
    rt: &R,
    board: &Board,
    gate: BoardSeat,
    zero: Worker,
    one: Worker,
) -> (Kept, Pair)
    requires gate { MayKeep board.now gate }
    requires zero { MayWork board.now zero.number zero.workers zero.seat }
    requires one { MayWork board.now one.number one.workers one.seat }
    ensures gate { IsDone board.now result.0.0 }
    ensures zero { IfOk result.1.0 (λ w. IsDone board.now w.seat) }
    ensures one { IfOk result.1.1 (λ w. IsDone board.now w.seat) }
{
    join(
        rt,
        || -> Kept
            requires { MayKeep board.now gate }
            ensures { IsDone board.entry.now result.0 }
        { keep_gate(board, gate) },
        || -> Pair
            requires { IsSync R.row × MayWork board.now zero.number zero.workers zero.seat
                × MayWork board.now one.number one.workers one.seat }
            ensures { IfOk result.0 (λ w. IsDone board.entry.now w.seat)
                × IfOk result.1 (λ w. IsDone board.entry.now w.seat) }
        { run_two(rt, board, zero, one) },
    )
}

// Four workers beside it.
fn gate_and_four<R: Threads + Sync>(
    rt: &R,
    board: &Board,
    gate: BoardSeat,
    zero: Worker,
    one: Worker,
    two: Worker,
    three: Worker,
) -> (Kept, (Pair, Pair))
    requires gate { MayKeep board.now gate }
    requires zero { MayWork board.now zero.number zero.workers zero.seat }
    requires one { MayWork board.now one.number one.workers one.seat }
    requires two { MayWork board.now two.number two.workers two.seat }
    requires three { MayWork board.now three.number three.workers three.seat }
    ensures gate { IsDone board.now result.0.0 }
    ensures zero { IfOk result.1.0.0 (λ w. IsDone board.now w.seat) }
    ensures one { IfOk result.1.0.1 (λ w. IsDone board.now w.seat) }
    ensures two { IfOk result.1.1.0 (λ w. IsDone board.now w.seat) }
    ensures three { IfOk result.1.1.1 (λ w. IsDone board.now w.seat) }
{
    join(
        rt,
        || -> Kept
            requires { MayKeep board.now gate }
            ensures { IsDone board.entry.now result.0 }
        { keep_gate(board, gate) },
        || -> (Pair, Pair)
            requires { IsSync R.row × MayWork board.now zero.number zero.workers zero.seat
                × MayWork board.now one.number one.workers one.seat
                × MayWork board.now two.number two.workers two.seat
                × MayWork board.now three.number three.workers three.seat }
            ensures { IfOk result.0.0 (λ w. IsDone board.entry.now w.seat)
                × IfOk result.0.1 (λ w. IsDone board.entry.now w.seat)
                × IfOk result.1.0 (λ w. IsDone board.entry.now w.seat)
                × IfOk result.1.1 (λ w. IsDone board.entry.now w.seat) }
        { run_four(rt, board, zero, one, two, three) },
    )
}

// The seat and the notes of a worker that is done.
fn collect(
    board: &Board,
    seats: &mut Vec<BoardSeat>,
    notes: &mut Vec<Notes>,
    worker: Result<Worker, Stuck>,
) -> Result<(), Stuck>
    requires seats { All (IsDone board.now) seats.old.items }
    requires worker { IfOk worker (λ w. IsDone board.now w.seat) }
    ensures seats { OnOk result (All (IsDone board.now) seats.new.items) }
    ensures one_more { OnOk result (vec_len seats.new ≡ vec_len seats.old + 1) }
{
    let Worker {
        number: _,
        workers: _,
        seat,
        notes: own,
    } = worker?;
    add_notes(notes, own)?;
    add_seat(board, seats, seat)
}

// Those of two workers.
fn collect_two(
    board: &Board,
    seats: &mut Vec<BoardSeat>,
    notes: &mut Vec<Notes>,
    pair: Pair,
) -> Result<(), Stuck>
    requires seats { All (IsDone board.now) seats.old.items }
    requires zero { IfOk pair.0 (λ w. IsDone board.now w.seat) }
    requires one { IfOk pair.1 (λ w. IsDone board.now w.seat) }
    ensures seats { OnOk result (All (IsDone board.now) seats.new.items) }
    ensures two_more { OnOk result (vec_len seats.new ≡ vec_len seats.old + 2) }
{
    let (zero, one) = pair;
    collect(board, seats, notes, zero)?;
    collect(board, seats, notes, one)
}

fn add_notes(notes: &mut Vec<Notes>, own: Notes) -> Result<(), OutOfMemory> {
    notes.push(own)?;
    Ok(())
}

// Holds all notes against the lists, of which `last` is the last setting that was made.
fn agree(rt: &impl Abort, lists: &BoardLists, notes: &[Notes], last: u64) {
    for own in notes {
        assert!(rt; offers_stand(own, lists));
        assert!(rt; gifts_stand(own, lists));
        assert!(rt; settings_rise(own, last));
    }
    for number in 0..4u8 {
        lane_agrees(rt, lists, notes, number);
    }
    for out in 0..2u8 {
        let given = given_to(notes, out);
        let left = lists.outs.as_slice().get(out as usize).map(|all| all.len());
        same(rt, &left, &Some(given), out as u64);
    }
}

fn lane_agrees(rt: &impl Abort, lists: &BoardLists, notes: &[Notes], number: u8) {
    let Some(lane) = lists.lanes.as_slice().get(number as usize) else {
        panic!(rt; "no lane {number}")
    };
    let left = (lane.accepted.len(), lane.drops.len());
    same(rt, &left, &put_to(notes, number), number as u64);
    for (index, own) in notes.iter().enumerate() {
        assert!(rt;
            heads_rise(own, number, lane),
            "lane {number} for thread {index}"
        );
        if index == number as usize % notes.len().max(1) {
            assert!(rt; lane_was_served(own, number, lane), "lane {number}");
        }
    }
}

#[test]
fn two_threads_and_a_gate(rt: HostRuntime) -> Result<(), Fail> {
    let shape = wide_shape(Vec::new(rt.alloc()));
    let (board, mut seats) = Board::make(rt.alloc(), &shape, &[0], 3)?;
    let Some(gate) = last_seat(&board, &mut seats, 3) else {
        panic!(rt; "no seat")
    };
    let (zero, one) = two_workers(rt.alloc(), &board, &mut seats, 0, 2)?;
    let ((gate, last), pair) = gate_and_two(&rt, &board, gate, zero, one);
    let mut notes = Vec::new(rt.alloc());
    collect_two(&board, &mut seats, &mut notes, pair)?;
    add_seat(&board, &mut seats, gate)?;
    agree(&rt, &lists_of(board, seats), &notes, last);
    Ok(())
}

#[test]
fn four_threads_and_a_gate(rt: HostRuntime) -> Result<(), Fail> {
    let shape = wide_shape(Vec::new(rt.alloc()));
    let (board, mut seats) = Board::make(rt.alloc(), &shape, &[0], 5)?;
    let Some(gate) = last_seat(&board, &mut seats, 5) else {
        panic!(rt; "no seat")
    };
    let (two, three) = two_workers(rt.alloc(), &board, &mut seats, 2, 4)?;
    let (zero, one) = two_workers(rt.alloc(), &board, &mut seats, 0, 4)?;
    let ((gate, last), (first, second)) = gate_and_four(&rt, &board, gate, zero, one, two, three);
    let mut notes = Vec::new(rt.alloc());
    collect_two(&board, &mut seats, &mut notes, first)?;
    collect_two(&board, &mut seats, &mut notes, second)?;
    add_seat(&board, &mut seats, gate)?;
    agree(&rt, &lists_of(board, seats), &notes, last);
    Ok(())
}
