//! One seat and the gate take turns.
ghost use Rattle.std.specs.Prelude.{◌≡◌, ◌<◌};
ghost use Rattle.board_tests.specs.Stands.{SeatIsOutside};

use crate::closer::{change, look_in};
use crate::crew::{add_seat, last_seat, lists_of, wide_shape};
use crate::equal::same;
use crate::rounds::{Seen, read, room_of, serve, tail_of, visit};
use crate::told::START;
use board_api::{BoardSeat, LaneId};
use hop_board::Board;
use std::test::Fail;
use steer_base::{CpuMask, PacketId, Put};

// The counters show the last number of 32 bits at no packet, so 0 after the first.
#[test]
fn packets_go_through_and_a_setting_is_changed(rt: HostRuntime) -> Result<(), Fail> {
    let shape = wide_shape(Vec::new(rt.alloc()));
    let (board, mut seats) = Board::make(rt.alloc(), &shape, &[5], 2)?;
    let (Some(mut gate), Some(mut zero)) = (
        last_seat(&board, &mut seats, 2),
        last_seat(&board, &mut seats, 1),
    ) else {
        panic!(rt; "fewer than two seats")
    };
    same(&rt, &room_of(&board, &mut zero, 1), &Some(40_000), 1);
    let seen = Seen {
        setting: 5,
        head: START,
        answer: Some(Put::At(0)),
    };
    same(
        &rt,
        &visit(&board, &mut zero, 1, PacketId(3)),
        &Some(seen),
        2,
    );
    same(&rt, &room_of(&board, &mut zero, 1), &Some(39_999), 3);
    assert!(rt; !change(&board, &mut gate, CpuMask(2), 8), "a packet waits");
    let Ok(served) = serve(&board, &mut zero, 1, 1) else {
        panic!(rt; "an out lane that is held")
    };
    same(&rt, &served, &Some((PacketId(3), 1)), 4);
    assert!(rt; change(&board, &mut gate, CpuMask(2), 9), "nothing waits");
    let seen = Seen {
        setting: 9,
        head: 0,
        answer: Some(Put::At(1)),
    };
    same(
        &rt,
        &visit(&board, &mut zero, 1, PacketId(4)),
        &Some(seen),
        5,
    );
    same(&rt, &read(&board, &mut zero, 1, 0), &Some(PacketId(3)), 6);
    same(&rt, &read(&board, &mut zero, 1, 1), &None, 7);
    add_seat(&board, &mut seats, zero)?;
    add_seat(&board, &mut seats, gate)?;
    let lists = lists_of(board, seats);
    same(&rt, &lists.lanes.len(), &4, 8);
    Ok(())
}

// The tails of lane 1 and of out lane 1, and the number of the seat's last visit.
fn counts_of(board: &Board, seat: &mut BoardSeat) -> (u32, u32, u32)
    requires lanes { 1 < board.now.sizes.lanes }
    requires outs { 1 < board.now.sizes.outs }
    requires stands { SeatIsOutside board.now seat.old.number seat.old }
    ensures { SeatIsOutside board.now seat.old.number seat.new }
{
    (
        tail_of(board, seat, LaneId::Middle(1)),
        tail_of(board, seat, LaneId::Out(1)),
        seat.visit_number(),
    )
}

// A put raises the tail of its lane, a delivery that of its out lane, and an opening of the gate
// the number of the next visit. The closer enters its own open gate.
#[test]
fn tails_and_visits_are_counted(rt: HostRuntime) -> Result<(), Fail> {
    let shape = wide_shape(Vec::new(rt.alloc()));
    let (board, mut seats) = Board::make(rt.alloc(), &shape, &[5], 2)?;
    let (Some(mut gate), Some(mut zero)) = (
        last_seat(&board, &mut seats, 2),
        last_seat(&board, &mut seats, 1),
    ) else {
        panic!(rt; "fewer than two seats")
    };
    same(&rt, &counts_of(&board, &mut zero), &(START, START, 0), 9);
    let _ = visit(&board, &mut zero, 1, PacketId(3));
    same(&rt, &counts_of(&board, &mut zero), &(0, START, 0), 10);
    let _ = change(&board, &mut gate, CpuMask(2), 8);
    let Ok(_) = serve(&board, &mut zero, 1, 1) else {
        panic!(rt; "an out lane that is held")
    };
    let _ = visit(&board, &mut zero, 1, PacketId(4));
    same(&rt, &counts_of(&board, &mut zero), &(1, 0, 1), 11);
    same(&rt, &look_in(&board, &mut gate), &1, 12);
    Ok(())
}
