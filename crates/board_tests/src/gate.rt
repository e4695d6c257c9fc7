//! A visit, a close and a look at lanes, on a board of two seats.
ghost use Rattle.std.specs.Prelude.{◌≡◌};

use crate::equal::same;
use board_api::{CloseAnswer, Emptied, EnterAnswer, Hold, LaneId};
use hop_board::Board;
use hop_model::HopShape;
use std::alloc::Global;
use std::process::Abort;
use std::test::Fail;
use steer_base::{CpuMask, OutOfMemory, PacketId, Put};

// A hop of two producers, two lanes and one out lane, with room for four packets of which one may
// wait, whose counters show `start` at no packet.
fn small_shape(counts: Vec<u32>, start: u32) -> HopShape
    ensures lanes { result.lanes ≡ 2 }
    ensures outs { result.outs ≡ 1 }
    ensures limit { result.limit ≡ 1 }
    ensures room { result.room ≡ 4 }
{
    HopShape {
        producers: 2,
        guests: 0,
        lanes: 2,
        outs: 1,
        limit: 1,
        room: 4,
        counts,
        exact: false,
        start,
        limited: CpuMask(0),
    }
}

// What two seats were answered: the room of the held lane, its word, the position of the packet and
// the head that its visitor read, what the lanes showed behind the closed gate, and the gate's
// word.
#[derive(Drop)]
struct Answers {
    room: u32,
    held: u64,
    put: Put,
    head: u32,
    emptied: Emptied,
    gate: u64,
}

// One seat visits and puts a packet to lane 1, while the other tries that lane, closes the gate and
// looks at these lanes.
fn answers_of(
    rt: &impl Abort,
    alloc: Global,
    start: u32,
    lanes: CpuMask,
) -> Result<Answers, OutOfMemory> {
    let shape = small_shape(Vec::new(alloc), start);
    let (board, mut seats) = Board::make(alloc, &shape, &[], 2)?;
    let (Some(mut one), Some(mut zero)) = (seats.pop(), seats.pop()) else {
        panic!(rt; "fewer than two seats")
    };
    let EnterAnswer::Ok = board.enter(&mut zero) else {
        panic!(rt; "a closed gate")
    };
    let CloseAnswer::Inside { n: 1 } = board.try_close(&mut one) else {
        panic!(rt; "not one inside")
    };
    let Hold::Ok(lane) = board.try_hold(&mut zero, LaneId::Middle(1)) else {
        panic!(rt; "a lane that is held")
    };
    let Hold::Held { word: held } = board.try_hold(&mut one, LaneId::Middle(1)) else {
        panic!(rt; "a lane that is free")
    };
    let room = lane.room();
    assert!(rt; room > 0);
    let put = board.put(&mut zero, lane, PacketId(0), None);
    let head = board.weigh(&mut zero, 1);
    board.leave(&mut zero);
    let CloseAnswer::Ok = board.try_close(&mut one) else {
        panic!(rt; "somebody inside")
    };
    let emptied = board.emptied(&mut one, lanes);
    let EnterAnswer::Closed { word: gate } = board.enter(&mut zero) else {
        panic!(rt; "an open gate")
    };
    Ok(Answers {
        room,
        held,
        put,
        head,
        emptied,
        gate,
    })
}

fn numbers_of(answers: &Answers) -> (u32, u64, u32, u64) {
    (answers.room, answers.held, answers.head, answers.gate)
}

fn agree(rt: &impl Abort, got: &Answers, wanted: &Answers) {
    same(rt, &got.put, &wanted.put, 0);
    same(rt, &got.emptied, &wanted.emptied, 1);
    same(rt, &numbers_of(got), &numbers_of(wanted), 2);
}

#[test]
fn a_gate_waits_for_its_visitor_and_then_turns_it_away(rt: HostRuntime) -> Result<(), Fail> {
    let wanted = Answers {
        room: 4,
        held: 1,
        put: Put::At(1),
        head: 0,
        emptied: Emptied::NotEmpty {
            lane: 1,
            head: 0,
            tail: 1,
        },
        gate: 2_147_483_648,
    };
    let got = answers_of(&rt, rt.alloc(), 0, CpuMask(2))?;
    agree(&rt, &got, &wanted);
    Ok(())
}

// The tail is 0 after the put, while the head is still the last number.
#[test]
fn heads_and_tails_wrap(rt: HostRuntime) -> Result<(), Fail> {
    let wanted = Answers {
        room: 4,
        held: 8_589_934_591,
        put: Put::At(0),
        head: 4_294_967_295,
        emptied: Emptied::NotEmpty {
            lane: 1,
            head: 4_294_967_295,
            tail: 0,
        },
        gate: 2_147_483_648,
    };
    let got = answers_of(&rt, rt.alloc(), 4_294_967_295, CpuMask(3))?;
    agree(&rt, &got, &wanted);
    Ok(())
}
