//! A drain at the real board: where packets go, and lanes that another seat holds.
ghost use Rattle.hand_tests.specs.Benches.{IsWorker, Rests};

use crate::bench::{Worker, begun};
use crate::frames::packets_of;
use crate::hands::{Act, announce, arrive, closed, drains_beside, ids, works};
use board_api::{BoardSeat, LaneId};
use hop_board::Board;
use plan_reader::read_plan;
use run_words::Shared;
use std::process::Abort;
use std::sync::Wait;
use std::test::Fail;
use steer_base::{PacketId, Why};

const PLAN: &[u8] = b"{\"cpus\": 2, \"queues\": [{\"home\": 0, \"mask\": [0], \"flows\": 256}, \
    {\"home\": 1, \"mask\": [1], \"flows\": 256}], \
    \"sock\": 1024, \"backlog\": 8, \"apps\": [0, 1], \"tx\": [{\"cpus\": [], \"queues\": []}], \
    \"steps\": []}";

// Three packets are drained, and one more is steered.
const DRAINS_THREE: [Act; 6] = [
    Act::Steers((Some(120), None, None, 0, Why::Unset)),
    Act::Steers((Some(127), None, None, 0, Why::Unset)),
    Act::Steers((Some(120), None, None, 0, Why::Same)),
    Act::Drains((true, None, 3)),
    Act::Note(376, 1),
    Act::Steers((Some(120), Some(1), Some(3), 1, Why::Passed)),
];

// Packets 0, 2 and 3 are of flow 0 with an even hash, for application 0, and packet 1 is of flow 1
// with an odd one, for application 1. The first three wait on processor 0. Once they are retired
// the head is 3, which is the position of packet 2, so packet 3 may follow the reader of its flow
// to processor 1.
#[test]
fn packets_go_to_their_inboxes(rt: HostRuntime) -> Result<(), Fail> {
    let alloc = rt.alloc();
    let plan = read_plan(alloc, PLAN)?;
    let packets = packets_of(alloc, &plan, &[0, 1, 0, 0])?;
    let mut b = begun(&rt, alloc, &plan, &packets)?;
    announce(&rt, &b.shared, &mut b.wire, 0, 0, 4);
    arrive(&rt, &mut b.rings.0, 0, 4);
    works(&rt, &b.board, &b.shared, &mut b.zero, &DRAINS_THREE);
    let lists = closed(&rt, alloc, b);
    assert!(rt; ids(&lists.outs, 0) == [PacketId(0), PacketId(2)].as_slice());
    assert!(rt; ids(&lists.outs, 1) == [PacketId(1)].as_slice());
    Ok(())
}

const STEERS_TWO: [Act; 2] = [
    Act::Steers((Some(120), None, None, 0, Why::Unset)),
    Act::Steers((Some(127), None, None, 0, Why::Unset)),
];

// Drains two packets, while another seat holds a lane and then an inbox.
fn drain_beside_a_holder<R: Wait + Abort>(
    rt: &R,
    board: &Board,
    shared: &Shared,
    worker: &mut Worker,
    visitor: &mut BoardSeat,
)
    requires worker { IsWorker board.now shared.now worker.old.poller worker.old.drain
        worker.old.seat worker.old.hint }
    requires visitor { Rests board.now 2 visitor.old }
    ensures worker { IsWorker board.now shared.now worker.new.poller worker.new.drain
        worker.new.seat worker.new.hint }
    ensures visitor { Rests board.now 2 visitor.new }
{
    works(rt, board, shared, worker, &STEERS_TWO);
    let wanted = (false, None, 0);
    let lane = LaneId::Middle(0);
    drains_beside(rt, board, shared, worker, visitor, lane, wanted);
    let wanted = (true, Some(PacketId(1)), 1);
    let lane = LaneId::Out(1);
    drains_beside(rt, board, shared, worker, visitor, lane, wanted);
    works(rt, board, shared, worker, &[Act::Drains((true, None, 2))]);
}

// Packet 0 is for application 0, and packet 1 for application 1. While their lane is held nothing
// is pulled. While inbox 1 is held packet 0 is delivered, and packet 1 stays in hand.
#[test]
fn a_held_lane_is_left_for_later(rt: HostRuntime) -> Result<(), Fail> {
    let alloc = rt.alloc();
    let plan = read_plan(alloc, PLAN)?;
    let packets = packets_of(alloc, &plan, &[0, 1])?;
    let mut b = begun(&rt, alloc, &plan, &packets)?;
    announce(&rt, &b.shared, &mut b.wire, 0, 0, 2);
    arrive(&rt, &mut b.rings.0, 0, 2);
    drain_beside_a_holder(&rt, &b.board, &b.shared, &mut b.zero, &mut b.visitor);
    Ok(())
}
