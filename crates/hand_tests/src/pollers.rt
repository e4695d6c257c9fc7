//! A poller at the real board, with worked choices.
ghost use Rattle.hand_tests.specs.Benches.{IsWorker};

use crate::bench::{Worker, begun};
use crate::frames::packets_of;
use crate::hands::{Act, announce, arrive, filter_at, poll, works};
use hop_board::Board;
use plan_reader::read_plan;
use run_words::Shared;
use std::process::Abort;
use std::sync::Wait;
use std::test::Fail;
use steer_base::{PacketId, Why};

const PLAN: &[u8] = b"{\"cpus\": 2, \"queues\": [{\"home\": 1, \"mask\": [1], \"flows\": 256}, \
    {\"home\": 0, \"mask\": [0], \"flows\": 256}], \
    \"sock\": 1024, \"backlog\": 1, \"apps\": [0, 1], \"tx\": [{\"cpus\": [], \"queues\": []}], \
    \"steps\": []}";

const WAITS: [Act; 3] = [
    Act::Waits((true, Some(PacketId(0)), 0)),
    Act::Waits((false, Some(PacketId(0)), 0)),
    Act::Marked(0, 0),
];

const MOVES: [Act; 2] = [
    Act::Steers((Some(120), None, None, 1, Why::Unset)),
    Act::Marked(0, 1),
];

const IS_KEPT: [Act; 4] = [
    Act::Note(376, 0),
    Act::Marked(1, 0),
    Act::Steers((Some(120), Some(0), Some(0), 1, Why::Kept)),
    Act::Marked(1, 1),
];

// Steers two packets, with a reader on processor 0 at the second, and finds no third.
fn move_and_keep<R: Wait + Abort>(rt: &R, board: &Board, shared: &Shared, worker: &mut Worker)
    requires worker { IsWorker board.now shared.now worker.old.poller worker.old.drain
        worker.old.seat worker.old.hint }
    ensures worker { IsWorker board.now shared.now worker.new.poller worker.new.drain
        worker.new.seat worker.new.hint }
{
    works(rt, board, shared, worker, &MOVES);
    assert!(rt; worker.poller.accepted == 1);
    assert!(rt; filter_at(board, shared, worker, 0) == 529);
    works(rt, board, shared, worker, &IS_KEPT);
    assert!(rt; worker.poller.accepted == 1);
    assert!(rt; !poll(rt, board, shared, worker));
}

// Flow 0 has hash 0x51ccc178: class 120 of 256, entry 376 of 1,024, filter 0 of 8. Its first packet
// stays in hand until it is announced. Then it moves to processor 1, which is the queue's home, so
// a filter is stored: queue 0, processor 1, mark 1. Then its reader runs on processor 0, but the
// first packet still waits on processor 1, whose backlog is full. Either packet is marked as
// steered, the dropped one too.
#[test]
fn a_flow_moves_and_is_kept(rt: HostRuntime) -> Result<(), Fail> {
    let alloc = rt.alloc();
    let plan = read_plan(alloc, PLAN)?;
    let packets = packets_of(alloc, &plan, &[0; 2])?;
    let mut b = begun(&rt, alloc, &plan, &packets)?;
    arrive(&rt, &mut b.rings.0, 0, 2);
    works(&rt, &b.board, &b.shared, &mut b.zero, &WAITS);
    announce(&rt, &b.shared, &mut b.wire, 0, 0, 2);
    move_and_keep(&rt, &b.board, &b.shared, &mut b.zero);
    Ok(())
}
