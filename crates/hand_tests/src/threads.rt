//! Two workers beside each other: each polls its queue and drains its lane.
ghost use Rattle.std.specs.Thread.{IsSync};
ghost use Rattle.hand_tests.specs.Benches.{IsWorker};

use crate::bench::{Bench, Worker, begun};
use crate::frames::packets_of;
use crate::hands::{announce, arrive, closed, drain, ids, poll};
use hop_board::Board;
use plan_reader::read_plan;
use run_words::Shared;
use std::sync::Wait;
use std::test::Fail;
use std::thread::{Threads, join};
use steer_base::PacketId;

const PLAN: &[u8] = b"{\"cpus\": 2, \"queues\": [{\"home\": 0, \"mask\": [0, 1], \"flows\": 256}, \
    {\"home\": 1, \"mask\": [1], \"flows\": 256}], \
    \"sock\": 0, \"backlog\": 64, \"apps\": [0, 1], \"tx\": [{\"cpus\": [], \"queues\": []}], \
    \"start\": 4294967280, \"steps\": []}";

/// How many turns a worker makes at most.
const TURNS: u32 = 1 << 26;

/// How many packets each queue has.
const PACKETS: u32 = 32;

// The flows of the packets: 0 and 1 in turn at queue 0, then 2 and 3 in turn at queue 1.
const FLOWS: [u8; 64] = [
    0, 1, 0, 1, 0, 1, 0, 1, 0, 1, 0, 1, 0, 1, 0, 1, 0, 1, 0, 1, 0, 1, 0, 1, 0, 1, 0, 1, 0, 1, 0, 1,
    2, 3, 2, 3, 2, 3, 2, 3, 2, 3, 2, 3, 2, 3, 2, 3, 2, 3, 2, 3, 2, 3, 2, 3, 2, 3, 2, 3, 2, 3, 2, 3,
];

// Makes turns until the poller's packets are all put, and as many of the lane are retired as are
// put there.
fn work<R: Wait>(rt: &R, board: &Board, shared: &Shared, worker: Worker, lane: u32) -> Worker
    requires { IsWorker board.now shared.now worker.poller worker.drain worker.seat worker.hint }
    ensures { IsWorker board.now shared.now result.poller result.drain result.seat result.hint }
{
    let mut worker = worker;
    for _ in 0..TURNS {
        poll(rt, board, shared, &mut worker);
        drain(board, shared, &mut worker);
        if worker.poller.accepted == PACKETS && worker.drain.retired == lane {
            return worker;
        }
    }
    worker
}

// Both workers beside each other.
fn run_both<R: Threads + Wait + Sync>(
    rt: &R,
    board: &Board,
    shared: &Shared,
    zero: Worker,
    one: Worker,
) -> (Worker, Worker)
    requires zero { IsWorker board.now shared.now zero.poller zero.drain zero.seat zero.hint }
    requires one { IsWorker board.now shared.now one.poller one.drain one.seat one.hint }
    ensures zero { IsWorker board.now shared.now result.0.poller result.0.drain
        result.0.seat result.0.hint }
    ensures one { IsWorker board.now shared.now result.1.poller result.1.drain
        result.1.seat result.1.hint }
{
    join(
        rt,
        || -> Worker
            requires { IsSync R.row × IsWorker board.now shared.now zero.poller zero.drain
                zero.seat zero.hint }
            ensures { IsWorker board.entry.now shared.entry.now result.poller result.drain
                result.seat result.hint }
        { work(rt, board, shared, zero, 16) },
        || -> Worker
            requires { IsSync R.row × IsWorker board.now shared.now one.poller one.drain
                one.seat one.hint }
            ensures { IsWorker board.entry.now shared.entry.now result.poller result.drain
                result.seat result.hint }
        { work(rt, board, shared, one, 48) },
    )
}

// Whether the packets of a flow among these are all packets of that flow, in order, each once.
fn has_flow(ids: &[PacketId], flow: u8) -> bool {
    let flow = flow as u32;
    let first = flow / 2 * PACKETS + flow % 2;
    let mut next = first;
    for id in ids {
        if 2 * (id.0 / PACKETS) + id.0 % 2 == flow {
            if id.0 != next {
                return false;
            }
            next = next.wrapping_add(2);
        }
    }
    next == first.wrapping_add(PACKETS)
}

// Queue 0 steers flow 0, of an even hash, to processor 0, and flow 1, of an odd one, to processor
// 1. Queue 1 steers flows 2 and 3 to processor 1. Flow 1 is for application 1, and the others, of
// even hashes, for application 0. So 16 packets pass lane 0 and 48 lane 1, and no backlog is full.
#[test]
fn each_packet_comes_once_and_in_order(rt: HostRuntime) -> Result<(), Fail> {
    let alloc = rt.alloc();
    let plan = read_plan(alloc, PLAN)?;
    let packets = packets_of(alloc, &plan, &FLOWS)?;
    let mut bench = begun(&rt, alloc, &plan, &packets)?;
    announce(&rt, &bench.shared, &mut bench.wire, 0, 0, PACKETS);
    announce(&rt, &bench.shared, &mut bench.wire, 1, PACKETS, PACKETS);
    arrive(&rt, &mut bench.rings.0, 0, PACKETS);
    arrive(&rt, &mut bench.rings.1, PACKETS, PACKETS);
    let Bench {
        board,
        shared,
        zero,
        one,
        visitor,
        closer,
        wire,
        rings,
    } = bench;
    let (zero, one) = run_both(&rt, &board, &shared, zero, one);
    assert!(rt; (zero.poller.accepted, zero.drain.retired) == (32, 16));
    assert!(rt; (one.poller.accepted, one.drain.retired) == (32, 48));
    let bench = Bench {
        board,
        shared,
        zero,
        one,
        visitor,
        closer,
        wire,
        rings,
    };
    let lists = closed(&rt, alloc, bench);
    let (inbox_0, inbox_1) = (ids(&lists.outs, 0), ids(&lists.outs, 1));
    assert!(rt; (inbox_0.len(), inbox_1.len()) == (48, 16));
    assert!(rt; has_flow(inbox_0, 0) && has_flow(inbox_0, 2) && has_flow(inbox_0, 3));
    assert!(rt; has_flow(inbox_1, 1));
    Ok(())
}
