//! The closer's calls at the real board, beside a poller.
ghost use Rattle.std.specs.Prelude.{◌<◌};
ghost use Rattle.hand_tests.specs.Benches.{IsWorker, Rests, opened_by};

use crate::bench::{Worker, begun};
use crate::frames::packets_of;
use crate::hands::{Act, announce, arrive, change, change_beside, change_in_visit, works};
use board_api::BoardSeat;
use hop_board::Board;
use plan_reader::read_plan;
use run_words::{Shared, flows_word};
use std::process::Abort;
use std::sync::Wait;
use std::test::Fail;
use steer_base::{Busy, CpuMask, Why};

const PLAN: &[u8] = b"{\"cpus\": 2, \"queues\": [{\"home\": 0, \"mask\": [0], \"flows\": 256}, \
    {\"home\": 1, \"mask\": [1], \"flows\": 256}], \
    \"sock\": 1024, \"backlog\": 8, \"apps\": [0, 1], \"tx\": [{\"cpus\": [], \"queues\": []}], \
    \"steps\": []}";

// The number of the flow count of queue 0 among the settings of two queues.
const FLOWS: u32 = 2;

// The first packet of a class of 256.
const STEERS_FIRST: [Act; 1] = [Act::Steers((Some(120), None, None, 0, Why::Unset))];

// Two packets of a class of 16, which had none before.
const STEERS_TWO: [Act; 2] = [
    Act::Steers((Some(8), None, None, 0, Why::Unset)),
    Act::Steers((Some(8), None, None, 0, Why::Same)),
];

// The first packet of a class of 16.
const STEERS_ANEW: [Act; 1] = [Act::Steers((Some(8), None, None, 0, Why::Unset))];

// Tries a change in a visit, beside a packet that waits, and when it is gone.
fn refuse<R: Wait + Abort>(
    rt: &R,
    board: &Board,
    shared: &Shared,
    worker: &mut Worker,
    visitor: &mut BoardSeat,
    closer: &mut BoardSeat,
)
    requires worker { IsWorker board.now shared.now worker.old.poller worker.old.drain
        worker.old.seat worker.old.hint }
    requires visitor { Rests board.now 2 visitor.old }
    requires closer { Rests board.now 3 closer.old }
    requires opened { opened_by closer.old < 4 }
    ensures worker { IsWorker board.now shared.now worker.new.poller worker.new.drain
        worker.new.seat worker.new.hint }
    ensures visitor { Rests board.now 2 visitor.new }
    ensures closer { Rests board.now 3 closer.new }
{
    let busy = change_in_visit(rt, board, closer, visitor, CpuMask(0));
    assert!(rt; busy == Some(Busy::Inside(1)));
    works(rt, board, shared, worker, &STEERS_FIRST);
    let busy = change(board, closer, CpuMask(3), FLOWS, 16);
    assert!(rt;
        busy == Some(Busy::NotEmpty {
            lane: 0,
            head: 0,
            tail: 1
        })
    );
    works(rt, board, shared, worker, &[Act::Drains((true, None, 1))]);
    assert!(rt; change(board, closer, CpuMask(3), FLOWS, 16).is_none());
}

// One visit is open; then a packet waits in lane 0, at position 1.
#[test]
fn a_change_is_refused(rt: HostRuntime) -> Result<(), Fail> {
    let alloc = rt.alloc();
    let plan = read_plan(alloc, PLAN)?;
    let packets = packets_of(alloc, &plan, &[0; 2])?;
    let mut b = begun(&rt, alloc, &plan, &packets)?;
    announce(&rt, &b.shared, &mut b.wire, 0, 0, 1);
    arrive(&rt, &mut b.rings.0, 0, 1);
    refuse(
        &rt,
        &b.board,
        &b.shared,
        &mut b.zero,
        &mut b.visitor,
        &mut b.closer,
    );
    Ok(())
}

// Changes the flow count, and its generation alone, between packets.
fn renew<R: Wait + Abort>(
    rt: &R,
    board: &Board,
    shared: &Shared,
    worker: &mut Worker,
    closer: &mut BoardSeat,
)
    requires worker { IsWorker board.now shared.now worker.old.poller worker.old.drain
        worker.old.seat worker.old.hint }
    requires closer { Rests board.now 3 closer.old }
    requires opened { opened_by closer.old < 4 }
    ensures worker { IsWorker board.now shared.now worker.new.poller worker.new.drain
        worker.new.seat worker.new.hint }
    ensures closer { Rests board.now 3 closer.new }
{
    works(rt, board, shared, worker, &STEERS_FIRST);
    let word = flows_word(16, 1);
    let polled = change_beside(rt, board, shared, closer, worker, FLOWS, word);
    assert!(rt; polled.ok() == Some((true, false)));
    works(rt, board, shared, worker, &STEERS_TWO);
    let word = flows_word(16, 2);
    assert!(rt; change(board, closer, CpuMask(0), FLOWS, word).is_none());
    works(rt, board, shared, worker, &STEERS_ANEW);
}

// Flow 0 has class 120 of 256 and class 8 of 16. The packet that meets the closed gate stays in
// hand, and is put after the opening. Its class has no lane then, and so again after the next
// change, though the count is the same.
#[test]
fn a_new_flow_count_clears_the_table(rt: HostRuntime) -> Result<(), Fail> {
    let alloc = rt.alloc();
    let plan = read_plan(alloc, PLAN)?;
    let packets = packets_of(alloc, &plan, &[0; 4])?;
    let mut b = begun(&rt, alloc, &plan, &packets)?;
    announce(&rt, &b.shared, &mut b.wire, 0, 0, 4);
    arrive(&rt, &mut b.rings.0, 0, 4);
    renew(&rt, &b.board, &b.shared, &mut b.zero, &mut b.closer);
    Ok(())
}
