//! An application at its two boards, with packets in its inbox.
ghost use Rattle.std.specs.Prelude.{◌≡◌, ◌≤◌, IfOk, None, length};
ghost use Rattle.steer_base.specs.declared.limits.TheConstants.{MAX_PACKETS};
ghost use Rattle.run_workers.specs.Hands.Servers.{HasTransmitSettings, IsServer};
ghost use Rattle.hand_tests.specs.Benches.{IsWorker};
ghost use Rattle.hand_tests.specs.Offices.{IsDesk};

use crate::bench::{Bench, Worker, begun, last_seat};
use crate::frames::packets_of;
use crate::hands::{announce, arrive, drain, poll};
use board_api::BoardSeat;
use hint_words::HintSeat;
use hop_board::Board;
use hop_model::{HopShape, MAX_HOP_ROOM};
use plan_reader::{Plan, read_plan};
use run_words::{Shared, first_transmit_settings};
use run_workers::Server;
use std::alloc::Global;
use std::marker::Model;
use std::process::Abort;
use std::sync::Wait;
use std::test::Fail;
use steer_base::{Cpu, CpuMask, OutOfMemory};
use steer_model::Given;

// The maps of transmit queue 0 have processor 0 and receive queue 1, those of transmit queue 1 have
// processor 1.
const PLAN: &[u8] = b"{\"cpus\": 2, \"queues\": [{\"home\": 0, \"mask\": [0], \"flows\": 256}, \
    {\"home\": 1, \"mask\": [1], \"flows\": 256}], \
    \"sock\": 1024, \"backlog\": 8, \"apps\": [0, 1], \"tx\": [{\"cpus\": [0], \"queues\": [1]}, \
    {\"cpus\": [1], \"queues\": []}], \"steps\": []}";

/// An application, its seats at both boards, and those of the closers. Contracts see nothing of it:
/// what holds between two calls is its invariant.
#[derive(Drop)]
pub struct Office {
    pub receive: Board,
    pub receive_seat: BoardSeat,
    pub receive_closer: BoardSeat,
    pub transmit: Board,
    pub transmit_seat: BoardSeat,
    pub transmit_closer: BoardSeat,
    pub shared: Shared,
    pub hint: HintSeat,
    pub server: Server,
    /// How often a gate was opened, at most.
    pub openings: u32,
}

impl Model for Office {
    ghost use Rattle.std.specs.Prelude.{⊤};
    ghost use Rattle.hand_tests.specs.Offices.{IsOffice};

    ghost Value = { ⊤ };

    ghost view = { λ _. tt };

    ghost invariant = { λ o. IsOffice o.shared o.hint o.server
        o.receive o.receive_seat o.receive_closer
        o.transmit o.transmit_seat o.transmit_closer o.openings };
}

// A transmit hop of a plan, whose lanes are never full.
fn shape_of(alloc: Global, plan: &Plan, given: &Given) -> HopShape
    ensures limit { 1 ≤ result.limit }
    ensures room { result.room ≡ length given.now.packets }
    ensures few { result.room ≤ MAX_PACKETS }
    ensures lanes { result.lanes ≡ given.now.txs }
{
    HopShape {
        producers: given.apps(),
        guests: 0,
        lanes: given.txs(),
        outs: 1,
        limit: MAX_HOP_ROOM,
        room: given.packet_count(),
        counts: Vec::new(alloc),
        exact: true,
        start: plan.start,
        limited: CpuMask(0),
    }
}

// The transmit board of a plan with two transmit queues, the seat of an application and that of the
// closer.
fn transmit_of(
    rt: &impl Abort,
    alloc: Global,
    plan: &Plan,
    given: &Given,
) -> Result<(Board, BoardSeat, BoardSeat), OutOfMemory>
    ensures desk { IfOk result (λ r. IsDesk 0 r.0 r.1 r.2 0) }
    ensures maps { IfOk result (λ r. HasTransmitSettings r.0.sizes given.now) }
    ensures room { IfOk result (λ r. r.0.sizes.room ≡ length given.now.packets) }
{
    let settings = first_transmit_settings(alloc, plan)?;
    assert!(rt; given.txs() == 2);
    assert!(rt; settings.len() == 4);
    let shape = shape_of(alloc, plan, given);
    let (board, mut seats) = Board::make(alloc, &shape, &settings, 2)?;
    let closer = last_seat(&board, &mut seats, 2).expect(rt, "the closer's seat");
    let seat = last_seat(&board, &mut seats, 1).expect(rt, "an application's seat");
    Ok((board, seat, closer))
}

// Application 0, which has taken nothing yet.
fn server_of(alloc: Global, plan: &Plan, given: &Given) -> Result<Server, OutOfMemory>
    ensures app { IfOk result (λ s. s.app ≡ 0) }
    ensures room { IfOk result (λ s. s.sent.room ≡ length given.now.packets) }
    ensures is { IfOk result (λ s. IsServer given.now s) }
    ensures kept { IfOk result (λ s. s.kept.visit ≡ None) }
{
    given.ranges();
    let room = given.packet_count();
    Server::make(alloc, 0, Cpu(0), plan.start, room, room)
}

// Polls so many packets, and drains them into the inboxes of their applications.
fn fill<R: Wait + Abort>(rt: &R, board: &Board, shared: &Shared, worker: &mut Worker, count: u32)
    requires { IsWorker board.now shared.now worker.old.poller worker.old.drain
        worker.old.seat worker.old.hint }
    ensures { IsWorker board.now shared.now worker.new.poller worker.new.drain
        worker.new.seat worker.new.hint }
{
    for _ in 0..count {
        assert!(rt; poll(rt, board, shared, worker));
    }
    assert!(rt; drain(board, shared, worker));
}

/// An office of application 0, with packets of these flows in the inboxes of their applications, in
/// this order.
pub fn office_of<R: Wait + Abort>(rt: &R, alloc: Global, flows: &[u8]) -> Result<Office, Fail> {
    let plan = read_plan(alloc, PLAN)?;
    let packets = packets_of(alloc, &plan, flows)?;
    let mut bench = begun(rt, alloc, &plan, &packets).expect(rt, "memory");
    let count = bench.shared.given.packet_count();
    announce(rt, &bench.shared, &mut bench.wire, 0, 0, count);
    arrive(rt, &mut bench.rings.0, 0, count);
    fill(rt, &bench.board, &bench.shared, &mut bench.zero, count);
    let desk = transmit_of(rt, alloc, &plan, &bench.shared.given);
    let (transmit, transmit_seat, transmit_closer) = desk.expect(rt, "memory");
    let server = server_of(alloc, &plan, &bench.shared.given).expect(rt, "memory");
    Ok(Office {
        receive: bench.board,
        receive_seat: bench.visitor,
        receive_closer: bench.closer,
        transmit,
        transmit_seat,
        transmit_closer,
        shared: bench.shared,
        hint: bench.zero.hint,
        server,
        openings: 0,
    })
}
