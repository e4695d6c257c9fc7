//! A receive board of two lanes for two receive queues, with two workers, a visitor and a closer.
ghost use Rattle.std.specs.Prelude.{◌≡◌, ◌<◌, ◌≤◌, ◌+◌, ◌-◌, IfOk, IfSome, None, length, []};
ghost use Rattle.std.specs.Vec.{vec_len};
ghost use Rattle.steer_base.specs.declared.limits.TheConstants.{MAX_PACKETS};
ghost use Rattle.steer_model.specs.State.Ranges.{AreOfFlows};
ghost use Rattle.run_words.specs.Numbers.{word_count as words_for};
ghost use Rattle.run_workers.specs.Hands.Drains.{IsDrain};
ghost use Rattle.run_workers.specs.Hands.Pollers.{IsPoller};
ghost use Rattle.run_workers.specs.declared.drain.Exit.TheVariants.{Inboxes};
ghost use Rattle.hop_board.specs.Made.{new_board_seats};
ghost use Rattle.hand_tests.specs.Benches.{IsBench, IsFresh, IsWorker, Rests, opened_by};

use board_api::BoardSeat;
use hint_words::{HintSeat, Hints};
use hop_board::Board;
use hop_model::HopShape;
use plan_reader::Plan;
use rtrb::{Producer, RingBuffer};
use run_words::{Shared, first_receive_settings, word_count};
use run_workers::{Drain, Exit, Poller};
use std::alloc::Global;
use std::process::Abort;
use steer_base::{OutOfMemory, Packet};
use steer_model::Given;

/// The number of filters.
const FILTERS: u32 = 8;

/// A worker: its seats, the poller of a queue, and the drain of the lane of the queue's number.
#[derive(Drop)]
pub struct Worker {
    pub poller: Poller,
    pub drain: Drain,
    pub seat: BoardSeat,
    pub hint: HintSeat,
}

/// The ends of the rings at which packets arrive, of queue 0 and of queue 1.
pub type Rings = (Producer<u32, Global>, Producer<u32, Global>);

/// A board and its seats, the wire's seat at the shared words, and the ends of the rings at which
/// packets arrive.
#[derive(Drop)]
pub struct Bench {
    pub board: Board,
    pub shared: Shared,
    pub zero: Worker,
    pub one: Worker,
    pub visitor: BoardSeat,
    pub closer: BoardSeat,
    pub wire: HintSeat,
    pub rings: Rings,
}

/// The last of so many seats that have made no step.
pub fn last_seat(board: &Board, seats: &mut Vec<BoardSeat>, count: u32) -> Option<BoardSeat>
    requires some { 0 < count }
    requires seats { seats.old.items ≡ new_board_seats board.now.table count }
    requires all { vec_len seats.old ≡ count }
    ensures fresh { IfSome result (λ s. IsFresh board.now (count - 1) s) }
    ensures seats { seats.new.items ≡ new_board_seats board.now.table (count - 1) }
    ensures all { vec_len seats.new ≡ count - 1 }
{
    seats.pop()
}

// A hop with the lanes and out lanes of a plan.
fn shape_of(alloc: Global, plan: &Plan, given: &Given) -> HopShape
    ensures limit { 1 ≤ result.limit }
    ensures room { result.room ≡ length given.now.packets }
    ensures few { result.room ≤ MAX_PACKETS }
    ensures lanes { result.lanes ≡ given.now.cpus }
    ensures outs { result.outs ≡ given.now.apps }
{
    HopShape {
        producers: given.queues(),
        guests: 0,
        lanes: given.cpus(),
        outs: given.apps(),
        limit: plan.backlog,
        room: given.packet_count(),
        counts: Vec::new(alloc),
        exact: false,
        start: plan.start,
        limited: plan.limited,
    }
}

// The board of a plan with two receive queues, and its seats.
fn board_of(
    rt: &impl Abort,
    alloc: Global,
    plan: &Plan,
    given: &Given,
) -> Result<(Board, Vec<BoardSeat>), OutOfMemory>
    ensures lanes { IfOk result (λ r. r.0.sizes.lanes ≡ 2) }
    ensures cpus { IfOk result (λ r. r.0.sizes.lanes ≡ given.now.cpus) }
    ensures queues { IfOk result (λ r. length given.now.homes ≡ 2) }
    ensures outs { IfOk result (λ r. r.0.sizes.outs ≡ given.now.apps) }
    ensures inboxes { IfOk result (λ r. r.0.sizes.outs ≡ 2) }
    ensures room { IfOk result (λ r. r.0.sizes.room ≡ length given.now.packets) }
    ensures settings { IfOk result (λ r. length r.0.sizes.settings ≡ 6) }
    ensures count { IfOk result (λ r. r.0.sizes.seats ≡ 4) }
    ensures seats { IfOk result (λ r. r.1.items ≡ new_board_seats r.0.table 4) }
    ensures all { IfOk result (λ r. vec_len r.1 ≡ 4) }
{
    let settings = first_receive_settings(alloc, plan)?;
    assert!(rt; given.queues() == 2);
    assert!(rt; given.cpus() == 2);
    assert!(rt; given.apps() == 2);
    assert!(rt; settings.len() == 6);
    Board::make(alloc, &shape_of(alloc, plan, given), &settings, 4)
}

// What the threads share, and the seats of two workers and of the wire at its words.
fn shared_of(
    rt: &impl Abort,
    alloc: Global,
    given: Given,
) -> Result<(Shared, HintSeat, HintSeat, HintSeat), OutOfMemory>
    ensures given { IfOk result (λ r. r.0.given ≡ given) }
    ensures filters { IfOk result (λ r. r.0.filters ≡ 8) }
    ensures words { IfOk result (λ r. words_for (length given.packets) ≤ r.0.hints.words) }
    ensures zero { IfOk result (λ r. r.1.table ≡ r.0.hints.table) }
    ensures one { IfOk result (λ r. r.2.table ≡ r.0.hints.table) }
    ensures wire { IfOk result (λ r. r.3.table ≡ r.0.hints.table) }
{
    let (hints, mut seats) = Hints::make(alloc, word_count(given.packet_count()), 3)?;
    let wire = seats.pop().expect(rt, "a hint seat");
    let one = seats.pop().expect(rt, "a hint seat");
    let zero = seats.pop().expect(rt, "a hint seat");
    let shared = Shared {
        hints,
        given,
        filters: FILTERS,
    };
    Ok((shared, zero, one, wire))
}

// A worker that has made no step, by its seats and its poller.
fn worker_of(
    board: &Board,
    shared: &Shared,
    seat: BoardSeat,
    hint: HintSeat,
    poller: Poller,
    drain: Drain,
) -> Worker
    requires bench { IsBench board.now.sizes shared.now }
    requires within { drain.lane < 2 }
    requires fresh { IsFresh board.now drain.lane seat }
    requires hint { hint.table ≡ shared.now.hints.table }
    requires queue { poller.queue ≡ drain.lane }
    requires room { poller.choices.room ≡ board.now.sizes.room }
    requires poller { IsPoller shared.now.given.cpus poller }
    requires kept { poller.kept ≡ None }
    requires exit { drain.exit ≡ Inboxes }
    requires drain { IsDrain shared.now.given drain [] }
    ensures { IsWorker board.now shared.now result.poller result.drain result.seat result.hint }
{
    Worker {
        poller,
        drain,
        seat,
        hint,
    }
}

// A worker that takes the last of so many seats, and the end of the ring of its queue.
fn last_worker(
    rt: &impl Abort,
    alloc: Global,
    board: &Board,
    shared: &Shared,
    plan: &Plan,
    number: u8,
    seats: &mut Vec<BoardSeat>,
    hint: HintSeat,
) -> Result<(Worker, Producer<u32, Global>), OutOfMemory>
    requires bench { IsBench board.now.sizes shared.now }
    requires room { board.now.sizes.room ≡ length shared.now.given.packets }
    requires number { number < 2 }
    requires seats { seats.old.items ≡ new_board_seats board.now.table (number + 1) }
    requires all { vec_len seats.old ≡ number + 1 }
    requires hint { hint.table ≡ shared.now.hints.table }
    ensures worker { IfOk result (λ r. IsWorker board.now shared.now r.0.poller r.0.drain
        r.0.seat r.0.hint) }
    ensures seats { IfOk result (λ _. seats.new.items ≡ new_board_seats board.now.table number) }
    ensures all { IfOk result (λ _. vec_len seats.new ≡ number) }
{
    let room = shared.given.packet_count();
    let seat = last_seat(board, seats, number as u32 + 1).expect(rt, "a worker's seat");
    let Some(queue) = plan.queues.as_slice().get(number as usize) else {
        panic!(rt; "fewer than two queues")
    };
    let flows = queue.flows;
    assert!(rt; flows <= 32_768);
    let (producer, ring) = RingBuffer::<u32>::new(alloc, room as usize)?;
    let poller = Poller::make(alloc, number, ring, flows, plan.start, room)?;
    let drain = Drain::new(number, Exit::Inboxes, plan.start);
    Ok((
        worker_of(board, shared, seat, hint, poller, drain),
        producer,
    ))
}

/// A bench for a plan with two receive queues and two processors.
pub fn begun(
    rt: &impl Abort,
    alloc: Global,
    plan: &Plan,
    packets: &[Packet],
) -> Result<Bench, OutOfMemory>
    requires few { length packets.now ≤ MAX_PACKETS }
    requires flows { AreOfFlows packets.now }
    ensures zero { IfOk result (λ b. IsWorker b.board b.shared b.zero.poller b.zero.drain
        b.zero.seat b.zero.hint) }
    ensures one { IfOk result (λ b. IsWorker b.board b.shared b.one.poller b.one.drain
        b.one.seat b.one.hint) }
    ensures visitor { IfOk result (λ b. Rests b.board 2 b.visitor) }
    ensures closer { IfOk result (λ b. Rests b.board 3 b.closer) }
    ensures opened { IfOk result (λ b. opened_by b.closer ≡ 0) }
    ensures room { IfOk result (λ b. b.board.sizes.room ≡ length b.shared.given.packets) }
    ensures words { IfOk result
        (λ b. words_for (length b.shared.given.packets) ≤ b.shared.hints.words) }
    ensures wire { IfOk result (λ b. b.wire.table ≡ b.shared.hints.table) }
{
    let given = Given::of_plan(alloc, plan, packets, None)?;
    let (board, mut seats) = board_of(rt, alloc, plan, &given).expect(rt, "memory");
    let shared = shared_of(rt, alloc, given);
    let (shared, hint_zero, hint_one, wire) = shared.expect(rt, "memory");
    let closer = last_seat(&board, &mut seats, 4).expect(rt, "the closer's seat");
    let visitor = last_seat(&board, &mut seats, 3).expect(rt, "the visitor's seat");
    let one = last_worker(rt, alloc, &board, &shared, plan, 1, &mut seats, hint_one);
    let (one, ring_one) = one.expect(rt, "memory");
    let zero = last_worker(rt, alloc, &board, &shared, plan, 0, &mut seats, hint_zero);
    let (zero, ring_zero) = zero.expect(rt, "memory");
    Ok(Bench {
        board,
        shared,
        zero,
        one,
        visitor,
        closer,
        wire,
        rings: (ring_zero, ring_one),
    })
}
