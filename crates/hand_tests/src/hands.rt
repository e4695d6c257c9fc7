//! What is done with a bench. Each function makes the calls of one hand.
ghost use Rattle.std.specs.Prelude.{◌≡◌, ◌<◌, ◌≤◌, ◌+◌, OnOk, All, length};
ghost use Rattle.std.specs.Vec.{vec_len};
ghost use Rattle.steer_base.specs.declared.limits.TheConstants.{MAX_SOCKET_SIZE};
ghost use Rattle.board_api.specs.Calls.HeldLanes.{FitsLane};
ghost use Rattle.run_words.specs.Numbers.{word_count as words_for};
ghost use Rattle.hand_tests.specs.Benches.{IsDone, IsWorker, Rests, opened_by};

use crate::bench::{Bench, Worker};
use board_api::{BoardLists, BoardSeat, EnterAnswer, Hold, LaneId};
use hint_words::HintSeat;
use hop_board::Board;
use rtrb::Producer;
use run_controller::{close_empty, set_and_open};
use run_words::{HintWord, Shared, place_word};
use std::alloc::Global;
use std::process::Abort;
use std::sync::Wait;
use steer_base::{Busy, CpuMask, List, MAX_SOCKET_SIZE, OutOfMemory, PacketId, Why};

/// Of a choice the class, the processor that was wanted, the head that was looked at, the processor
/// that was chosen, and why.
pub type Shown = (Option<u32>, Option<u8>, Option<u32>, u8, Why);

/// The wire announces the queue of so many packets, by number from the first.
pub fn announce(
    rt: &impl Abort,
    shared: &Shared,
    wire: &mut HintSeat,
    queue: u8,
    first: u32,
    count: u32,
)
    requires table { wire.old.table ≡ shared.now.hints.table }
    requires words { words_for (length shared.now.given.packets) ≤ shared.now.hints.words }
    ensures table { wire.new.table ≡ shared.now.hints.table }
{
    for n in 0..count {
        let id = first.wrapping_add(n);
        assert!(rt; id < shared.given.packet_count());
        let number = HintWord::Queue(PacketId(id)).number();
        shared.hints.store(wire, number, place_word(queue));
    }
}

/// So many packets are given to the ring of a queue, by number from the first.
pub fn arrive(rt: &impl Abort, ring: &mut Producer<u32, Global>, first: u32, count: u32) {
    for n in 0..count {
        assert!(rt; ring.push(first.wrapping_add(n)).is_ok());
    }
}

/// Polls once.
pub fn poll<R: Wait>(rt: &R, board: &Board, shared: &Shared, worker: &mut Worker) -> bool
    requires { IsWorker board.now shared.now worker.old.poller worker.old.drain
        worker.old.seat worker.old.hint }
    ensures { IsWorker board.now shared.now worker.new.poller worker.new.drain
        worker.new.seat worker.new.hint }
{
    worker
        .poller
        .poll(rt, board, shared, &mut worker.seat, &mut worker.hint)
}

/// Drains once.
pub fn drain(board: &Board, shared: &Shared, worker: &mut Worker) -> bool
    requires { IsWorker board.now shared.now worker.old.poller worker.old.drain
        worker.old.seat worker.old.hint }
    ensures { IsWorker board.now shared.now worker.new.poller worker.new.drain
        worker.new.seat worker.new.hint }
{
    worker.drain.drain(board, &shared.given, &mut worker.seat)
}

// Drains once while another seat holds a lane; nothing if it does not get the lane.
fn drain_beside(
    board: &Board,
    shared: &Shared,
    worker: &mut Worker,
    other: &mut BoardSeat,
    lane: LaneId,
) -> Option<bool>
    requires worker { IsWorker board.now shared.now worker.old.poller worker.old.drain
        worker.old.seat worker.old.hint }
    requires other { Rests board.now other.old.number other.old }
    requires lane { FitsLane board.now.sizes lane }
    ensures worker { IsWorker board.now shared.now worker.new.poller worker.new.drain
        worker.new.seat worker.new.hint }
    ensures other { Rests board.now other.old.number other.new }
{
    match board.try_hold(other, lane) {
        Hold::Ok(held) => {
            let did = drain(board, shared, worker);
            board.give_back(other, held);
            Some(did)
        }
        Hold::Held { .. } => None,
    }
}

/// What a worker does, and what comes of it.
#[derive(Clone, Copy)]
pub enum Act {
    /// It polls, with this result, packet in hand and count of choices.
    Waits((bool, Option<PacketId>, u32)),
    /// It polls, and a packet is steered by this choice.
    Steers(Shown),
    /// The mark of a packet is this word.
    Marked(u32, u64),
    /// It drains, with this result, packet in hand and count of retired packets.
    Drains((bool, Option<PacketId>, u32)),
    /// It stores the processor of an entry of the socket flow table.
    Note(u32, u8),
}

/// Does what a table of worked steps says, and compares.
pub fn works<R: Wait + Abort>(
    rt: &R,
    board: &Board,
    shared: &Shared,
    worker: &mut Worker,
    acts: &[Act],
)
    requires { IsWorker board.now shared.now worker.old.poller worker.old.drain
        worker.old.seat worker.old.hint }
    ensures { IsWorker board.now shared.now worker.new.poller worker.new.drain
        worker.new.seat worker.new.hint }
{
    for act in acts {
        perform(rt, board, shared, worker, *act);
    }
}

fn perform<R: Wait + Abort>(rt: &R, board: &Board, shared: &Shared, worker: &mut Worker, act: Act)
    requires { IsWorker board.now shared.now worker.old.poller worker.old.drain
        worker.old.seat worker.old.hint }
    ensures { IsWorker board.now shared.now worker.new.poller worker.new.drain
        worker.new.seat worker.new.hint }
{
    match act {
        Act::Waits(wanted) => waits(rt, board, shared, worker, wanted),
        Act::Steers(wanted) => steers(rt, board, shared, worker, wanted),
        Act::Marked(id, wanted) => {
            assert!(rt; id < worker.poller.choices.room());
            assert!(rt; mark_of(board, shared, worker, id) == wanted);
        }
        Act::Drains(wanted) => drains(rt, board, shared, worker, wanted),
        Act::Note(entry, cpu) => {
            assert!(rt; entry < MAX_SOCKET_SIZE);
            note(board, shared, worker, entry, cpu);
        }
    }
}

// Polls once, with this result, packet in hand and count of choices.
fn waits<R: Wait + Abort>(
    rt: &R,
    board: &Board,
    shared: &Shared,
    worker: &mut Worker,
    wanted: (bool, Option<PacketId>, u32),
)
    requires { IsWorker board.now shared.now worker.old.poller worker.old.drain
        worker.old.seat worker.old.hint }
    ensures { IsWorker board.now shared.now worker.new.poller worker.new.drain
        worker.new.seat worker.new.hint }
{
    let did = poll(rt, board, shared, worker);
    assert!(rt; (did, worker.poller.hand, worker.poller.choices.len()) == wanted);
}

// Polls once, and a packet is steered by this choice.
fn steers<R: Wait + Abort>(
    rt: &R,
    board: &Board,
    shared: &Shared,
    worker: &mut Worker,
    wanted: Shown,
)
    requires { IsWorker board.now shared.now worker.old.poller worker.old.drain
        worker.old.seat worker.old.hint }
    ensures { IsWorker board.now shared.now worker.new.poller worker.new.drain
        worker.new.seat worker.new.hint }
{
    let index = worker.poller.choices.len();
    assert!(rt; poll(rt, board, shared, worker));
    assert!(rt; chosen(worker, index) == Some(wanted));
}

// Drains once, with this result, packet in hand and count of retired packets.
fn drains(
    rt: &impl Abort,
    board: &Board,
    shared: &Shared,
    worker: &mut Worker,
    wanted: (bool, Option<PacketId>, u32),
)
    requires { IsWorker board.now shared.now worker.old.poller worker.old.drain
        worker.old.seat worker.old.hint }
    ensures { IsWorker board.now shared.now worker.new.poller worker.new.drain
        worker.new.seat worker.new.hint }
{
    let did = drain(board, shared, worker);
    assert!(rt; (did, worker.drain.hand, worker.drain.retired) == wanted);
}

/// Drains once while another seat holds a lane, with this result, packet in hand and count of
/// retired packets.
pub fn drains_beside(
    rt: &impl Abort,
    board: &Board,
    shared: &Shared,
    worker: &mut Worker,
    other: &mut BoardSeat,
    lane: LaneId,
    wanted: (bool, Option<PacketId>, u32),
)
    requires worker { IsWorker board.now shared.now worker.old.poller worker.old.drain
        worker.old.seat worker.old.hint }
    requires other { Rests board.now other.old.number other.old }
    requires lane { FitsLane board.now.sizes lane }
    ensures worker { IsWorker board.now shared.now worker.new.poller worker.new.drain
        worker.new.seat worker.new.hint }
    ensures other { Rests board.now other.old.number other.new }
{
    let did = drain_beside(board, shared, worker, other, lane).expect(rt, "a free lane");
    assert!(rt; (did, worker.drain.hand, worker.drain.retired) == wanted);
}

/// Stores the processor of an entry of the socket flow table.
pub fn note(board: &Board, shared: &Shared, worker: &mut Worker, entry: u32, cpu: u8)
    requires worker { IsWorker board.now shared.now worker.old.poller worker.old.drain
        worker.old.seat worker.old.hint }
    requires entry { entry < MAX_SOCKET_SIZE }
    ensures { IsWorker board.now shared.now worker.new.poller worker.new.drain
        worker.new.seat worker.new.hint }
{
    shared.hints.store(
        &mut worker.hint,
        HintWord::Socket(entry).number(),
        place_word(cpu),
    );
}

// The mark of a packet.
fn mark_of(board: &Board, shared: &Shared, worker: &mut Worker, id: u32) -> u64
    requires worker { IsWorker board.now shared.now worker.old.poller worker.old.drain
        worker.old.seat worker.old.hint }
    requires id { id < worker.old.poller.choices.room }
    ensures { IsWorker board.now shared.now worker.new.poller worker.new.drain
        worker.new.seat worker.new.hint }
{
    shared
        .hints
        .load(&mut worker.hint, HintWord::Steered(PacketId(id)).number())
}

/// The word of a filter.
pub fn filter_at(board: &Board, shared: &Shared, worker: &mut Worker, place: u32) -> u64
    requires worker { IsWorker board.now shared.now worker.old.poller worker.old.drain
        worker.old.seat worker.old.hint }
    requires place { place < 8 }
    ensures { IsWorker board.now shared.now worker.new.poller worker.new.drain
        worker.new.seat worker.new.hint }
{
    shared
        .hints
        .load(&mut worker.hint, HintWord::Filter(place).number())
}

/// Tries a change while a seat is inside. Returns what was busy.
pub fn change_in_visit(
    rt: &impl Abort,
    board: &Board,
    closer: &mut BoardSeat,
    visitor: &mut BoardSeat,
    lanes: CpuMask,
) -> Option<Busy>
    requires seats { board.now.sizes.seats ≡ 4 }
    requires settings { 2 < length board.now.sizes.settings }
    requires closer { Rests board.now 3 closer.old }
    requires visitor { Rests board.now 2 visitor.old }
    requires opened { opened_by closer.old < 8 }
    ensures closer { Rests board.now 3 closer.new }
    ensures visitor { Rests board.now 2 visitor.new }
    ensures opened { opened_by closer.new ≤ opened_by closer.old + 1 }
{
    let EnterAnswer::Ok = board.enter(visitor) else {
        panic!(rt; "a closed gate")
    };
    let busy = change(board, closer, lanes, 2, 0);
    board.leave(visitor);
    busy
}

/// Changes a setting if these lanes are empty. Otherwise it returns what was busy.
pub fn change(board: &Board, closer: &mut BoardSeat, lanes: CpuMask, i: u32, v: u64) -> Option<Busy>
    requires seats { board.now.sizes.seats ≡ 4 }
    requires setting { i < length board.now.sizes.settings }
    requires closer { Rests board.now 3 closer.old }
    requires opened { opened_by closer.old < 8 }
    ensures closer { Rests board.now 3 closer.new }
    ensures opened { opened_by closer.new ≤ opened_by closer.old + 1 }
{
    match close_empty(board, closer, lanes) {
        None => {
            set_and_open(board, closer, i, v);
            None
        }
        Some(busy) => Some(busy),
    }
}

/// Changes a setting without a look at a lane, and polls twice behind the closed gate. Returns what
/// the polls returned, or what was busy.
pub fn change_beside<R: Wait>(
    rt: &R,
    board: &Board,
    shared: &Shared,
    closer: &mut BoardSeat,
    worker: &mut Worker,
    i: u32,
    v: u64,
) -> Result<(bool, bool), Busy>
    requires setting { i < length board.now.sizes.settings }
    requires closer { Rests board.now 3 closer.old }
    requires opened { opened_by closer.old < 8 }
    requires worker { IsWorker board.now shared.now worker.old.poller worker.old.drain
        worker.old.seat worker.old.hint }
    ensures closer { Rests board.now 3 closer.new }
    ensures opened { opened_by closer.new ≤ opened_by closer.old + 1 }
    ensures worker { IsWorker board.now shared.now worker.new.poller worker.new.drain
        worker.new.seat worker.new.hint }
{
    match close_empty(board, closer, CpuMask(0)) {
        None => {
            let first = poll(rt, board, shared, worker);
            let second = poll(rt, board, shared, worker);
            set_and_open(board, closer, i, v);
            Ok((first, second))
        }
        Some(busy) => Err(busy),
    }
}

// The choice of a poller with this index.
fn chosen(worker: &Worker, index: u32) -> Option<Shown> {
    let choice = worker.poller.choices.get(index)?.choice;
    Some((
        choice.class,
        choice.want,
        choice.head,
        choice.lane,
        choice.why,
    ))
}

// The seat of a worker that has no packet in hand.
fn seat_of(rt: &impl Abort, board: &Board, shared: &Shared, worker: Worker) -> BoardSeat
    requires { IsWorker board.now shared.now worker.poller worker.drain worker.seat worker.hint }
    ensures { IsDone board.now result }
{
    match worker.drain.hand {
        None => worker.seat,
        Some(_) => panic!(rt; "a packet in hand"),
    }
}

/// One seat more, which rests.
pub fn add_seat(
    board: &Board,
    seats: &mut Vec<BoardSeat>,
    seat: BoardSeat,
) -> Result<(), OutOfMemory>
    requires seats { All (IsDone board.now) seats.old.items }
    requires seat { IsDone board.now seat }
    ensures seats { OnOk result (All (IsDone board.now) seats.new.items) }
    ensures one_more { OnOk result (vec_len seats.new ≡ vec_len seats.old + 1) }
{
    let Ok(()) = seats.push(seat) else {
        return Err(OutOfMemory);
    };
    Ok(())
}

/// The lists of a board with all of its seats, which rest.
pub fn lists_of(board: Board, seats: Vec<BoardSeat>) -> BoardLists
    requires seats { All (IsDone board) seats.items }
    requires all { vec_len seats ≡ board.sizes.seats }
{
    board.close_board(seats)
}

/// What a board leaves when its workers have no packet in hand.
pub fn closed(rt: &impl Abort, alloc: Global, bench: Bench) -> BoardLists
    requires zero { IsWorker bench.board bench.shared bench.zero.poller bench.zero.drain
        bench.zero.seat bench.zero.hint }
    requires one { IsWorker bench.board bench.shared bench.one.poller bench.one.drain
        bench.one.seat bench.one.hint }
    requires visitor { Rests bench.board 2 bench.visitor }
    requires closer { Rests bench.board 3 bench.closer }
{
    let Bench {
        board,
        shared,
        zero,
        one,
        visitor,
        closer,
        wire: _,
        rings: _,
    } = bench;
    let mut seats = Vec::new(alloc);
    let zero = seat_of(rt, &board, &shared, zero);
    add_seat(&board, &mut seats, zero).expect(rt, "memory");
    let one = seat_of(rt, &board, &shared, one);
    add_seat(&board, &mut seats, one).expect(rt, "memory");
    add_seat(&board, &mut seats, visitor).expect(rt, "memory");
    add_seat(&board, &mut seats, closer).expect(rt, "memory");
    lists_of(board, seats)
}

/// The packets of a list among lists, none beyond them.
pub fn ids(lists: &List<List<PacketId>>, index: usize) -> &[PacketId] {
    match lists.as_slice().get(index) {
        Some(list) => list.as_slice(),
        None => &[],
    }
}
