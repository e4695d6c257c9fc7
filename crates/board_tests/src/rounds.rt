//! What a thread does with one packet.
ghost use Rattle.std.specs.Prelude.{◌≡◌, ◌<◌, IfOk, length, Some};
ghost use Rattle.hop_rule.specs.Gates.{outside};
ghost use Rattle.hop_rule.specs.Lanes.{gave};
ghost use Rattle.board_api.specs.Calls.HeldLanes.{FitsLane};
ghost use Rattle.board_api.specs.Calls.Rights.{Pulls};
ghost use Rattle.board_tests.specs.Stands.{HasGiven, HasTaken, IsIn, SeatIsOutside, SeatIs};
ghost use Rattle.board_tests.specs.Stands.{hand_of};

use board_api::{Board, BoardSeat, EnterAnswer, Hold, LaneId, Pull};
use steer_base::{OutOfMemory, PacketId, Put};

/// How often a thread tries an out lane before it gives up.
const TRIES: u32 = 1 << 26;

/// A lane is held at each try, or there is no memory for a note.
#[derive(Debug, Drop)]
pub struct Stuck;

impl From<OutOfMemory> for Stuck {
    fn from(_refused: OutOfMemory) -> Stuck {
        Stuck
    }
}

/// What a visit read, and what became of its packet where the lane was free.
#[derive(Debug, PartialEq, Drop)]
pub struct Seen {
    pub setting: u64,
    pub head: u32,
    pub answer: Option<Put>,
}

/// One visit, for one packet.
pub fn visit<B: Board>(board: &B, seat: &mut BoardSeat, lane: u8, id: PacketId) -> Option<Seen>
    requires lane { lane < (B.view board.now).sizes.lanes }
    requires id { id < (B.view board.now).sizes.room }
    requires setting { 0 < length (B.view board.now).sizes.settings }
    requires stands { SeatIsOutside (B.view board.now) seat.old.number seat.old }
    ensures { SeatIsOutside (B.view board.now) seat.old.number seat.new }
{
    match board.enter(seat) {
        EnterAnswer::Ok => {}
        EnterAnswer::Closed { word: _ } => return None,
    }
    let setting = board.setting(seat, 0);
    let head = board.weigh(seat, lane);
    let answer = offer(board, seat, lane, id);
    board.leave(seat);
    Some(Seen {
        setting,
        head,
        answer,
    })
}

// Puts the packet, where the lane is free and has room.
fn offer<B: Board>(board: &B, seat: &mut BoardSeat, lane: u8, id: PacketId) -> Option<Put>
    requires lane { lane < (B.view board.now).sizes.lanes }
    requires id { id < (B.view board.now).sizes.room }
    requires stands { IsIn (B.view board.now) seat.old.number seat.old }
    ensures { IsIn (B.view board.now) seat.old.number seat.new }
{
    let held = match board.try_hold(seat, LaneId::Middle(lane)) {
        Hold::Ok(held) => held,
        Hold::Held { word: _ } => return None,
    };
    if held.room() == 0 {
        board.give_back(seat, held);
        return None;
    }
    Some(board.put(seat, held, id, None))
}

/// The next packet of a lane, which the seat serves, with its place in an out lane; none where the
/// lane is held or nothing waits in it.
pub fn serve<B: Board>(
    board: &B,
    seat: &mut BoardSeat,
    lane: u8,
    out: u8,
) -> Result<Option<(PacketId, u32)>, Stuck>
    requires lane { lane < (B.view board.now).sizes.lanes }
    requires out { out < (B.view board.now).sizes.outs }
    requires mine { Pulls (B.view board.now).sizes seat.old.number lane }
    requires stands { SeatIsOutside (B.view board.now) seat.old.number seat.old }
    ensures { IfOk result (λ _. SeatIsOutside (B.view board.now) seat.old.number seat.new) }
{
    let Some(id) = take(board, seat, lane) else {
        return Ok(None);
    };
    let Some(place) = give_soon(board, seat, lane, id, out) else {
        return Err(Stuck);
    };
    raise(board, seat, lane);
    Ok(Some((id, place)))
}

// Pulls a packet, where the lane is free and one waits.
fn take<B: Board>(board: &B, seat: &mut BoardSeat, lane: u8) -> Option<PacketId>
    requires lane { lane < (B.view board.now).sizes.lanes }
    requires mine { Pulls (B.view board.now).sizes seat.old.number lane }
    requires stands { SeatIsOutside (B.view board.now) seat.old.number seat.old }
    ensures { HasTaken (B.view board.now) seat.old.number lane result seat.new }
{
    let held = match board.try_hold(seat, LaneId::Middle(lane)) {
        Hold::Ok(held) => held,
        Hold::Held { word: _ } => return None,
    };
    match board.pull(seat, held) {
        Pull::Took(id) => Some(id),
        Pull::Empty => None,
    }
}

// Delivers the packet, as soon as the out lane is free.
fn give_soon<B: Board>(
    board: &B,
    seat: &mut BoardSeat,
    lane: u8,
    id: PacketId,
    out: u8,
) -> Option<u32>
    requires lane { lane < (B.view board.now).sizes.lanes }
    requires out { out < (B.view board.now).sizes.outs }
    requires mine { Pulls (B.view board.now).sizes seat.old.number lane }
    requires stands { HasTaken (B.view board.now) seat.old.number lane (Some id) seat.old }
    ensures { HasGiven (B.view board.now) seat.old.number lane id result seat.new }
{
    for _ in 0..TRIES {
        if let Some(place) = give(board, seat, lane, id, out) {
            return Some(place);
        }
    }
    None
}

// Delivers the packet, where the out lane is free and has room.
fn give<B: Board>(board: &B, seat: &mut BoardSeat, lane: u8, id: PacketId, out: u8) -> Option<u32>
    requires lane { lane < (B.view board.now).sizes.lanes }
    requires out { out < (B.view board.now).sizes.outs }
    requires mine { Pulls (B.view board.now).sizes seat.old.number lane }
    requires stands { HasTaken (B.view board.now) seat.old.number lane (Some id) seat.old }
    ensures { HasGiven (B.view board.now) seat.old.number lane id result seat.new }
{
    let held = match board.try_hold(seat, LaneId::Out(out)) {
        Hold::Ok(held) => held,
        Hold::Held { word: _ } => return None,
    };
    if held.room() == 0 {
        board.give_back(seat, held);
        return None;
    }
    Some(board.deliver(seat, held, lane))
}

// Retires the packet that was delivered.
fn raise<B: Board>(board: &B, seat: &mut BoardSeat, lane: u8)
    requires lane { lane < (B.view board.now).sizes.lanes }
    requires mine { Pulls (B.view board.now).sizes seat.old.number lane }
    requires stands { SeatIs (B.view board.now) seat.old.number outside 0 (hand_of lane gave)
        seat.old }
    ensures { SeatIsOutside (B.view board.now) seat.old.number seat.new }
{
    board.retire(seat, lane);
}

/// The tail of a lane, which may be held.
pub fn tail_of<B: Board>(board: &B, seat: &mut BoardSeat, lane: LaneId) -> u32
    requires lane { FitsLane (B.view board.now).sizes lane }
    requires stands { SeatIsOutside (B.view board.now) seat.old.number seat.old }
    ensures { SeatIsOutside (B.view board.now) seat.old.number seat.new }
{
    board.tail(seat, lane)
}

/// How many packets more fit a lane, where it is free.
pub fn room_of<B: Board>(board: &B, seat: &mut BoardSeat, lane: u8) -> Option<u32>
    requires lane { lane < (B.view board.now).sizes.lanes }
    requires stands { SeatIsOutside (B.view board.now) seat.old.number seat.old }
    ensures { SeatIsOutside (B.view board.now) seat.old.number seat.new }
{
    let held = match board.try_hold(seat, LaneId::Middle(lane)) {
        Hold::Ok(held) => held,
        Hold::Held { word: _ } => return None,
    };
    let room = held.room();
    board.give_back(seat, held);
    Some(room)
}

/// The packet at an index of an out lane, where the lane is free and has it.
pub fn read<B: Board>(board: &B, seat: &mut BoardSeat, out: u8, n: u32) -> Option<PacketId>
    requires out { out < (B.view board.now).sizes.outs }
    requires stands { SeatIsOutside (B.view board.now) seat.old.number seat.old }
    ensures { SeatIsOutside (B.view board.now) seat.old.number seat.new }
{
    let held = match board.try_hold(seat, LaneId::Out(out)) {
        Hold::Ok(held) => held,
        Hold::Held { word: _ } => return None,
    };
    board.read_out(seat, held, n)
}
