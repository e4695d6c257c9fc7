//! What empties a middle lane into out lanes: the processor of a backlog, or a transmit queue.
ghost use Rattle.std.specs.Prelude.{◌≡◌, ◌<◌, ◌≤◌, None, Some, [], false, true};
ghost use Rattle.steer_base.specs.Counters.{number};
ghost use Rattle.board_api.specs.Calls.Rights.{Pulls};
ghost use Rattle.run_workers.specs.Hands.Deltas.{Serves, this_lane};
ghost use Rattle.steer_model.specs.State.Setup.{Setup};
ghost use Rattle.run_workers.specs.Hands.Drains.{FindsNone, IsDrain, Looks, Moves, Stops};
ghost use Rattle.run_workers.specs.Hands.Drains.{StopsHere, out_for, outs_of};

use board_api::{Board, BoardSeat, Hold, LaneId, Pull};
use steer_base::{PacketId, number_at};
use steer_model::Given;

/// Where the packets of a lane go.
#[derive(Clone, Copy, Debug, PartialEq, Eq)]
pub enum Exit {
    /// Each to the inbox of its application.
    Inboxes,
    /// All to the port.
    Port,
}

/// What empties a middle lane.
#[derive(Drop)]
pub struct Drain {
    /// The middle lane.
    pub lane: u8,
    /// Where its packets go.
    pub exit: Exit,
    /// The packet that was pulled and is not delivered yet.
    pub hand: Option<PacketId>,
    /// The number of packets that were retired.
    pub retired: u32,
    /// The number at which the lane's counters start.
    pub start: u32,
}

// The out lane of a packet.
fn out_of(exit: Exit, given: &Given, id: PacketId) -> u8
    ensures value { result ≡ out_for exit given.now id }
    ensures within { result < outs_of exit given.now }
{
    match exit {
        Exit::Inboxes => given.app_of(id).0,
        Exit::Port => 0,
    }
}

impl Drain {
    /// What empties a lane, whose counters start at the number `start`, and from which nothing was
    /// pulled yet.
    pub fn new(lane: u8, exit: Exit, start: u32) -> Drain
        ensures lane { result.lane ≡ lane }
        ensures exit { result.exit ≡ exit }
        ensures start { result.start ≡ start }
        ensures is { (given : Setup) → IsDrain given result [] }
    {
        Drain {
            lane,
            exit,
            hand: None,
            retired: 0,
            start,
        }
    }

    /// Empties the lane until nothing waits there, or another seat holds the lane or an out lane.
    /// Returns whether a packet was pulled or delivered.
    pub fn drain<B: Board>(&mut self, board: &B, given: &Given, seat: &mut BoardSeat) -> bool
        requires table { seat.old.table ≡ (B.view board.now).table }
        requires within { self.old.lane < (B.view board.now).sizes.lanes }
        requires mine { Pulls (B.view board.now).sizes seat.old.number self.old.lane }
        requires outs { outs_of self.old.exit given.now ≤ (B.view board.now).sizes.outs }
        requires is { IsDrain given.now self.old seat.old.steps }
        ensures is { IsDrain given.now self.new seat.new.steps }
        ensures serves { Serves (this_lane self.old.lane) seat.old seat.new }
        ensures stops { Stops (B.view board.now).sizes given.now self.new seat.old seat.new }
        ensures did { Moves self.old self.new result }
        ensures lane { self.new.lane ≡ self.old.lane }
        ensures exit { self.new.exit ≡ self.old.exit }
        ensures start { self.new.start ≡ self.old.start }
    {
        let mut did = false;
        for round in 0..given.packet_count() {
            let pulled = self.fill(board, given, seat);
            let Some(id) = self.hand else {
                return did;
            };
            let delivered = self.deliver(board, given, seat, id);
            did = did | pulled | delivered;
            if !delivered {
                return did;
            }
        }
        did
    }

    // Pulls the next packet if the hand is empty and the lane is not. Returns whether it did.
    fn fill<B: Board>(&mut self, board: &B, given: &Given, seat: &mut BoardSeat) -> bool
        requires table { seat.old.table ≡ (B.view board.now).table }
        requires within { self.old.lane < (B.view board.now).sizes.lanes }
        requires mine { Pulls (B.view board.now).sizes seat.old.number self.old.lane }
        requires is { IsDrain given.now self.old seat.old.steps }
        ensures is { IsDrain given.now self.new seat.new.steps }
        ensures serves { Serves (this_lane self.old.lane) seat.old seat.new }
        ensures none { self.new.hand ≡ None
            → StopsHere (B.view board.now).sizes given.now self.new seat.old seat.new }
        ensures empty { self.new.hand ≡ None → self.new ≡ self.old }
        ensures did { Moves self.old self.new result }
        ensures same { self.new ≡ record self.old { hand = self.new.hand } }
        ensures lane { self.new.lane ≡ self.old.lane }
        ensures exit { self.new.exit ≡ self.old.exit }
    {
        if self.hand.is_some() {
            return false;
        }
        if self.has_all(board, seat) {
            return false;
        }
        self.pull(board, given, seat);
        self.hand.is_some()
    }

    // Whether as many packets were retired as the lane has accepted, by one look at its tail. Only
    // this seat pulls from it, so then nothing waits.
    fn has_all<B: Board>(&self, board: &B, seat: &mut BoardSeat) -> bool
        requires table { seat.old.table ≡ (B.view board.now).table }
        requires within { self.now.lane < (B.view board.now).sizes.lanes }
        ensures looks { Looks self.now.lane seat.old seat.new }
        ensures all { result ≡ true → FindsNone (B.view board.now).sizes self.now.lane
            (number self.now.start self.now.retired) seat.old seat.new }
    {
        board.tail(seat, LaneId::Middle(self.lane)) == number_at(self.start, self.retired)
    }

    // Pulls the next packet, if one waits and no other seat holds the lane.
    fn pull<B: Board>(&mut self, board: &B, given: &Given, seat: &mut BoardSeat)
        requires table { seat.old.table ≡ (B.view board.now).table }
        requires within { self.old.lane < (B.view board.now).sizes.lanes }
        requires mine { Pulls (B.view board.now).sizes seat.old.number self.old.lane }
        requires is { IsDrain given.now self.old seat.old.steps }
        requires empty { self.old.hand ≡ None }
        ensures is { IsDrain given.now self.new seat.new.steps }
        ensures serves { Serves (this_lane self.old.lane) seat.old seat.new }
        ensures none { self.new.hand ≡ None → FindsNone (B.view board.now).sizes self.old.lane
            (number self.old.start self.old.retired) seat.old seat.new }
        ensures same { self.new ≡ record self.old { hand = self.new.hand } }
    {
        match board.try_hold(seat, LaneId::Middle(self.lane)) {
            Hold::Ok(held) => match board.pull(seat, held) {
                Pull::Took(id) => self.hand = Some(id),
                Pull::Empty => {}
            },
            Hold::Held { .. } => {}
        }
    }

    // Delivers the packet in hand and retires it, unless another seat holds its out lane. That an
    // out lane is full, or that more packets are retired than there are, does not come.
    fn deliver<B: Board>(
        &mut self,
        board: &B,
        given: &Given,
        seat: &mut BoardSeat,
        id: PacketId,
    ) -> bool
        requires table { seat.old.table ≡ (B.view board.now).table }
        requires within { self.old.lane < (B.view board.now).sizes.lanes }
        requires mine { Pulls (B.view board.now).sizes seat.old.number self.old.lane }
        requires is { IsDrain given.now self.old seat.old.steps }
        requires hand { self.old.hand ≡ Some id }
        requires outs { outs_of self.old.exit given.now ≤ (B.view board.now).sizes.outs }
        ensures is { IsDrain given.now self.new seat.new.steps }
        ensures serves { Serves (this_lane self.old.lane) seat.old seat.new }
        ensures stops { result ≡ false
            → Stops (B.view board.now).sizes given.now self.new seat.old seat.new }
        ensures did { Moves self.old self.new result }
        ensures same { self.new
            ≡ record self.old { hand = self.new.hand; retired = self.new.retired } }
    {
        if self.retired >= given.packet_count() {
            return false;
        }
        let out = out_of(self.exit, given, id);
        match board.try_hold(seat, LaneId::Out(out)) {
            Hold::Ok(held) => {
                if held.room() == 0 {
                    board.give_back(seat, held);
                    return false;
                }
                board.deliver(seat, held, self.lane);
                board.retire(seat, self.lane);
                self.hand = None;
                self.retired += 1;
                true
            }
            Hold::Held { .. } => false,
        }
    }
}
