//! A lane that is tried for until it is taken.
ghost use Rattle.std.specs.Prelude.{◌≡◌, ◌<◌};
ghost use Rattle.run_workers.specs.Hands.Deltas.{TakesLane};

use board_api::{Board, BoardSeat, HeldLane, Hold, LaneId};
use std::sync::Wait;

/// Takes a middle lane: tries until no other seat holds it. A lane without room is given back and
/// tried again; a lane has room for all packets of a run, so none is without.
pub fn hold<R: Wait, B: Board>(rt: &R, board: &B, seat: &mut BoardSeat, lane: u8) -> HeldLane
    requires table { seat.old.table ≡ (B.view board.now).table }
    requires within { lane < (B.view board.now).sizes.lanes }
    ensures { TakesLane (B.view board.now).sizes lane seat.old seat.new result }
{
    for _ in rt.forever() {
        match board.try_hold(seat, LaneId::Middle(lane)) {
            Hold::Ok(held) => {
                if held.room() > 0 {
                    return held;
                }
                board.give_back(seat, held);
            }
            Hold::Held { .. } => {}
        }
    }
    unreachable!()
}
