//! One try of a command behind a gate.
ghost use Rattle.std.specs.Prelude.{◌≡◌, ◌<◌, length};
ghost use Rattle.hop_rule.specs.Boards.{gate_steps};
ghost use Rattle.hop_rule.specs.Gates.{openings};
ghost use Rattle.hop_rule.specs.declared.sizes.TheConstants.{MAX_OPENINGS};
ghost use Rattle.board_api.specs.Calls.Rights.{HasOpen, IsCloser, IsOutside};
ghost use Rattle.run_controller.specs.Gated.{IsGated};

use crate::gate::{close_empty, set_and_open};
use board_api::{Board, BoardSeat};
use steer_base::{Answer, CpuMask};

/// Tries a command that makes one setting behind a gate, by the setting's number: closes the gate,
/// finds these lanes empty, makes the setting and opens the gate. If visits are open or a lane is
/// not empty, nothing is set, and the answer says what was busy. The gate is open in either case.
pub fn try_gated<B: Board>(
    board: &B,
    seat: &mut BoardSeat,
    lanes: CpuMask,
    number: u32,
    value: u64,
) -> Answer
    requires table { seat.old.table ≡ (B.view board.now).table }
    requires closer { IsCloser (B.view board.now).sizes seat.old.number }
    requires outside { IsOutside seat.old.steps }
    requires open { HasOpen seat.old.steps }
    requires few { openings (gate_steps seat.old.steps) < MAX_OPENINGS }
    requires within { number < length (B.view board.now).sizes.settings }
    ensures gated { IsGated (B.view board.now).sizes lanes number value seat.old seat.new result }
    ensures outside { IsOutside seat.new.steps }
    ensures open { HasOpen seat.new.steps }
{
    match close_empty(board, seat, lanes) {
        Some(busy) => Answer::Busy(busy),
        None => {
            set_and_open(board, seat, number, value);
            Answer::Done
        }
    }
}
