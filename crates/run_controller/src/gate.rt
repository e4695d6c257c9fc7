//! A gate that is closed for a command.
ghost use Rattle.std.specs.Prelude.{◌≡◌, ◌<◌, true, length};
ghost use Rattle.hop_rule.specs.Boards.{gate_steps};
ghost use Rattle.hop_rule.specs.Gates.{openings};
ghost use Rattle.hop_rule.specs.declared.sizes.TheConstants.{MAX_OPENINGS};
ghost use Rattle.board_api.specs.Calls.Rights.{HasClosed, HasOpen, IsCloser, IsOutside};
ghost use Rattle.run_controller.specs.Gates.{ClosesEmpty, SetsAndOpens};

use board_api::{Board, BoardSeat, CloseAnswer, Emptied};
use steer_base::{Busy, CpuMask};

/// Closes the gate if no visit is open and these lanes are empty. Otherwise it returns what was
/// busy, and the gate is open.
pub fn close_empty<B: Board>(board: &B, seat: &mut BoardSeat, lanes: CpuMask) -> Option<Busy>
    requires table { seat.old.table ≡ (B.view board.now).table }
    requires closer { IsCloser (B.view board.now).sizes seat.old.number }
    requires outside { IsOutside seat.old.steps }
    requires open { HasOpen seat.old.steps }
    requires few { openings (gate_steps seat.old.steps) < MAX_OPENINGS }
    ensures { ClosesEmpty (B.view board.now).sizes lanes seat.old seat.new result }
{
    match board.try_close(seat) {
        CloseAnswer::Inside { n } => Some(Busy::Inside(n as u32)),
        CloseAnswer::Ok => match board.emptied(seat, lanes) {
            Emptied::Ok => None,
            Emptied::NotEmpty { lane, head, tail } => {
                board.open_gate(seat);
                Some(Busy::NotEmpty { lane, head, tail })
            }
        },
    }
}

/// Makes a setting, by its number, behind the gate that this seat has closed, and opens the gate.
pub fn set_and_open<B: Board>(board: &B, seat: &mut BoardSeat, i: u32, v: u64)
    requires table { seat.old.table ≡ (B.view board.now).table }
    requires closer { IsCloser (B.view board.now).sizes seat.old.number }
    requires closed { HasClosed seat.old.steps }
    requires emptied { seat.old.has_emptied ≡ true }
    requires within { i < length (B.view board.now).sizes.settings }
    ensures { SetsAndOpens i v seat.old seat.new }
{
    board.set(seat, i, v);
    board.open_gate(seat);
}
