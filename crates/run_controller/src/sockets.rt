//! The size of the socket flow table.
ghost use Rattle.std.specs.Prelude.{◌≡◌, ◌<◌, ◌≤◌, true, length};
ghost use Rattle.steer_base.specs.declared.limits.TheConstants.{MAX_SOCKET_SIZE};
ghost use Rattle.hop_rule.specs.declared.sizes.TheConstants.{MAX_OPENINGS};
ghost use Rattle.board_api.specs.Calls.Rights.{HasClosed};
ghost use Rattle.run_controller.specs.Gated.{IsGated};
ghost use Rattle.run_controller.specs.Attempts.{ClearsByAnswer, ClearsSockets};
ghost use Rattle.run_controller.specs.Stages.{IsSeated, opened_by};

use crate::change::Change;
use crate::gate::{close_empty, set_and_open};
use board_api::{Board, BoardSeat};
use hint_words::HintSeat;
use run_words::{HintWord, Shared};
use steer_base::{Answer, CpuMask, MAX_SOCKET_SIZE};

/// Tries to set the size of the socket flow table: closes the gate, finds these lanes empty, clears
/// the table, makes the change and opens the gate. If visits are open or a lane is not empty,
/// nothing is cleared or set.
pub fn try_socket_size<B: Board>(
    board: &B,
    shared: &Shared,
    seat: &mut BoardSeat,
    hint: &mut HintSeat,
    lanes: CpuMask,
    change: Change,
) -> Answer
    requires seated { IsSeated (B.view board.now) seat.old }
    requires few { opened_by seat.old < MAX_OPENINGS }
    requires within { change.number < length (B.view board.now).sizes.settings }
    requires hint_table { hint.old.table ≡ shared.now.hints.table }
    requires words { MAX_SOCKET_SIZE ≤ shared.now.hints.words }
    ensures gated { IsGated (B.view board.now).sizes lanes change.number change.value
        seat.old seat.new result }
    ensures clears { ClearsByAnswer result hint.old hint.new }
{
    match close_empty(board, seat, lanes) {
        Some(busy) => Answer::Busy(busy),
        None => {
            clear_sockets(shared, seat, hint);
            set_and_open(board, seat, change.number, change.value);
            Answer::Done
        }
    }
}

// Clears all words of the socket flow table while the gate is closed and the lanes are empty.
fn clear_sockets(shared: &Shared, seat: &BoardSeat, hint: &mut HintSeat)
    requires closed { HasClosed seat.now.steps }
    requires emptied { seat.now.has_emptied ≡ true }
    requires table { hint.old.table ≡ shared.now.hints.table }
    requires words { MAX_SOCKET_SIZE ≤ shared.now.hints.words }
    ensures { ClearsSockets hint.old hint.new }
{
    for entry in 0..MAX_SOCKET_SIZE {
        shared
            .hints
            .store(hint, HintWord::Socket(entry).number(), 0);
    }
}
