//! The closing of both boards and of the hint words.
ghost use Rattle.std.specs.Prelude.{◌≡◌, ◌+◌, ◌<◌, ◌++◌, ◌∷◌, [], All, length};
ghost use Rattle.board_api.specs.Closings.Closings.{HasEnded};
ghost use Rattle.hint_words.specs.Closings.{HaveEnded};
ghost use Rattle.workers.specs.BoardEnds.{FillBoard, FillWords, IsLast};

use crate::spare::SpareSeats;
use board_api::{BoardLists, BoardSeat};
use hint_words::{HintSeat, Hints};
use hop_board::Board;
use run_words::Seats;
use steer_base::Journal;

/// Closes both boards and the hint words with the seats of all workers, of the controller, and of
/// the wire at the words. Returns the lists of the receive board and of the transmit board.
pub fn close_all(
    rx: Board,
    tx: Board,
    hints: Hints,
    seats: SpareSeats,
    controller: Seats,
    wire: HintSeat,
) -> (BoardLists, BoardLists)
    requires rx { FillBoard rx seats.rx controller.rx }
    requires tx { FillBoard tx seats.tx controller.tx }
    requires hints { FillWords hints seats.hints controller.hint wire }
    ensures rx { HasEnded rx.sizes (seats.rx.items ++ controller.rx ∷ []) result.0 }
    ensures tx { HasEnded tx.sizes (seats.tx.items ++ controller.tx ∷ []) result.1 }
    ensures words { HaveEnded (seats.hints.items ++ controller.hint ∷ wire ∷ []) }
{
    close_words(hints, seats.hints, controller.hint, wire);
    let rx_lists = close_board(rx, seats.rx, controller.rx);
    let tx_lists = close_board(tx, seats.tx, controller.tx);
    (rx_lists, tx_lists)
}

// Closes a board with the seats of all workers and that of the controller.
fn close_board(board: Board, mut seats: Journal<BoardSeat>, last: BoardSeat) -> BoardLists
    requires room { length seats.items < seats.room }
    requires all { length seats.items + 1 ≡ board.sizes.seats }
    requires seats { All (λ s. IsLast board s) seats.items }
    requires last { IsLast board last }
    ensures { HasEnded board.sizes (seats.items ++ last ∷ []) result }
{
    seats.push(last);
    board.close_board(seats.into_vec())
}

// Closes the hint words with the seats of all workers, of the controller and of the wire.
fn close_words(hints: Hints, mut seats: Journal<HintSeat>, controller: HintSeat, wire: HintSeat)
    requires room { length seats.items + 1 < seats.room }
    requires all { length seats.items + 2 ≡ hints.seats }
    requires seats { All (λ s. s.table ≡ hints.table) seats.items }
    requires controller { controller.table ≡ hints.table }
    requires wire { wire.table ≡ hints.table }
    ensures { HaveEnded (seats.items ++ controller ∷ wire ∷ []) }
{
    seats.push(controller);
    seats.push(wire);
    hints.close_hints(seats.into_vec());
}
