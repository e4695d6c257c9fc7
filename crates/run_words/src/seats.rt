//! The seats of a thread.
use board_api::BoardSeat;
use hint_words::HintSeat;

/// The seats of a thread of a run: of a worker, or of the controller, which at each board has the
/// last seat, that closes the gate.
#[derive(Drop)]
pub struct Seats {
    /// At the receive board.
    pub rx: BoardSeat,
    /// At the transmit board.
    pub tx: BoardSeat,
    /// At the hint words.
    pub hint: HintSeat,
}
