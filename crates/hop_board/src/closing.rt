//! The end of a board.
ghost use Rattle.std.specs.Prelude.{◌≡◌, ◌<◌, ◌≤◌, [], All, map, length};
ghost use Rattle.std.specs.Vec.{vec_len};
ghost use Rattle.board_api.specs.Closings.Closings.{HasEnded, IsAtRest};
ghost use Rattle.board_api.specs.Seats.{ordered_seat};

use crate::board::Board;
use crate::left::lists_of;
use crate::rule::BoardRule;
use atomic_table::Shared;
use board_api::{BoardLists, BoardSeat};
use hop_rule::{BoardSizes, BoardStep, Slot};
use linearization::{Gathered, Hands, OneOrder};

impl Board {
    /// Ends the board with all of its seats, each outside, with no lane held and no packet in hand,
    /// and returns the lists of its lanes.
    pub fn close_board(self, seats: Vec<BoardSeat>) -> BoardLists
        requires table { All (λ s. s.table ≡ self.table) seats.items }
        requires all { vec_len seats ≡ self.sizes.seats }
        requires rest { All (λ s. IsAtRest self.sizes s.steps) seats.items }
        ensures { HasEnded self.sizes seats.items result }
    {
        let Board {
            table,
            sizes,
            spare,
        } = self;
        let all = gathered(&table.shared, seats);
        let mut closed = all.finish(table);
        let lists = lists_of(&mut closed, &sizes, spare);
        closed.free();
        lists
    }
}

// All seats of a board, taken back.
fn gathered(
    shared: &Shared<Option<Slot>, Hands<BoardStep>, BoardSizes, OneOrder<BoardRule>>,
    mut seats: Vec<BoardSeat>,
) -> Gathered<Option<Slot>, BoardStep>
    requires words { 0 < shared.now.table_id.words }
    requires table { All (λ s. s.table ≡ shared.now.table_id) seats.items }
    ensures table { result.table ≡ shared.now.table_id }
    ensures all { result.seats ≡ map ordered_seat seats.items }
{
    let mut all = Gathered::sit(shared);
    while let Some(next) = seats.pop() {
        let BoardSeat { seat, .. } = next;
        all.join(shared, seat);
    }
    all
}
