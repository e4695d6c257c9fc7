//! A board of atomic words.
use crate::rule::BoardRule;
use crate::spare::Spare;
use atomic_table::Table;
use hop_rule::{BoardSizes, BoardStep, Slot};
use linearization::{Hands, OneOrder, OrderedSeat};
use std::alloc::Global;
use std::marker::Model;

/// A seat at the words of a board.
pub(crate) type WordSeat = OrderedSeat<Option<Slot>, BoardStep>;

/// The lanes of a hop in their slots, with an atomic word for each lane, for each head, for the
/// gate and for each setting.
#[derive(Drop)]
pub struct Board {
    pub(crate) table: Table<
        Option<Slot>,
        Hands<BoardStep>,
        BoardSizes,
        OneOrder<BoardRule>,
        Global,
    >,
    pub(crate) sizes: BoardSizes,
    pub(crate) spare: Spare,
}

impl Model for Board {
    ghost use Rattle.board_api.specs.Views.{BoardView};
    ghost use Rattle.hop_board.specs.Closed.{IsBoard};

    ghost Value = { BoardView };

    ghost view = { λ b. record { table = b.table.shared.table_id; sizes = b.sizes } };

    ghost invariant = { λ b.
        IsBoard b.table.shared.key b.table.shared.table_id b.sizes b.spare };
}
