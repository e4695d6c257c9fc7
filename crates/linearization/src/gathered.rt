//! The seats of a table that were taken back so far.
use crate::hands::Hands;
use atomic_table::Seat;
use std::marker::Model;

/// The seats of a table that were taken back so far, with which it is closed. It has all their
/// hands, and carries no slot.
#[derive(Drop)]
pub struct Gathered<S, D> {
    pub(crate) seat: Seat<S, Hands<D>>,
}

impl<S, D> Model for Gathered<S, D> {
    ghost use Rattle.std.specs.Prelude.{◌≡◌, []};
    ghost use Rattle.linearization.specs.Closings.{GatheredView, seats_with};

    ghost Value = { GatheredView D };

    ghost view = { λ g. record {
      table = g.seat.table_id;
      seats = seats_with g.seat.table_id g.seat.me.0.hands;
    } };

    ghost invariant = { λ g. g.seat.me.1 ≡ [] };
}
