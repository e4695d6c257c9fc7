//! A seat, the right of one thread to make steps.
use crate::hands::Hands;
use atomic_table::Seat;
use std::marker::Model;

/// The right of one thread to make steps at a table. It has a number, knows its own steps, and
/// carries no slot between calls.
#[derive(Drop)]
pub struct OrderedSeat<S, D> {
    /// The seat of the table of words.
    pub seat: Seat<S, Hands<D>>,
}

impl<S, D> Model for OrderedSeat<S, D> {
    ghost use Rattle.std.specs.Prelude.{◌≡◌, []};
    ghost use Rattle.linearization.specs.Views.{one, number_in, steps_in};
    ghost use Rattle.linearization.specs.Seats.{SeatView, seat_view};

    ghost Value = { SeatView D };

    ghost view = { λ s. seat_view s.seat.table_id (number_in s.seat.me.0) (steps_in s.seat.me.0) };

    ghost invariant = { λ s. s.seat.me ≡ (one (number_in s.seat.me.0) (steps_in s.seat.me.0), []) };
}
