//! A seat at a board.
ghost use Rattle.std.specs.Prelude.{◌≡◌};
ghost use Rattle.hop_rule.specs.Boards.{gate_steps};
ghost use Rattle.hop_rule.specs.Gates.{visit_number};

use hop_rule::{BoardStep, Slot};
use linearization::OrderedSeat;
use std::marker::Model;

/// The right of one thread to make steps on a board. Contracts see its table, its number, its own
/// steps, and whether it has found lanes empty since it closed the gate. Its other fields follow
/// from its steps.
#[derive(Drop)]
pub struct BoardSeat {
    /// The seat of the table of words.
    pub seat: OrderedSeat<Option<Slot>, BoardStep>,
    /// For each middle lane the packet that this seat pulled last.
    pub pulled: [u32; 32],
    /// How many times it has opened the gate.
    pub openings: u32,
    /// The number of its last visit.
    pub visit: u32,
    /// Whether it has found lanes empty since it last closed the gate, and not opened it since.
    pub has_emptied: bool,
}

impl Model for BoardSeat {
    ghost use Rattle.board_api.specs.Seats.{BoardSeatView, KeepsSteps};

    ghost Value = { BoardSeatView };

    ghost view = { λ s. record {
      table = s.seat.table;
      number = s.seat.number;
      steps = s.seat.steps;
      has_emptied = s.has_emptied;
    } };

    ghost invariant = { λ s. KeepsSteps s.seat.steps s.pulled s.openings s.visit };
}

impl BoardSeat {
    /// The number of the seat's visit, or of its last one while it is outside: how many times the
    /// gate had been opened when the visit began, and 0 before the first visit. Visits of one
    /// number read the same settings.
    pub fn visit_number(&self) -> u32
        ensures { result ≡ visit_number (gate_steps self.now.steps) }
    {
        self.visit
    }
}
