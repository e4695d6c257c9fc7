//! The rule of a board's table: its words and slots are what one lawful order of steps leaves.
use hop_rule::{BoardSizes, BoardStep, Slot};
use linearization::StepRule;

/// The step rule of a board.
pub struct BoardRule;

impl StepRule<Option<Slot>, BoardStep, BoardSizes> for BoardRule {
    ghost use Rattle.hop_board.specs.Tables.{HasBoard};

    ghost seats = { λ about. about.seats };

    ghost lawful = { HasBoard };
}
