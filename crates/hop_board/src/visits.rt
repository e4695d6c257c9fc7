//! Visits, and reads during a visit.
ghost use Rattle.std.specs.Prelude.{◌≡◌, ◌≢◌, ◌<◌, ◌∷◌, [], length};
ghost use Rattle.hop_rule.specs.Boards.{gate_steps};
ghost use Rattle.hop_rule.specs.Gates.{outside, visit};
ghost use Rattle.board_api.specs.Calls.Rights.{HasOpen, IsCloser, IsInside, IsOutside, MayRead};
ghost use Rattle.board_api.specs.Seats.{Adds};
ghost use Rattle.board_api.specs.Calls.Results.{EnterTells, WeighTells};
ghost use Rattle.hop_board.specs.Makings.{FindsOpen, entering};

use crate::board::{Board, WordSeat};
use crate::places::Word;
use board_api::{BoardSeat, EnterAnswer, GateWord, HeadWord};
use hop_rule::{BoardStep, GateStep};
use std::marker::Brand;

impl Board {
    /// Begins a visit if the gate is open. If it is closed the visitor backs out in the same call;
    /// the closer never finds it so, since it alone closes it.
    pub fn enter(&self, seat: &mut BoardSeat) -> EnterAnswer
        requires table { seat.old.table ≡ self.now.table }
        requires outside { IsOutside seat.old.steps }
        requires open { HasOpen seat.old.steps }
        ensures step { EnterTells seat.old seat.new result }
        ensures closer { IsCloser self.now.sizes seat.old.number → result ≡ EnterAnswer.Ok }
    {
        let word = self.step_in(&mut seat.seat);
        if GateWord(word).is_closed() {
            self.step_out(&mut seat.seat);
            return EnterAnswer::Closed { word };
        }
        seat.visit = GateWord(word).openings();
        EnterAnswer::Ok
    }

    /// Ends the visit.
    pub fn leave(&self, seat: &mut BoardSeat)
        requires table { seat.old.table ≡ self.now.table }
        requires inside { IsInside seat.old.steps }
        ensures { Adds (BoardStep.Gate GateStep.Left ∷ []) seat.old seat.new }
    {
        self.step_out(&mut seat.seat);
    }

    /// Reads a setting, by its number from 0.
    pub fn setting(&self, seat: &mut BoardSeat, i: u32) -> u64
        requires table { seat.old.table ≡ self.now.table }
        requires inside { MayRead seat.old.steps }
        requires within { i < length self.now.sizes.settings }
        ensures { Adds (BoardStep.Gate (GateStep.Read i result) ∷ []) seat.old seat.new }
    {
        self.load(&mut seat.seat, Word::Setting(i))
    }

    /// Reads the head of a middle lane, a counter number.
    pub fn weigh(&self, seat: &mut BoardSeat, lane: u8) -> u32
        requires table { seat.old.table ≡ self.now.table }
        requires inside { MayRead seat.old.steps }
        requires within { lane < self.now.sizes.lanes }
        ensures { WeighTells lane seat.old seat.new result }
    {
        HeadWord(self.load(&mut seat.seat, Word::Head(lane))).head()
    }

    // Adds a visit to the gate's word, and returns it as it was, which is marked if the gate is
    // closed.
    fn step_in(&self, seat: &mut WordSeat) -> u64
        requires table { seat.old.table ≡ self.now.table }
        requires outside { IsOutside seat.old.steps }
        requires open { HasOpen seat.old.steps }
        ensures step { seat.new ≡ record seat.old { steps = entering result ∷ seat.old.steps } }
        ensures open { FindsOpen self.now.sizes seat.old.number result }
    {
        self.add_as::<Brand>(seat, Word::Gate, 1)
    }

    // Subtracts a visit from the gate's word.
    fn step_out(&self, seat: &mut WordSeat)
        requires table { seat.old.table ≡ self.now.table }
        requires inside { visit (gate_steps seat.old.steps) ≢ outside }
        ensures { seat.new ≡ record seat.old {
          steps = BoardStep.Gate GateStep.Left ∷ seat.old.steps;
        } }
    {
        self.sub_as::<Brand>(seat, Word::Gate, 1);
    }
}
