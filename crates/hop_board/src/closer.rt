//! The calls of the closer: it closes the gate, looks at lanes, changes settings and opens it.
ghost use Rattle.std.specs.Prelude.{◌≡◌, ◌∷◌, ◌<◌, ◌*◌, ◌^◌, [], Bool, true, length};
ghost use Rattle.hop_rule.specs.Boards.{gate_steps};
ghost use Rattle.hop_rule.specs.Gates.{openings};
ghost use Rattle.board_api.specs.Calls.Rights.{HasClosed, HasOpen, IsCloser, IsOutside};
ghost use Rattle.board_api.specs.Seats.{Adds};
ghost use Rattle.board_api.specs.StepWords.{low_half, tail_in};
ghost use Rattle.board_api.specs.Calls.Results.{CloseTells, EmptiedTells, Looked, OpenTells};
ghost use Rattle.board_api.specs.Calls.Results.{looking};
ghost use Rattle.hop_board.specs.Makings.{IsBusy, closing};
ghost use Rattle.hop_board.specs.Named.{board_seat};
ghost use Rattle.hop_board.specs.Emptying.{emptied_after};
ghost use Rattle.hop_rule.specs.declared.sizes.TheConstants.{MAX_OPENINGS};

use crate::board::{Board, WordSeat};
use crate::places::Word;
use board_api::{BoardSeat, CloseAnswer, Emptied, GateWord, HeadWord, LaneId, LaneWord};
use hop_rule::{BoardStep, GateStep};
use std::marker::Brand;
use steer_base::CpuMask;

impl Board {
    /// Closes the gate if no visit is open, counting those that found a closed gate and have not
    /// backed out yet.
    pub fn try_close(&self, seat: &mut BoardSeat) -> CloseAnswer
        requires table { seat.old.table ≡ self.now.table }
        requires closer { IsCloser self.now.sizes seat.old.number }
        requires outside { IsOutside seat.old.steps }
        requires open { HasOpen seat.old.steps }
        requires few { openings (gate_steps seat.old.steps) < MAX_OPENINGS }
        ensures { CloseTells self.now.sizes seat.old seat.new result }
    {
        let free = GateWord::empty(seat.openings).0;
        let word = self.shut(&mut seat.seat, free);
        if word != free {
            return CloseAnswer::Inside {
                n: GateWord(word).visits() as u64,
            };
        }
        seat.has_emptied = false;
        CloseAnswer::Ok
    }

    /// Looks at the middle lanes of a set, ascending, up to the first that is not empty. Numbers
    /// that are not those of a lane are skipped.
    pub fn emptied(&self, seat: &mut BoardSeat, lanes: CpuMask) -> Emptied
        requires table { seat.old.table ≡ self.now.table }
        requires closer { IsCloser self.now.sizes seat.old.number }
        requires closed { HasClosed seat.old.steps }
        ensures { EmptiedTells self.now.sizes lanes seat.old seat.new result }
    {
        let answer = self.look_over(&mut seat.seat, lanes);
        if let Emptied::Ok = answer {
            seat.has_emptied = true;
        }
        answer
    }

    /// Changes a setting, if lanes were found empty since the gate was closed.
    pub fn set(&self, seat: &mut BoardSeat, i: u32, v: u64)
        requires table { seat.old.table ≡ self.now.table }
        requires closer { IsCloser self.now.sizes seat.old.number }
        requires closed { HasClosed seat.old.steps }
        requires emptied { seat.old.has_emptied ≡ true }
        requires within { i < length self.now.sizes.settings }
        ensures { Adds (BoardStep.Gate (GateStep.Set i v) ∷ []) seat.old seat.new }
    {
        self.change(&mut seat.seat, i, v);
    }

    /// Opens the gate.
    pub fn open_gate(&self, seat: &mut BoardSeat)
        requires table { seat.old.table ≡ self.now.table }
        requires closer { IsCloser self.now.sizes seat.old.number }
        requires closed { HasClosed seat.old.steps }
        ensures { OpenTells seat.old seat.new }
    {
        self.unmark(&mut seat.seat);
        seat.openings += 1;
        seat.has_emptied = false;
    }

    // Marks the gate's word if it is that of an empty gate, and returns it as it was.
    fn shut(&self, seat: &mut WordSeat, free: u64) -> u64
        requires table { seat.old.table ≡ self.now.table }
        requires closer { IsCloser self.now.sizes seat.old.number }
        requires outside { IsOutside seat.old.steps }
        requires open { HasOpen seat.old.steps }
        requires few { openings (gate_steps seat.old.steps) < MAX_OPENINGS }
        requires free { free ≡ openings (gate_steps seat.old.steps) * 2 ^ 32 }
        ensures step { seat.new ≡ record seat.old { steps = closing free result ∷ seat.old.steps } }
        ensures busy { IsBusy self.now.sizes free result }
    {
        self.exchange_as::<Brand>(seat, Word::Gate, free, free + (1 << 31))
    }

    // Removes the mark from the gate's word and counts one more opening.
    fn unmark(&self, seat: &mut WordSeat)
        requires table { seat.old.table ≡ self.now.table }
        requires closer { IsCloser self.now.sizes seat.old.number }
        requires closed { HasClosed seat.old.steps }
        ensures step { seat.new ≡ record seat.old {
          steps = BoardStep.Gate GateStep.Opened ∷ seat.old.steps;
        } }
        ensures few { openings (gate_steps seat.old.steps) < MAX_OPENINGS }
    {
        self.add_as::<Brand>(seat, Word::Gate, 1 << 31);
    }

    fn change(&self, seat: &mut WordSeat, i: u32, v: u64)
        requires table { seat.old.table ≡ self.now.table }
        requires closer { IsCloser self.now.sizes seat.old.number }
        requires closed { HasClosed seat.old.steps }
        requires within { i < length self.now.sizes.settings }
        ensures { seat.new ≡ record seat.old {
          steps = BoardStep.Gate (GateStep.Set i v) ∷ seat.old.steps;
        } }
    {
        self.store_as::<Brand>(seat, Word::Setting(i), v);
    }

    // Looks at lanes up to the first that is not empty.
    fn look_over(&self, seat: &mut WordSeat, lanes: CpuMask) -> Emptied
        requires table { seat.old.table ≡ self.now.table }
        ensures { (e : Bool) → EmptiedTells self.now.sizes lanes (board_seat seat.old e)
            (board_seat seat.new (emptied_after e result)) result }
    {
        self.fits();
        for lane in 0..self.sizes.lanes as u8 {
            if lanes.has(lane) {
                let (head, tail) = self.look_at(seat, lane);
                if head != tail {
                    return Emptied::NotEmpty { lane, head, tail };
                }
            }
        }
        Emptied::Ok
    }

    // The head of a lane and then its tail, as counter numbers.
    fn look_at(&self, seat: &mut WordSeat, lane: u8) -> (u32, u32)
        requires table { seat.old.table ≡ self.now.table }
        requires within { lane < self.now.sizes.lanes }
        ensures { (x : Looked) × (x.lane ≡ lane) × (result.0 ≡ low_half x.head)
            × (result.1 ≡ tail_in x.tail)
            × (seat.new ≡ record seat.old { steps = looking (x ∷ []) seat.old.steps }) }
    {
        let head = self.load(seat, Word::Head(lane));
        let tail = self.load(seat, Word::Lane(LaneId::Middle(lane)));
        (HeadWord(head).head(), LaneWord(tail).tail())
    }
}
