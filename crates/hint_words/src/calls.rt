//! The three calls on a word. Each is one atomic step, allocates nothing and does not wait.
ghost use Rattle.std.specs.Prelude.{◌≡◌, ℕ, ◌<◌, ◌==◌, List, ◌∷◌};
ghost use Rattle.linearization.specs.Orders.{StepBy};
ghost use Rattle.linearization.specs.Prefixes.{IsPastOf};
ghost use Rattle.hint_words.specs.Steps.{word_after, IsLawful};

use crate::hints::{HintSeat, Hints};
use crate::making::{Clears, Loads, Stores};
use crate::step::HintStep;
use linearization::{Counted, Makes};
use std::marker::Brand;

impl Hints {
    /// Loads the word `i`, counted from 0: the value written there last, or 0 if none was. The seat
    /// is one that came with these hints.
    pub fn load(&self, seat: &mut HintSeat, i: u32) -> u64
        requires table { seat.old.table ≡ self.now.table }
        requires inside { i < self.now.words }
        ensures step { seat.new ≡ record seat.old {
          steps = HintStep.Load i result ∷ seat.old.steps;
        } }
        ensures word { (order : List (StepBy HintStep))
            × IsPastOf IsLawful self.now.seats seat.old order
            × (result ≡ word_after i order) }
    {
        self.load_as::<Brand>(seat, i)
    }

    /// Stores `v` at the word `i`.
    pub fn store(&self, seat: &mut HintSeat, i: u32, v: u64)
        requires table { seat.old.table ≡ self.now.table }
        requires inside { i < self.now.words }
        ensures step { seat.new ≡ record seat.old { steps = HintStep.Store i v ∷ seat.old.steps } }
    {
        self.table
            .shared
            .store::<Makes<Stores>>(&mut seat.seat, i as usize, v);
    }

    /// Stores 0 at the word `i` if it is `v`, and returns whether it was. If it was not, nothing is
    /// written.
    pub fn clear_if(&self, seat: &mut HintSeat, i: u32, v: u64) -> bool
        requires table { seat.old.table ≡ self.now.table }
        requires inside { i < self.now.words }
        ensures step { seat.new ≡ record seat.old {
          steps = HintStep.ClearIf i v result ∷ seat.old.steps;
        } }
        ensures word { (order : List (StepBy HintStep))
            × IsPastOf IsLawful self.now.seats seat.old order
            × (result ≡ (word_after i order == v)) }
    {
        self.clear_as::<Brand>(seat, i, v)
    }

    fn load_as<J: Counted>(&self, seat: &mut HintSeat, i: u32) -> u64
        requires table { seat.old.table ≡ self.now.table }
        requires inside { i < self.now.words }
        requires counted { J.seats ≡ self.now.seats }
        ensures step { seat.new ≡ record seat.old {
          steps = HintStep.Load i result ∷ seat.old.steps;
        } }
        ensures word { (order : List (StepBy HintStep))
            × IsPastOf IsLawful self.now.seats seat.old order
            × (result ≡ word_after i order) }
    {
        self.table
            .shared
            .load::<Makes<Loads<J>>>(&mut seat.seat, i as usize)
    }

    fn clear_as<J: Counted>(&self, seat: &mut HintSeat, i: u32, v: u64) -> bool
        requires table { seat.old.table ≡ self.now.table }
        requires inside { i < self.now.words }
        requires counted { J.seats ≡ self.now.seats }
        ensures step { seat.new ≡ record seat.old {
          steps = HintStep.ClearIf i v result ∷ seat.old.steps;
        } }
        ensures word { (order : List (StepBy HintStep))
            × IsPastOf IsLawful self.now.seats seat.old order
            × (result ≡ (word_after i order == v)) }
    {
        let found = self
            .table
            .shared
            .compare_exchange::<Makes<Clears<J>>>(&mut seat.seat, i as usize, v, 0);
        found == v
    }
}
