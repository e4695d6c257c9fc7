//! Single steps at the words of a board that leave the slots as they are.
ghost use Rattle.std.specs.Prelude.{◌≡◌, ℕ, ◌+◌, ◌-◌, ◌%◌, ◌^◌, ◌==◌, ◌∷◌};
ghost use prog.Atomic.{either};
ghost use Rattle.hop_board.specs.Makings.{loaded, MayLoad};
ghost use Rattle.hop_board.specs.Steps.{MayAct};
ghost use Rattle.hop_board.specs.Tables.{IsWord};

use crate::board::{Board, WordSeat};
use crate::places::Word;
use crate::plays::{Adds, Told};
use linearization::Makes;
use std::marker::Brand;

impl Board {
    // Loads a word.
    pub(crate) fn load(&self, seat: &mut WordSeat, word: Word) -> u64
        requires table { seat.old.table ≡ self.now.table }
        requires within { IsWord self.now.sizes word }
        requires may { MayLoad seat.old.steps word }
        ensures { seat.new ≡ record seat.old { steps = loaded word result ∷ seat.old.steps } }
    {
        self.load_as::<Brand>(seat, word)
    }

    fn load_as<J: Told>(&self, seat: &mut WordSeat, word: Word) -> u64
        requires table { seat.old.table ≡ self.now.table }
        requires within { IsWord self.now.sizes word }
        requires act { MayAct self.now.sizes seat.old word (λ n. n) J.makes J.says }
        ensures step { seat.new ≡ record seat.old { steps = J.makes result ∷ seat.old.steps } }
        ensures says { J.says result }
    {
        let place = self.place(word);
        self.table
            .shared
            .load::<Makes<Adds<J>>>(&mut seat.seat, place)
    }

    // Stores a value in a word.
    pub(crate) fn store_as<J: Told>(&self, seat: &mut WordSeat, word: Word, value: u64)
        requires table { seat.old.table ≡ self.now.table }
        requires within { IsWord self.now.sizes word }
        requires act { MayAct self.now.sizes seat.old word (λ _. value) (λ _. J.makes value)
            (λ _. J.says value) }
        ensures step { seat.new ≡ record seat.old { steps = J.makes value ∷ seat.old.steps } }
    {
        let place = self.place(word);
        self.table
            .shared
            .store::<Makes<Adds<J>>>(&mut seat.seat, place, value);
    }

    // Adds to a word, and returns it as it was.
    pub(crate) fn add_as<J: Told>(&self, seat: &mut WordSeat, word: Word, more: u64) -> u64
        requires table { seat.old.table ≡ self.now.table }
        requires within { IsWord self.now.sizes word }
        requires act { MayAct self.now.sizes seat.old word (λ n. (n + more) % 2 ^ 64) J.makes
            J.says }
        ensures step { seat.new ≡ record seat.old { steps = J.makes result ∷ seat.old.steps } }
        ensures says { J.says result }
    {
        let place = self.place(word);
        self.table
            .shared
            .fetch_add::<Makes<Adds<J>>>(&mut seat.seat, place, more)
    }

    // Subtracts from a word, and returns it as it was.
    pub(crate) fn sub_as<J: Told>(&self, seat: &mut WordSeat, word: Word, less: u64) -> u64
        requires table { seat.old.table ≡ self.now.table }
        requires within { IsWord self.now.sizes word }
        requires act { MayAct self.now.sizes seat.old word (λ n. (n + (2 ^ 64 - less)) % 2 ^ 64)
            J.makes J.says }
        ensures step { seat.new ≡ record seat.old { steps = J.makes result ∷ seat.old.steps } }
        ensures says { J.says result }
    {
        let place = self.place(word);
        self.table
            .shared
            .fetch_sub::<Makes<Adds<J>>>(&mut seat.seat, place, less)
    }

    // Writes `new` if the word is `old`, and returns the word as it was.
    pub(crate) fn exchange_as<J: Told>(
        &self,
        seat: &mut WordSeat,
        word: Word,
        old: u64,
        new: u64,
    ) -> u64
        requires table { seat.old.table ≡ self.now.table }
        requires within { IsWord self.now.sizes word }
        requires act { MayAct self.now.sizes seat.old word (λ n. either (n == old) new n)
            J.makes J.says }
        ensures step { seat.new ≡ record seat.old { steps = J.makes result ∷ seat.old.steps } }
        ensures says { J.says result }
    {
        let place = self.place(word);
        self.table
            .shared
            .compare_exchange::<Makes<Adds<J>>>(&mut seat.seat, place, old, new)
    }
}
