//! The steps that the calls add to their seat's list.
use crate::step::HintStep;
use linearization::{Counted, Making};
use std::marker::PhantomData;

/// A load: its value is what some order of all steps so far leaves at the word.
pub struct Loads<J> {
    of: PhantomData<J>,
}

impl<J: Counted> Making<(), HintStep> for Loads<J> {
    ghost use Rattle.linearization.specs.Prefixes.{Found};
    ghost use Rattle.hint_words.specs.Steps.{word_after, IsLawful};
    ghost use Rattle.hint_words.specs.Tables.{load_of};

    ghost makes = { load_of };

    ghost tells = { Found IsLawful word_after J.seats };
}

/// A clear: whether the word had the value is by some order of all steps so far.
pub struct Clears<J> {
    of: PhantomData<J>,
}

impl<J: Counted> Making<(), HintStep> for Clears<J> {
    ghost use Rattle.linearization.specs.Prefixes.{Found};
    ghost use Rattle.hint_words.specs.Steps.{word_after, IsLawful};
    ghost use Rattle.hint_words.specs.Tables.{clear_of};

    ghost makes = { clear_of };

    ghost tells = { Found IsLawful word_after J.seats };
}

/// A store, which shows nothing of earlier steps.
pub struct Stores;

impl Making<(), HintStep> for Stores {
    ghost use Rattle.hint_words.specs.Tables.{store_of};

    ghost makes = { store_of };

    ghost tells = { λ st n order. Unit {0} };
}
