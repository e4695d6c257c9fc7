//! The rule of the words: each has the value written there last in one order of all seats' steps.
use crate::sizes::Sizes;
use crate::step::HintStep;
use linearization::StepRule;

/// The step rule by which each word has the value written there last.
pub struct LastWrites;

impl StepRule<(), HintStep, Sizes> for LastWrites {
    ghost use Rattle.hint_words.specs.Tables.{HasLastWrites};

    ghost seats = { λ about. about.seats };

    ghost lawful = { HasLastWrites };
}
