//! Laws of the definitions that the contracts cite.
ghost use Rattle.std.specs.Prelude.{◌≡◌, ◌⊎◌, ℕ, List};
ghost use Rattle.linearization.specs.Orders.{StepBy};
ghost use Rattle.hint_words.specs.Closings.{ChangesAreWritten, WordsHaveMoments};
ghost use Rattle.hint_words.specs.Steps.{word_after, NoneWrites, IsWrittenLast};

use crate::step::HintStep;

/// Lemma: after an order of steps a word is the value of the last write there, or 0 if no step
/// wrote there.
pub fn last_write()
    ensures written { (i n : ℕ) (order : List (StepBy HintStep))
        → IsWrittenLast i order n → word_after i order ≡ n }
    ensures unwritten { (i : ℕ) (order : List (StepBy HintStep))
        → NoneWrites i order → word_after i order ≡ 0 }
    ensures either { (i : ℕ) (order : List (StepBy HintStep))
        → NoneWrites i order ⊎ IsWrittenLast i order (word_after i order) }
{}

/// Lemma: of words that have ended, what a seat loads from a word where an earlier load of its own
/// found another value, one of the seats wrote there.
pub fn changes_are_written()
    ensures { ChangesAreWritten }
{}

/// Lemma: the steps of words that have ended have moments in one order, in which what a load found
/// other than 0 was stored before it.
pub fn words_have_moments()
    ensures { WordsHaveMoments }
{}
