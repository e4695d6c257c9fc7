//! Lemmas on the words: functions without code whose contracts state them.
ghost use Rattle.std.specs.Prelude.{ℕ};
ghost use Rattle.plan_reader.specs.declared.plan.Plan.{Plan as APlan};
ghost use Rattle.run_words.specs.Codes.{HintWordsApart, OnlyCoded, ReadBack, SettingsApart};
ghost use Rattle.run_words.specs.First.{FirstValuesStand};

/// Lemma: no two words have the same number, nor two settings of a board.
pub fn words_lie_apart()
    ensures words { (packets : ℕ) → HintWordsApart packets }
    ensures settings { (queues : ℕ) → SettingsApart queues }
{}

/// Lemma: the word of a value within its range means that value.
pub fn coded_values_read_back()
    ensures { ReadBack }
{}

/// Lemma: a word means a processor, a queue or a filter only if it is the word of it.
pub fn only_coded_values_are_read()
    ensures { OnlyCoded }
{}

/// Lemma: the first values stand at the numbers of their settings.
pub fn first_values_stand()
    ensures { (plan : APlan) → FirstValuesStand plan }
{}
