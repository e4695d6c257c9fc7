//! Lemmas about matches and folds, each the contract of a function with an empty body.
ghost use Rattle.ntuple_rules.specs.Laws.{FindsTheFirst, FindsNoneOfNone, FoldsAlike};

/// Lemma: the rule of a match matches and none before it does, and there is no match only if no
/// rule matches.
pub fn a_match_is_the_first()
    ensures first { FindsTheFirst }
    ensures none { FindsNoneOfNone }
{}

/// Lemma: a flow and its other direction have the same fold.
pub fn both_directions_fold_alike()
    ensures { FoldsAlike }
{}
