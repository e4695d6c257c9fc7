//! A lemma on the places of words: a function without code whose contract states it.
ghost use Rattle.hop_rule.specs.declared.sizes.BoardSizes.{BoardSizes};
ghost use Rattle.hop_board.specs.CacheLines.{ContendedWordsLieApart};

/// Lemma: the word of a lane, of a head or of the gate is on another cache line than each other
/// word of its board.
pub fn contended_words_lie_apart()
    ensures { (about : BoardSizes) → ContendedWordsLieApart about }
{}
