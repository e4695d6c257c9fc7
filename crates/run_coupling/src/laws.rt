//! Lemmas about the codes and the calls that the coupling invariants speak of. The functions have
//! no code.
ghost use Rattle.board_api.specs.Closings.Closings.{AtEachClosing};
ghost use Rattle.run_coupling.specs.Laws.Calls.{BusyCallsLook, DoneCallsSet, InsideCallsNone};
ghost use Rattle.run_coupling.specs.Laws.EmptyHands.{DeliveriesAreCounted, EmptyHandsRetired};
ghost use Rattle.run_coupling.specs.Laws.SharedCodes.{SharedCodesExist};

/// Lemma: the numbers and values of the hint words that the threads share are such codes as the
/// coupling invariants ask for, and by them no store is for two words or two values.
pub fn shared_codes_exist()
    ensures { SharedCodesExist }
{}

/// Lemma: the steps that a try's calls add have the forms that the lemmas on tries ask for.
pub fn calls_make_tries()
    ensures done { DoneCallsSet }
    ensures busy { BusyCallsLook }
    ensures inside { InsideCallsNone }
{}

/// Lemma: a seat has retired every packet that it delivered on its lane, except possibly the one
/// in its hand. So if all hands are empty, each delivery is retired.
pub fn empty_hands_have_retired()
    ensures counted { AtEachClosing DeliveriesAreCounted }
    ensures retired { AtEachClosing EmptyHandsRetired }
{}
