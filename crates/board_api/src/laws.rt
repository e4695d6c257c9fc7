//! Lemmas on how the seats' own lists and the lists that a board leaves agree. The functions have
//! no code.
ghost use Rattle.board_api.specs.Closings.Closings.{AtEachClosing, EachOrderCloses};
ghost use Rattle.board_api.specs.Laws.Heads.{EmptiedLanesStandFirst, HeadsAreBelowTails};
ghost use Rattle.board_api.specs.Laws.Heads.{HeadsArePassed, HeadsRise, NumberedReadsAreSettings};
ghost use Rattle.board_api.specs.Laws.Heads.{OutTailsRise, ReadsAreSettings, TailsRise};
ghost use Rattle.board_api.specs.Laws.Heads.{VisitNumbersRise};
ghost use Rattle.board_api.specs.Laws.Lanes.{DeliveriesHavePlaces, HoldsFindFronts, LanesAreInTurn};
ghost use Rattle.board_api.specs.Laws.Lanes.{LanesAreServedByOne, ListsAreCounted, OutsAreSums};
ghost use Rattle.board_api.specs.Laws.Puts.{AcceptedWerePut, CountsAreSums, DropsHaveCauses};
ghost use Rattle.board_api.specs.Laws.Puts.{DropsRise, DropsWerePut, PutsKeepOrder, PutsStand};
ghost use Rattle.board_api.specs.Laws.Puts.{PutsTakeTurns};

/// Lemma: each own put is one position or one drop of its lane, with its hash, its answer and its
/// cause, and each position and each drop is one own put.
pub fn puts_and_positions_agree()
    ensures stand { AtEachClosing PutsStand }
    ensures turns { AtEachClosing PutsTakeTurns }
    ensures order { AtEachClosing PutsKeepOrder }
    ensures accepted { AtEachClosing AcceptedWerePut }
    ensures dropped { AtEachClosing DropsWerePut }
{}

/// Lemma: a lane accepted, and dropped, as many packets as all seats' own puts had that answer.
pub fn counts_are_sums_over_seats()
    ensures { AtEachClosing CountsAreSums }
{}

/// Lemma: an out lane has as many packets as all seats delivered to it.
pub fn outs_are_sums_over_seats()
    ensures { AtEachClosing OutsAreSums }
{}

/// Lemma: as many lanes and out lanes are left as the board has.
pub fn all_lanes_are_left()
    ensures { AtEachClosing ListsAreCounted }
{}

/// Lemma: each drop is by a full backlog or by the flow limit, and the counts of drops never fall.
pub fn drops_have_their_causes()
    ensures causes { AtEachClosing DropsHaveCauses }
    ensures rise { AtEachClosing DropsRise }
{}

/// Lemma: what a hold found of a lane is a front of what is left of it.
pub fn holds_find_fronts()
    ensures { AtEachClosing HoldsFindFronts }
{}

/// Lemma: what was pulled, delivered and retired of a lane are the own steps of the one seat that
/// serves it, in the order of the accepted packets.
pub fn lanes_are_served_in_order()
    ensures served { AtEachClosing LanesAreServedByOne }
    ensures turn { AtEachClosing LanesAreInTurn }
{}

/// Lemma: each own delivery is one place of an out lane, and each place is one own delivery.
pub fn deliveries_and_places_agree()
    ensures { AtEachClosing DeliveriesHavePlaces }
{}

/// Lemma: the heads that a seat loads of one lane never fall, and count no more than was retired in
/// the end. A head that is loaded before its lane's word is at most the tail in that word.
pub fn loaded_heads_rise()
    ensures rise { AtEachClosing HeadsRise }
    ensures below { AtEachClosing HeadsAreBelowTails }
{}

/// Lemma: the tails that a seat loads of one lane never fall, and count no more packets than the
/// lane accepted in the end, or than were delivered to an out lane.
pub fn loaded_tails_rise()
    ensures middle { AtEachClosing TailsRise }
    ensures out { AtEachClosing OutTailsRise }
{}

/// Lemma: the packets that a loaded head counts were delivered, and are below those that its seat
/// puts after the load.
pub fn loaded_heads_are_passed()
    ensures { AtEachClosing HeadsArePassed }
{}

/// Lemma: the numbers of a seat's visits never fall. A visit reads the settings after the closer's
/// own sets before the last opening that its number counts, and the closer reads what its sets
/// left. So visits with one number read the same settings.
pub fn visits_read_the_closers_settings()
    ensures numbers { AtEachClosing VisitNumbersRise }
    ensures settings { AtEachClosing ReadsAreSettings }
    ensures alike { AtEachClosing NumberedReadsAreSettings }
{}

/// Lemma: the packets of a lane that the closer found empty were put in visits with a number up to
/// that of the close, were delivered, and are below those put in visits with a higher number.
pub fn emptied_lanes_stand_first()
    ensures { AtEachClosing EmptiedLanesStandFirst }
{}

/// Lemma: each lawful order is that of some closing, so the laws of closings are about all of them.
pub fn each_lawful_order_may_close()
    ensures { EachOrderCloses }
{}
