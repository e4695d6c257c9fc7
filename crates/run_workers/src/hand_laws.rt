//! Lemmas that carry what one actor keeps of a seat's list over the steps of another: functions
//! without code whose contracts state them.
ghost use Rattle.run_workers.specs.Hands.Laws.{ApplicationsExplain, ApplicationsLeaveDrains};
ghost use Rattle.run_workers.specs.Hands.Laws.{ApplicationsStay, DrainsStay, PollsLeaveDrains};
ghost use Rattle.run_workers.specs.Hands.Laws.{PollsStay};
ghost use Rattle.run_workers.specs.Hands.Laws.{ServesExplain, ServesLeaveDrains, VisitsExplain};

/// Lemma: steps that serve another lane, or none, leave a drain's record as it was; so do the calls
/// of other drains, polls, and the calls of applications.
pub fn drains_stay_beside_others()
    ensures steps { DrainsStay }
    ensures serves { ServesLeaveDrains }
    ensures polls { PollsLeaveDrains }
    ensures applications { ApplicationsLeaveDrains }
{}

/// Lemma: turns that explain a seat's list explain it after steps that serve lanes and after an
/// application took a packet or none, and with the turn of a visit or a reply after it.
pub fn turns_go_on()
    ensures serves { ServesExplain }
    ensures visits { VisitsExplain }
    ensures applications { ApplicationsExplain }
{}

/// Lemma: a poll leaves the queue, the room for choices, and the tables and numbers of the seats.
pub fn polls_stay_at_their_seats()
    ensures { PollsStay }
{}

/// Lemma: a call of an application leaves which it is, its home, the number from which it counts,
/// its room for replies, and the tables and numbers of the seats.
pub fn applications_stay_at_their_seats()
    ensures { ApplicationsStay }
{}
