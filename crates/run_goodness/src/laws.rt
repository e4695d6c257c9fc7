//! Lemmas: clauses of a good history from the coupling invariants. The functions have no code.
ghost use Rattle.board_api.specs.Closings.Closings.{AtEachClosing};
ghost use Rattle.run_coupling.specs.Laws.Choices.{ChoicesFollow};
ghost use Rattle.run_coupling.specs.Laws.Drops.{DropsFollow};
ghost use Rattle.run_coupling.specs.Laws.EmptiedLanes.{TriesFindEmpty};
ghost use Rattle.run_coupling.specs.Laws.Ends.{AllAreSent, ChoicesSuffice, LanesAreDone, PutsEnd};
ghost use Rattle.run_coupling.specs.Laws.Ends.{RepliesKeepChoices, RepliesSuffice};
ghost use Rattle.run_coupling.specs.Laws.Ends.{TotalsSuffice};
ghost use Rattle.run_coupling.specs.Laws.OneCount.{OneCountSuffices};
ghost use Rattle.run_coupling.specs.Laws.OwnTables.{TablesAreEntries, TablesRule};
ghost use Rattle.run_coupling.specs.Laws.Replies.{RepliesFollow};
ghost use Rattle.run_goodness.specs.Laws.{BusyAnswersAreTrue, BusyLanesAreBusy, CommandsFollow};
ghost use Rattle.run_goodness.specs.Laws.{RunsAreGood, HeadsFollow, InboxesFollow};

/// Lemma: a table that was told of each of its producer's turns has the entries of the lists, so a
/// choice by it is by the rule over these.
pub fn own_tables_rule()
    ensures entries { AtEachClosing TablesAreEntries }
    ensures rule { AtEachClosing TablesRule }
{}

/// Lemma: each choice is by the rule with the settings after the commands up to the opening that
/// its visit counts.
pub fn choices_are_by_rule()
    ensures { AtEachClosing ChoicesFollow }
{}

/// Lemma: the heads that the choices of a producer saw at one lane never fall.
pub fn heads_are_rising()
    ensures { AtEachClosing HeadsFollow }
{}

/// Lemma: each drop has its cause, and the counts that drops keep never fall.
pub fn drops_are_explained()
    ensures { AtEachClosing DropsFollow }
{}

/// Lemma: each setting of the controller found the lanes empty that it affects.
pub fn tries_find_empty()
    ensures { TriesFindEmpty }
{}

/// Lemma: a lane that was not found empty had a head below its tail.
pub fn busy_lanes_are_busy()
    ensures { AtEachClosing BusyLanesAreBusy }
{}

/// Lemma: in a run each busy answer was true at one moment of its board's order: as many visits
/// were open as it says, or the lane that it names had a packet when the gate was closed.
pub fn busy_answers_are_true()
    ensures { BusyAnswersAreTrue }
{}

/// Lemma: the commands are given and answered as in a good history.
pub fn commands_are_given()
    ensures { CommandsFollow }
{}

/// Lemma: each flow of each queue stands in its inbox in the order of its arrivals.
pub fn inboxes_are_in_order()
    ensures { AtEachClosing InboxesFollow }
{}

/// Lemma: if the counts are equal, all lanes are done, each packet that was put was delivered or
/// dropped, and each application replied to its whole inbox. Each reply has its choice at any time,
/// since an application notes the two together.
pub fn equal_counts_end_a_run()
    ensures choices { ChoicesSuffice }
    ensures totals { AtEachClosing TotalsSuffice }
    ensures replies { AtEachClosing RepliesSuffice }
    ensures keeps { RepliesKeepChoices }
    ensures done { AtEachClosing LanesAreDone }
    ensures puts { AtEachClosing PutsEnd }
    ensures sent { AtEachClosing AllAreSent }
{}

/// Lemma: if as many packets as there are were retired at the transmit board or dropped at the
/// receive board, the totals of a run's end are equal.
pub fn one_count_suffices()
    ensures { OneCountSuffices }
{}

/// Lemma: each choice for a reply is by the rule with the maps after the commands up to the opening
/// of the transmit gate that its visit counts.
pub fn replies_are_by_rule()
    ensures { AtEachClosing RepliesFollow }
{}

/// Lemma: a run is good. If the threads keep their coupling invariants with a history, its boards
/// and hint words have ended and its sweep has ended, all eleven clauses of a good history hold of
/// it.
pub fn a_run_is_good()
    ensures { RunsAreGood }
{}
