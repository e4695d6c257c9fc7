//! Lemmas: what the history of a run shows of its threads. The functions have no code.
ghost use Rattle.run_promise.specs.Laws.{BoardsAreOrdered, RunsAreByRun};

/// Lemma: at each closing of a board the seats' own steps have moments of one order, and each put,
/// each loaded head and each delivery is as the counts of its moment say.
pub fn boards_are_ordered()
    ensures { BoardsAreOrdered }
{}

/// Lemma: if the threads keep their coupling invariants with a history, its boards and hint words
/// have ended and its sweep has ended, its lists are those of one order at each of its two hops.
pub fn a_run_is_by_its_threads()
    ensures { RunsAreByRun }
{}
