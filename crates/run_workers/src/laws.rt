//! Lemmas on what a worker keeps: functions without code whose contracts state them.
ghost use Rattle.run_workers.specs.Laws.{ArrivalsBecomeKnown, FreeWorkersRest, WorkersBegin};
ghost use Rattle.run_workers.specs.Tally.{LoadedCountsHold};

/// Lemma: a worker of new actors, at seats that have made no step, keeps the records of no turns.
pub fn workers_begin()
    ensures { WorkersBegin }
{}

/// Lemma: what a worker kept before the arrivals were known, it keeps with all of them.
pub fn arrivals_become_known()
    ensures { ArrivalsBecomeKnown }
{}

/// Lemma: a worker with no packet in a hand leaves its seats at the boards as their closing asks
/// for.
pub fn free_workers_rest()
    ensures { FreeWorkersRest }
{}

/// Lemma: what a worker loaded of all words of a tally that is closed is no more than the workers
/// have finished.
pub fn loaded_counts_hold()
    ensures { LoadedCountsHold }
{}
