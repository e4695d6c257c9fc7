//! Lemmas on the workers of a run together: functions without code whose contracts state them.
ghost use Rattle.run_crew.specs.CountLaws.{FullCountsSuffice};
ghost use Rattle.run_crew.specs.DrainLaws.{DrainsKeepCoupling};
ghost use Rattle.run_crew.specs.Finished.{FinishedCrewsAreFull};
ghost use Rattle.run_crew.specs.QueueLaws.{CrewsHaveTurns, QueuesKeepCoupling, QueuesKeepTurns};
ghost use Rattle.run_crew.specs.ReplyLaws.{ApplicationsKeepCoupling};
ghost use Rattle.run_crew.specs.RunLaws.{EndedRunsAreRuns};
ghost use Rattle.run_crew.specs.Sweeps.{CrewsGoOn, CrewsLearnArrivals, CrewsPlayOn};
ghost use Rattle.run_crew.specs.ThreadLaws.{ArrivalsAreWithin, ControllersTouchNoLane};
ghost use Rattle.run_crew.specs.ThreadLaws.{FrontsAreChosen};

use crate::coupling_laws::{applications_are_coupled, pollers_are_coupled, stores_are_meant};
use run_workers::arrivals_become_known;

/// Lemma: the records of all workers say turns of all seats.
pub fn crews_have_turns()
    ensures { CrewsHaveTurns }
{}

/// Lemma: workers that go on keep what they keep together, and play the same rings and homes.
pub fn crews_go_on()
    ensures keep { CrewsGoOn }
    ensures play { CrewsPlayOn }
{}

/// Lemma: what workers kept together before the arrivals were known, they keep with all of them.
pub fn crews_learn_arrivals()
    ensures { CrewsLearnArrivals }
{
    arrivals_become_known();
}

/// Lemma: at the closing of the receive board the turns of the pollers explain the seats' lists and
/// are those of the journals of choices. If each arrival has its choice, the queues keep their
/// coupling invariants, and each processor that was wanted was loaded.
pub fn queues_keep_their_coupling()
    ensures turns { QueuesKeepTurns }
    ensures coupling { QueuesKeepCoupling }
{
    pollers_are_coupled();
}

/// Lemma: at the closing of the boards the applications keep their coupling invariants: where each
/// packet was found, the maps that the turns know, choices by the own table, and queues, processors
/// and writes by what was loaded and read.
pub fn applications_keep_their_coupling()
    ensures { ApplicationsKeepCoupling }
{
    applications_are_coupled();
}

/// Lemma: at the closing of a board each packet of a lane was delivered to its application's inbox
/// or to the port, no seat has a packet in hand, and as many packets were retired as the workers
/// counted.
pub fn drains_keep_their_coupling()
    ensures { DrainsKeepCoupling }
{}

/// Lemma: if not more choices were made than there are packets, and as many packets as there are
/// were retired at the transmit board or dropped, by the workers' counts, the totals of a run's end
/// are equal.
pub fn full_counts_suffice()
    ensures { FullCountsSuffice }
{}

/// Lemma: if the workers have finished as many packets as there are, by their counts, the count of
/// the sweep is full.
pub fn finished_crews_are_full()
    ensures { FinishedCrewsAreFull }
{}

/// Lemma: what the contracts of the controller, of the wire and of a ring say of what the end of a
/// run asks for. A controller touches no lane, arrivals are at queues of the plan, and a poller
/// with an empty hand has chosen for a front of what arrived at its queue.
pub fn threads_keep_their_parts()
    ensures lanes { ControllersTouchNoLane }
    ensures within { ArrivalsAreWithin }
    ensures fronts { FrontsAreChosen }
{}

/// Lemma: a run has a history that keeps all coupling invariants, if its workers, its controller
/// and its wire kept their records, its boards and hint words have ended, and the count of its
/// sweep is full.
pub fn ended_runs_are_runs()
    ensures { EndedRunsAreRuns }
{
    pollers_are_coupled();
    applications_are_coupled();
    stores_are_meant();
}
