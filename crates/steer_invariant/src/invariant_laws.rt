//! Lemmas on the invariant of the machine and on its history: functions without code whose
//! contracts state them.
ghost use Rattle.steer_invariant.specs.InvariantLaws.{CommandsKeepInvariant, RxPremisesHold};
ghost use Rattle.steer_invariant.specs.InvariantLaws.{TxPremisesHold};
ghost use Rattle.steer_invariant.specs.InvariantLaws.{InvariantIsReportable, FiltersAreSeated};
ghost use Rattle.steer_invariant.specs.InvariantLaws.{ListingKeepsInvariant};
ghost use Rattle.steer_invariant.specs.InvariantLaws.{StartHasInvariant, ReplaysAreReportable};
ghost use Rattle.steer_invariant.specs.InvariantLaws.{RunsAreReportable, RunsKeepInvariant};
ghost use Rattle.steer_invariant.specs.InvariantLaws.{StepsKeepInvariant};

/// Lemma: the history of a machine with the invariant can be reported. It is regular, each arrival
/// is at the queue to which its kept values lead, each packet is in one place, and the numbers of
/// packets, arrivals and applications are in range.
pub fn a_machine_has_a_history_to_report()
    ensures { InvariantIsReportable }
{}

/// Lemma: a machine with the invariant may ask its hops for each event of a step that names what it
/// has, and an expiry can read what it needs for each filter.
pub fn a_machine_may_ask_its_hops()
    ensures rx { RxPremisesHold }
    ensures tx { TxPremisesHold }
    ensures filters { FiltersAreSeated }
{}

/// Lemma: the machine that a plan starts has the invariant, and each step and each list of steps
/// that name what the machine has preserve it.
pub fn every_step_keeps_the_machine()
    ensures new { StartHasInvariant }
    ensures step { StepsKeepInvariant }
    ensures steps { RunsKeepInvariant }
{}

/// Lemma: a command that is done preserves the invariant before it is listed, and so does listing a
/// command with its answer.
pub fn every_command_keeps_the_machine()
    ensures done { CommandsKeepInvariant }
    ensures listed { ListingKeepsInvariant }
{}

/// Lemma: after any steps that name what the plan has, and after all steps of the plan, the history
/// can be reported.
pub fn every_replay_can_be_reported()
    ensures runs { RunsAreReportable }
    ensures replays { ReplaysAreReportable }
{}
