//! Lemmas on the sweep: it terminates with the machine at rest, and what such a machine has done.
ghost use Rattle.steer_properties.specs.Sweep.SweepLaws.{IdleRoundRests, RestIsSwept};
ghost use Rattle.steer_properties.specs.Sweep.SweepLaws.{RestIsThrough};
ghost use Rattle.steer_properties.specs.Sweep.SweepLaws.{SeededReplaysAreSwept, SweepEndsAtRest};
ghost use Rattle.steer_properties.specs.Sweep.SweepLaws.{SweepEndsIdle, SweepSweeps};
ghost use Rattle.steer_properties.specs.Sweep.SweepLaws.{SweptIsThrough};
ghost use Rattle.steer_properties.specs.Sweep.SweepLaws.{SweptRunsAreSwept};

/// Lemma: a sweep ends because there is nothing left to do, and then the machine is at rest.
pub fn a_sweep_ends_at_rest()
    ensures idle { SweepEndsIdle }
    ensures round { IdleRoundRests }
    ensures rest { SweepEndsAtRest }
{}

/// Lemma: in a machine at rest, and so after a sweep, each packet of the capture was dropped by a
/// processor, or it is in an inbox and its reply is at the port.
pub fn packets_go_all_their_way_at_rest()
    ensures rest { RestIsThrough }
    ensures swept { SweptIsThrough }
{}

/// Lemma: the history of a machine at rest is swept, and so is that of every plan after any of its
/// steps and a sweep, and that of every seeded plan.
pub fn swept_machines_have_swept_histories()
    ensures rest { RestIsSwept }
    ensures swept { SweepSweeps }
    ensures runs { SweptRunsAreSwept }
    ensures seeded { SeededReplaysAreSwept }
{}
