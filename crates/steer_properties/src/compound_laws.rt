//! Lemmas on drains and ships: functions without code whose contracts state them.
ghost use Rattle.steer_properties.specs.CompoundSteps.{DrainEmpties, DrainRoundRetiresOne};
ghost use Rattle.steer_properties.specs.CompoundSteps.{DrainsOfRunsEmpty, ShipEmpties};
ghost use Rattle.steer_properties.specs.CompoundSteps.{ShipRoundRetiresOne, ShipsOfRunsEmpty};

/// Lemma: a pull, a delivery and a retire of a processor with packets that are not retired retire
/// one of them. So a drain empties the processor: after it the hand is empty and nothing waits.
/// This holds in each machine with the invariant, and so after any steps of a plan.
pub fn a_drain_empties_its_processor()
    ensures round { DrainRoundRetiresOne }
    ensures empty { DrainEmpties }
    ensures runs { DrainsOfRunsEmpty }
{}

/// Lemma: a pull, a delivery and a retire of a transmit queue with replies that are not retired
/// retire one of them. So a ship empties the queue: after it the hand is empty and nothing waits.
/// This holds in each machine with the invariant, and so after any steps of a plan.
pub fn a_ship_empties_its_transmit_queue()
    ensures round { ShipRoundRetiresOne }
    ensures empty { ShipEmpties }
    ensures runs { ShipsOfRunsEmpty }
{}
