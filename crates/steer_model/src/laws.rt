//! Lemmas on packets, plans and good histories: functions without code whose contracts state them.
ghost use Rattle.plan_reader.specs.Plans.{sizes_of};
ghost use Rattle.plan_reader.specs.Ranges.{step_is_within};
ghost use Rattle.std.specs.List.{AllPass};
ghost use Rattle.steer_model.specs.Capture.FlowCounts.{FlowsAreCounted};
ghost use Rattle.steer_model.specs.Laws.GoodHistories.{GoodByClauses};
ghost use Rattle.steer_model.specs.Laws.Packets.{PacketsAreOfFlows, PacketsAreOne};
ghost use Rattle.steer_model.specs.State.Start.{steps_of};

use plan_reader::Plan;

/// Lemma: without commands a history is good if and only if each clause holds by itself.
pub fn a_history_is_good_by_its_clauses()
    ensures { GoodByClauses }
{}

/// Lemma: a capture determines its packets, given a key and the kinds that are hashed.
pub fn a_capture_has_one_list_of_packets()
    ensures { PacketsAreOne }
{}

/// Lemma: the flow number of each packet of a capture is below the number of packets, and all
/// packets of a flow have one hash.
pub fn packets_are_of_flows()
    ensures { PacketsAreOfFlows }
{}

/// Lemma: packets whose flows are numbered have as many flows as `flow_count` says: each has one of
/// the numbers below it, and each of these is the number of some packet's flow.
pub fn flows_are_counted()
    ensures { FlowsAreCounted }
{}

/// Lemma: each step of a plan, listed or seeded, names what the plan has.
pub fn steps_of_a_plan_are_within(plan: &Plan)
    ensures { AllPass (step_is_within (sizes_of plan.now)) (steps_of plan.now) }
{
    // Reads the plan, so that its invariant is known here.
    let _ = &plan.cpus;
}
