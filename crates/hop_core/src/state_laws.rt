//! Lemmas on a state of a hop and one event: functions without code whose contracts state them.
ghost use Rattle.hop_model.specs.BareEvents.{BareKeepsLanes, EachIsBare, EachKeepsDropsRising};
ghost use Rattle.hop_model.specs.BareEvents.{EachLaneIsItsOwn, FreshDropsRise, SoundHasLanes};
ghost use Rattle.hop_core.specs.Leaves.{EachLeaves};
ghost use Rattle.hop_core.specs.NothingLost.{EachLosesNothing, EachPutIsOnce, LosesNothing};
ghost use Rattle.hop_core.specs.NothingLost.{FreshLosesNothing};
ghost use Rattle.hop_core.specs.Others.{EachLeavesLanes, EachLeavesProducers};
ghost use Rattle.hop_core.specs.Settled.{EachKeepsSettled, FreshIsSettled, ResetSettles};
ghost use Rattle.hop_core.specs.Settled.{ResizeSettles, SettledAllowsPuts};

/// Lemma: nothing is lost, in a new hop and after any events. A packet that was put was accepted or
/// dropped by the lane of its choice, and one that was delivered is in an out lane; so each packet
/// that was put is at exactly one place.
pub fn nothing_is_lost()
    ensures fresh { FreshLosesNothing }
    ensures each { EachLosesNothing }
    ensures all { LosesNothing }
    ensures once { EachPutIsOnce }
{}

/// Lemma: each event leaves every field that it does not change, what the other producers have, and
/// what the other lanes have.
pub fn each_event_leaves_the_rest()
    ensures fields { EachLeaves }
    ensures producers { EachLeavesProducers }
    ensures lanes { EachLeavesLanes }
{}

/// Lemma: a hop is settled by the settings by which its choices were made, from a new hop on and
/// through every event. A resize may bring other classes at its producer, and other settings may
/// come if nothing that they would move waits. In a settled hop each put is allowed for a flow to
/// which the settings give one class and one lane.
pub fn settled_hops_let_flows_pass()
    ensures fresh { FreshIsSettled }
    ensures each { EachKeepsSettled }
    ensures resize { ResizeSettles }
    ensures reset { ResetSettles }
    ensures puts { SettledAllowsPuts }
{}

/// Lemma: each event of a hop is one event of its bare part, or leaves the whole state. That event
/// does to its lane what the lane's own put or take does, and nothing to the others.
pub fn each_event_is_one_of_the_bare_part()
    ensures each { EachIsBare }
    ensures lanes { EachLaneIsItsOwn }
    ensures sound { SoundHasLanes }
    ensures stay { BareKeepsLanes }
{}

/// Lemma: along the drops of each lane neither of their two counts falls, and none is over the
/// lane's own, in a new hop and after every event.
pub fn counts_of_drops_never_fall()
    ensures fresh { FreshDropsRise }
    ensures each { EachKeepsDropsRising }
{}
