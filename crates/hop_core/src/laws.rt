//! Lemmas on the lists of a hop: functions without code whose contracts state them.
ghost use Rattle.hop_model.specs.Emptied.{EmptiedIsExact, SetIsAsked};
ghost use Rattle.hop_core.specs.Laws.{ChoiceIsByTheRule, ChoicesStay, ClosedIsExact, EndToEnd};
ghost use Rattle.hop_core.specs.Laws.{EachExplainsDrops, EachKeepsAmple, EachKeepsFlows};
ghost use Rattle.hop_core.specs.Laws.{EachKeepsOrder, EachKeepsSound, ExplainsDrops, FlowIsInOrder};
ghost use Rattle.hop_core.specs.Laws.{FreshFlowIsOrdered, FreshIsAmple, FreshIsExplained};
ghost use Rattle.hop_core.specs.Laws.{FreshIsOrdered, FreshIsSound};
ghost use Rattle.hop_core.specs.Laws.{InsideIsExact, KeepsOrder, KeepsPlaces, KeptHeadDecides};
ghost use Rattle.hop_core.specs.Laws.{NeverDrops};
ghost use Rattle.hop_core.specs.Laws.{NewIsOrdered, NewIsSound, NobodyWeighsOutside};
ghost use Rattle.hop_core.specs.Laws.{OrderedIsInOrder, PairsMakePrefix, SoundHasPlaces};
ghost use Rattle.hop_core.specs.Rounds.{AsksAreJoined, RoundMayBeAsked, RoundRetiresOne};
ghost use Rattle.hop_core.specs.Rounds.{RunsAreJoined};
ghost use Rattle.hop_core.specs.Work.{WorkGoesOn, WorkIsBounded, WorkStays};

/// Lemma: the invariant `Sound` holds of a new hop, and every event preserves it.
pub fn every_event_keeps_a_hop_sound()
    ensures new { NewIsSound }
    ensures fresh { FreshIsSound }
    ensures each { EachKeepsSound }
{}

/// Lemma: a gate stays open if and only if somebody is inside, and turns actors away if and only if
/// it is closed. With nobody inside every choice was put.
pub fn the_gate_answers_exactly()
    ensures inside { InsideIsExact }
    ensures closed { ClosedIsExact }
    ensures outside { NobodyWeighsOutside }
{}

/// Lemma: after any events each packet is at most at one place, once.
pub fn each_packet_has_one_place()
    ensures all { KeepsPlaces }
    ensures sound { SoundHasPlaces }
{}

/// Lemma: after any events the packets of a tight set were delivered in the order of their arrival,
/// without those that were dropped. Flows that collide, drops, resizes, offline lanes and a closing
/// gate do not reorder them.
pub fn tight_sets_are_delivered_in_order()
    ensures { KeepsOrder }
{}

/// Lemma: the order of a tight set from event to event.
pub fn each_event_keeps_order()
    ensures new { NewIsOrdered }
    ensures fresh { FreshIsOrdered }
    ensures each { EachKeepsOrder }
    ensures order { OrderedIsInOrder }
{}

/// Lemma: the order of a producer's flow from event to event.
pub fn each_event_keeps_flows()
    ensures fresh { FreshFlowIsOrdered }
    ensures each { EachKeepsFlows }
    ensures order { FlowIsInOrder }
{}

/// Lemma: order through a hop, a prefix that is sent on, and order through a second hop without
/// drops are order from end to end.
pub fn order_holds_from_end_to_end()
    ensures { EndToEnd }
{}

/// Lemma: if two lists are ordered pair by pair, the second is a prefix of the first.
pub fn pairs_in_order_make_a_prefix()
    ensures { PairsMakePrefix }
{}

/// Lemma: after any events each drop has its cause, a full backlog or the flow limit.
pub fn each_drop_is_explained()
    ensures all { ExplainsDrops }
    ensures fresh { FreshIsExplained }
    ensures each { EachExplainsDrops }
{}

/// Lemma: nothing is dropped if all packets may wait and no lane has the flow limit.
pub fn ample_lanes_drop_nothing()
    ensures all { NeverDrops }
    ensures fresh { FreshIsAmple }
    ensures each { EachKeepsAmple }
{}

/// Lemma: each choice is the migration rule over the entry of its class at its moment, and later
/// events change neither the choice nor that entry.
pub fn each_choice_is_by_the_rule()
    ensures rule { ChoiceIsByTheRule }
    ensures stay { ChoicesStay }
{}

/// Lemma: a choice by the rule over the heads of all lanes is the choice over the one head that it
/// kept.
pub fn a_choice_is_decided_by_its_kept_head()
    ensures { KeptHeadDecides }
{}

/// Lemma: a hop answers that lanes are empty if and only if each of them is, for a set of lanes and
/// for a test.
pub fn emptied_answers_exactly()
    ensures exact { EmptiedIsExact }
    ensures asked { SetIsAsked }
{}

/// Lemma: a joined list of events is the first list and then the second.
pub fn lists_of_events_are_joined()
    ensures run { RunsAreJoined }
    ensures asks { AsksAreJoined }
{}

/// Lemma: a round of a lane, that is a pull, a delivery and a retire, gets exactly one packet
/// through if one waits and the hand is empty.
pub fn a_round_retires_one_packet()
    ensures asks { RoundMayBeAsked }
    ensures one { RoundRetiresOne }
{}

/// Lemma: each event that takes a packet on adds one to the work or is idle, no other event changes
/// it, and there are at most seven steps of work for each packet. So a machine that goes on as long
/// as work is done terminates.
pub fn work_goes_on_and_is_bounded()
    ensures on { WorkGoesOn }
    ensures stays { WorkStays }
    ensures bounded { WorkIsBounded }
{}
