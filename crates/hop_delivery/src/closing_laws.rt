//! Lemmas on delivery at the closing of a board. The functions have no code.
ghost use Rattle.hop_delivery.specs.Closings.FlowLaw.{FlowsAreInOrder};
ghost use Rattle.hop_delivery.specs.Closings.PutPlaces.{AnswersArePlaces, PacketsStand};
ghost use Rattle.hop_delivery.specs.Closings.PutPlaces.{TurnsPutOnce};
ghost use Rattle.hop_delivery.specs.Closings.TurnReads.{PicksAreByReads, RulesAreByReads};
ghost use Rattle.hop_delivery.specs.Closings.TurnReads.{TurnsKnowSettings};
ghost use Rattle.board_api.specs.Closings.Closings.{AtEachClosing};

/// Lemma: if the six premises hold of the seats' own lists, the packets of each flow of each
/// producer are left in the flow's out lane in the order in which they arrived, without those that
/// were dropped.
pub fn flows_of_closings_are_in_order()
    ensures { AtEachClosing FlowsAreInOrder }
{}

/// Lemma: the settings that a turn knows are those of its visit: what it reads, and what its seat
/// has kept from a visit with the same number. On a receive board a choice by the rule with the
/// settings that its queue's turns know is by the rule that the premises require. On a transmit
/// board a pick by the maps that a turn knows is by those of its visit.
pub fn turns_know_their_settings()
    ensures knows { AtEachClosing TurnsKnowSettings }
    ensures rule { AtEachClosing RulesAreByReads }
    ensures picks { AtEachClosing PicksAreByReads }
{}

/// Lemma: if all puts are by turns for packets that arrived, no packet is put twice. Then the
/// answer of a put is the packet's place in its lane, and each packet that a lane accepted or
/// dropped is there once, by a turn that chose the lane.
pub fn packets_are_put_once()
    ensures once { TurnsPutOnce }
    ensures places { AtEachClosing AnswersArePlaces }
    ensures stand { AtEachClosing PacketsStand }
{}
