//! Lemmas on every lawful order of steps. The functions have no code.
ghost use Rattle.hop_rule.specs.Boards.{PartsAreLawful};
ghost use Rattle.hop_rule.specs.CloseLaws.{BusyLanesHavePackets, FoundVisitsAreOpen};
ghost use Rattle.hop_rule.specs.Events.{BeginsFresh, EachStepIsAnEvent};
ghost use Rattle.hop_rule.specs.LaneLaws.{EachRetireFollows, HeadsFollowDeliveries};
ghost use Rattle.hop_rule.specs.LaneLaws.{MiddleLanesAreHeldByOne, OutLanesAreHeldByOne};
ghost use Rattle.hop_rule.specs.OwnLaws.{OwnStepsHaveMoments};
ghost use Rattle.hop_rule.specs.PutLaws.{DeliveredAsAccepted, DeliveredInOrder, DropCountsRise};
ghost use Rattle.hop_rule.specs.PutLaws.{DropsAreExplained, EachAcceptedWasPut};
ghost use Rattle.hop_rule.specs.PutLaws.{EachDeliveryIsRight, EachDropWasPut, EachMemberWasGiven};
ghost use Rattle.hop_rule.specs.PutLaws.{EachPutIsRight, LoadedHeadsArePassed};
ghost use Rattle.hop_rule.specs.PutLaws.{LoadedHeadsAreRetires, OffersArePuts, PlacesRise};
ghost use Rattle.hop_rule.specs.PutLaws.{PositionsRise};
ghost use Rattle.hop_rule.specs.SettingLaws.{EmptiedLanesStandFirst, GateWordCountsVisits};
ghost use Rattle.hop_rule.specs.SettingLaws.{HeadsAreBelowTails, NoSetWhileInside};
ghost use Rattle.hop_rule.specs.SettingLaws.{SettingsAreTheClosers, VisitsAreNumbered};
ghost use Rattle.hop_rule.specs.SettingLaws.{VisitsReadSettings, VisitsShowSettings};
ghost use Rattle.hop_rule.specs.TailLaws.{LoadedTailsAreAccepted, LoadedTailsAreDelivered};

/// Lemma: each of a seat's own steps is a step of the order, at moments that rise along its list.
pub fn own_steps_stand_in_the_order()
    ensures { OwnStepsHaveMoments }
{}

/// Lemma: in a lawful order the steps at lanes are lawful by themselves, and so are those at the
/// gate.
pub fn parts_of_an_order_are_lawful()
    ensures { PartsAreLawful }
{}

/// Lemma: the gate's word is the sum of the open visits of all seats, the closed mark and the
/// closer's openings. While the gate is closed nobody is inside.
pub fn the_gate_word_counts_visits()
    ensures { GateWordCountsVisits }
{}

/// Lemma: a lane is held by at most one seat. While it is held it is as its holder found it, and
/// its word is marked; otherwise it is in its slot, and its word is twice its tail.
pub fn a_held_lane_is_as_its_holder_found_it()
    ensures middle { MiddleLanesAreHeldByOne }
    ensures out { OutLanesAreHeldByOne }
{}

/// Lemma: the head of a lane counts retires, and each of these follows a delivery of its own.
pub fn heads_follow_deliveries()
    ensures counts { HeadsFollowDeliveries }
    ensures step { EachRetireFollows }
{}

/// Lemma: each accepted position is one put and each drop one dropped put, and conversely.
pub fn puts_and_positions_are_one_to_one()
    ensures put { EachPutIsRight }
    ensures accepted { EachAcceptedWasPut }
    ensures dropped { EachDropWasPut }
    ensures rise { PositionsRise }
{}

/// Lemma: each packet of an out lane is one delivery, and conversely.
pub fn deliveries_and_places_are_one_to_one()
    ensures delivery { EachDeliveryIsRight }
    ensures member { EachMemberWasGiven }
    ensures rise { PlacesRise }
{}

/// Lemma: each drop has the cause that its two counts and the offers before it give, and along the
/// drops of a lane neither count falls.
pub fn drops_are_explained()
    ensures offers { OffersArePuts }
    ensures counts { DropCountsRise }
    ensures causes { DropsAreExplained }
{}

/// Lemma: the packets of a lane are delivered in the order in which it accepted them.
pub fn lanes_deliver_in_order()
    ensures packets { DeliveredAsAccepted }
    ensures places { DeliveredInOrder }
{}

/// Lemma: the packets that a loaded head counts were delivered, and are in their out lanes below
/// all that are put after the load.
pub fn a_loaded_head_was_passed()
    ensures retires { LoadedHeadsAreRetires }
    ensures passed { LoadedHeadsArePassed }
{}

/// Lemma: the loaded word of a lane counts the packets that the lane had accepted, and that of an
/// out lane those delivered to it; there are no fewer in the end.
pub fn loaded_tails_count_packets()
    ensures accepted { LoadedTailsAreAccepted }
    ensures delivered { LoadedTailsAreDelivered }
{}

/// Lemma: settings are made by the closer, and none while a seat is inside. A visit reads those
/// before the last opening that its entry counts.
pub fn a_visit_sees_one_list_of_settings()
    ensures closers { SettingsAreTheClosers }
    ensures inside { NoSetWhileInside }
    ensures numbers { VisitsAreNumbered }
    ensures shows { VisitsShowSettings }
    ensures reads { VisitsReadSettings }
{}

/// Lemma: the packets of a lane that the closer found empty were put in visits before that close,
/// were delivered, and are below all that are put in visits after it.
pub fn an_emptied_lane_stands_first()
    ensures first { EmptiedLanesStandFirst }
    ensures counts { HeadsAreBelowTails }
{}

/// Lemma: a close that did not shut counts the visits that were open at that moment, and there was
/// one. A lane that was not found empty behind a close had a packet, not yet retired, at the close.
pub fn a_busy_gate_or_lane_was_busy()
    ensures visits { FoundVisitsAreOpen }
    ensures lanes { BusyLanesHavePackets }
{}

/// Lemma: each step is one event of a hop on its lanes and its gate, or leaves them as they are.
pub fn each_step_is_one_event_or_none()
    ensures begins { BeginsFresh }
    ensures event { EachStepIsAnEvent }
{}
