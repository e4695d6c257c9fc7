//! The promises of a replay and of a run with threads, as contracts of lemmas: functions with empty
//! bodies.
ghost use Rattle.headline.specs.Events.{EventsAreTheSteps};
ghost use Rattle.headline.specs.Forged.{AcceptingAtFullIsForged, AnotherCommandIsForged};
ghost use Rattle.headline.specs.Forged.{AnotherDropIsForged, AnotherQueueIsForged};
ghost use Rattle.headline.specs.Forged.{AnotherWriteIsForged, EmptyIsForged, ExamplesAreWithin};
ghost use Rattle.headline.specs.Forged.{HeadlinesAreOfTheRun, MovingAtOnceIsForged};
ghost use Rattle.headline.specs.Forged.{NeverMovingIsForged, NoWantIsForged};
ghost use Rattle.headline.specs.ForgedRuns.{CircleOfQueuesIsForged, FutureHeadIsForged};
ghost use Rattle.headline.specs.ForgedRuns.{FutureTransmitHeadIsForged, OverfullBacklogIsForged};
ghost use Rattle.headline.specs.ForgedRuns.{OwnFilterIsForged, OwnWantIsForged};
ghost use Rattle.headline.specs.ForgedRuns.{StaleDropIsForged, StaleSettingsAreForged};
ghost use Rattle.headline.specs.ForgedRuns.{StalerDropIsForged};
ghost use Rattle.headline.specs.ForgedRuns.{SwappedInboxIsForged, SwappedPortIsForged};
ghost use Rattle.headline.specs.ForgedRuns.{SwappedPutsAreForged, UnpulledHeadIsForged};
ghost use Rattle.headline.specs.ForgedRuns.{UnsetWantIsForged};
ghost use Rattle.headline.specs.Laws.{GoodHistoriesAreRight, GoodHistoriesAreWhole};
ghost use Rattle.headline.specs.Laws.{RunReportsHaveTheHeadline};
ghost use Rattle.headline.specs.Laws.{ReplaysAreOfTheirRuns, ReplaysAreRight};
ghost use Rattle.headline.specs.Laws.{ReportsHaveTheHeadline};
ghost use Rattle.headline.specs.ListOrders.{OrdersShowInLists};

use report::a_report_has_one_history;
use steer_invariant::every_replay_can_be_reported;
use steer_model::{a_capture_has_one_list_of_packets, packets_are_of_flows};
use steer_properties::{
    a_flow_moves_only_where_nothing_of_it_is_outstanding, commands_are_given_once,
    every_choice_is_by_the_rule, every_history_is_of_its_input, every_replay_delivers_in_order,
    every_replay_is_good_so_far, every_reply_is_by_the_rule,
};

/// Lemma: in every state of every replay each packet that arrived is at exactly one place; every
/// drop was by a full backlog or by the flow limit; the packets of each flow from each receive
/// queue are delivered in the order of their arrival without the dropped ones, to the inbox and to
/// the port; and a flow changed its processor exactly where the manual lets it, and its transmit
/// queue exactly where another one was picked and the head of its own had reached the recorded
/// tail, in both cases only where none of its packets was outstanding.
pub fn every_replay_is_right()
    ensures { ReplaysAreRight }
{
    every_choice_is_by_the_rule();
    every_reply_is_by_the_rule();
    a_flow_moves_only_where_nothing_of_it_is_outstanding();
    every_replay_delivers_in_order();
}

/// Lemma: the history of the replay of a plan is the one that its steps make over the packets of
/// the capture. It has the sizes of its input, meets each clause of a good history that does not
/// ask that the run is over, and has the plan's commands, each given once.
pub fn every_replay_is_of_its_run()
    ensures { ReplaysAreOfTheirRuns }
{
    every_history_is_of_its_input();
    every_replay_is_good_so_far();
    commands_are_given_once();
}

/// Lemma: the events of a step lead to the state that the step leaves, and the events of some steps
/// to the state after them; so a run is its events, one by one.
pub fn the_events_of_steps_do_the_steps()
    ensures { EventsAreTheSteps }
{}

/// Lemma: the report of a replay of these bytes is that of just one history, which is the one of
/// the run, and all that is promised of a replay holds of it.
pub fn a_report_has_the_headline()
    ensures { ReportsHaveTheHeadline }
{
    every_replay_is_right();
    every_replay_is_of_its_run();
    every_replay_can_be_reported();
    a_report_has_one_history();
    a_capture_has_one_list_of_packets();
}

/// Lemma: forged reports are refused, on an example of two packets of one flow. Each of these is no
/// history of the run: one of no packets; one in which the flow never moves, or moves while its
/// first packet is outstanding; one with a packet in a queue that no entry names; one in which the
/// second packet finds no want; and ones with a write or a command that the plan does not give. No
/// moments of a run are in a history with a packet that was accepted where the backlog was full, or
/// with a drop that keeps other counts than those of its moment.
pub fn forged_histories_are_not_of_the_run()
    ensures examples { ExamplesAreWithin }
    ensures empty { EmptyIsForged }
    ensures never_moving { NeverMovingIsForged }
    ensures moving_at_once { MovingAtOnceIsForged }
    ensures another_queue { AnotherQueueIsForged }
    ensures no_want { NoWantIsForged }
    ensures another_write { AnotherWriteIsForged }
    ensures another_command { AnotherCommandIsForged }
    ensures accepting_at_full { AcceptingAtFullIsForged }
    ensures another_drop { AnotherDropIsForged }
{}

/// Lemma: a text with the headline is the report of no other history than the one of the run, so
/// that a report of a forged history has no headline.
pub fn a_headline_is_of_the_run()
    ensures { HeadlinesAreOfTheRun }
{
    every_replay_is_of_its_run();
    a_capture_has_one_list_of_packets();
}

/// Lemma: a history that meets the eleven clauses of a good one, whoever made it, is as it should
/// be: one place for each packet, drops by their causes, delivery in order, and choices by the
/// manual's three conditions (`right`). In it all is done: of each flow from each receive queue all
/// packets that no processor dropped are in the inbox, and on the port (`whole`).
pub fn good_histories_are_right()
    ensures right { GoodHistoriesAreRight }
    ensures whole { GoodHistoriesAreWhole }
{}

/// Lemma: where all that was done at a hop was done in one order, its lists show it. What one
/// producer put to one lane is there in the order of its choices, accepted and dropped. An out list
/// keeps the order of each lane. A head that a choice saw fits what its producer put before and
/// after it, and the packets that it counts are delivered before those that are put later.
pub fn an_order_shows_in_its_lists()
    ensures { OrdersShowInLists }
{}

/// Lemma: forged reports of runs are refused, each for what it shows and whatever else is in it: a
/// head beyond a later put, on the way in or out; puts of one queue in another order than its
/// choices; an inbox, or the port, in another order than its lane; drops whose counts are below an
/// earlier put; a drop that counts fewer pulled packets than a head; a backlog that accepts when it
/// is full; two queues each behind the other; settings that go back; a want that only the packets
/// of its own choice and of later ones can have written; a filter that only the first packet of all
/// or a later one can have set; and a want that is unset again without a command.
pub fn forged_runs_are_no_runs()
    ensures future_head { FutureHeadIsForged }
    ensures swapped_puts { SwappedPutsAreForged }
    ensures swapped_inbox { SwappedInboxIsForged }
    ensures swapped_port { SwappedPortIsForged }
    ensures stale_drop { StaleDropIsForged }
    ensures staler_drop { StalerDropIsForged }
    ensures unpulled_head { UnpulledHeadIsForged }
    ensures future_transmit_head { FutureTransmitHeadIsForged }
    ensures overfull_backlog { OverfullBacklogIsForged }
    ensures circle_of_queues { CircleOfQueuesIsForged }
    ensures stale_settings { StaleSettingsAreForged }
    ensures own_want { OwnWantIsForged }
    ensures own_filter { OwnFilterIsForged }
    ensures unset_want { UnsetWantIsForged }
{}

/// Lemma: the report of a good history of these bytes whose lists are those of a run is that of
/// just one history, and all that is promised of a run with threads holds of it.
pub fn a_run_report_has_the_headline()
    ensures { RunReportsHaveTheHeadline }
{
    good_histories_are_right();
    a_report_has_one_history();
    a_capture_has_one_list_of_packets();
    packets_are_of_flows();
}
