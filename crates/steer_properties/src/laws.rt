//! Lemmas on the history of every replay: functions without code whose contracts state them.
ghost use Rattle.steer_properties.specs.Histories.Always.{Always};
ghost use Rattle.steer_properties.specs.Choices.Clear.{NothingIsOutstanding};
ghost use Rattle.steer_properties.specs.Commands.GivenOnce.{ReplaysGiveOnce, RunsGiveOnce};
ghost use Rattle.steer_properties.specs.Histories.GoodAtRest.{SeededReplaysAreGood};
ghost use Rattle.steer_properties.specs.Histories.GoodAtRest.{SweptRunsAreGood};
ghost use Rattle.steer_properties.specs.Histories.GoodSoFar.{GoodSoFar};
ghost use Rattle.steer_properties.specs.Commands.Answered.{AreAnswered, WritesAreMade};
ghost use Rattle.steer_properties.specs.Choices.ByTheRule.{AreChosen, AreReplied};
ghost use Rattle.steer_properties.specs.Histories.Sizes.{IsOfItsInput};
ghost use Rattle.steer_model.specs.Good.Arrivals.{QueuesAreSeen};
ghost use Rattle.steer_model.specs.Good.Choices.{HeadsAreRising};

/// Lemma: a history has the capture's number of packets and its cut, the plan's start, and lists
/// for the plan's queues, processors and transmit queues.
pub fn every_history_is_of_its_input()
    ensures { Always IsOfItsInput }
{}

/// Lemma: along the choices of a receive queue or of an application the counts of the heads that
/// they saw at one lane never fall, and none is over what the lane retired.
pub fn heads_never_fall()
    ensures { Always (λ i h. HeadsAreRising h) }
{}

/// Lemma: each arrival is at the queue of an entry of the redirection table, set by the plan or by
/// a done command, or at the queue of a filter. The filter was written for a choice that moved to
/// the home of this queue and whose packet was accepted there.
pub fn every_queue_was_seen()
    ensures { Always QueuesAreSeen }
{}

/// Lemma: each choice of a receive queue is the migration rule over the entry of its class at its
/// moment, with the settings after the commands given before it. A want that it kept was written to
/// the socket flow table. So a flow changes its processor exactly by the three conditions of the
/// kernel's scaling chapter (`AreChosen`, field `moves`).
pub fn every_choice_is_by_the_rule()
    ensures { Always AreChosen }
{}

/// Lemma: each choice for a reply is the migration rule with the flow as class and the pick of the
/// maps as want and as desired transmit queue, with the settings after the commands given before
/// it. Each reply keeps a processor where its application stood. So a flow changes its transmit
/// queue exactly by the three conditions (`AreReplied`, field `changes`).
pub fn every_reply_is_by_the_rule()
    ensures { Always AreReplied }
{}

/// Lemma: if a choice moved a flow's class to another processor, or a flow to another transmit
/// queue, each of its earlier packets that was accepted is retired: none was outstanding.
pub fn a_flow_moves_only_where_nothing_of_it_is_outstanding()
    ensures { Always (λ i h. NothingIsOutstanding h) }
{}

/// Lemma: each write to the socket flow table is that of an application for a packet of its own
/// with a hash, at the entry that a size of the run gives, with a processor where the application
/// stood.
pub fn every_write_is_of_a_packet()
    ensures { Always WritesAreMade }
{}

/// Lemma: each command is refused if and only if the settings after the done ones before it say so;
/// otherwise it is done, or busy because a lane was not empty or somebody was inside.
pub fn every_command_is_answered()
    ensures { Always AreAnswered }
{}

/// Lemma: the history of every replay meets each clause of a good history that does not ask that
/// the run is over.
pub fn every_replay_is_good_so_far()
    ensures { Always GoodSoFar }
{}

/// Lemma: the history of a replay that ends with a sweep, as that of every seeded plan does, meets
/// all clauses, but that its writes and its tries of commands are those of its steps: every packet
/// arrived, each that was taken has a choice, and all is swept.
pub fn swept_replays_are_good_at_rest()
    ensures runs { SweptRunsAreGood }
    ensures seeded { SeededReplaysAreGood }
{}

/// Lemma: the commands of a replay's history are those among its steps, each given once.
pub fn commands_are_given_once()
    ensures runs { RunsGiveOnce }
    ensures replays { ReplaysGiveOnce }
{}
