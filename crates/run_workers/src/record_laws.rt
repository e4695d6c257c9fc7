//! Lemmas on what actors keep of their turns: functions without code whose contracts state them.
ghost use Rattle.hop_delivery.specs.Orders.Turns.{Turn};
ghost use Rattle.run_workers.specs.Records.PollingLaws.{OtherTurnsStay, PollersBegin, PollersGoOn};
ghost use Rattle.run_workers.specs.Records.PollingLaws.{PollersStay};
ghost use Rattle.run_workers.specs.Records.ReplyingLaws.{ArrivalsComeLate, CallsAddSteps};
ghost use Rattle.run_workers.specs.Records.ReplyingLaws.{RepliesGoOn, ServersBegin, ServersStay};
ghost use Rattle.run_workers.specs.Records.ReplyingLaws.{TakesGoOn};
ghost use Rattle.run_workers.specs.Records.Storing.{ApplicationsStoreWrites};
ghost use Rattle.run_workers.specs.Records.Words.{Mark, Note};

/// Lemma: a poller that was made for a flow word and an empty ring has the record of no turns.
pub fn pollers_begin()
    ensures { PollersBegin }
{}

/// Lemma: a poll keeps the record of its poller, with a turn more if a packet was steered. The
/// record stays while other producers of the seat go on, and while the seat makes more steps at the
/// hint words.
pub fn pollers_keep_their_turns()
    ensures on { PollersGoOn }
    ensures stay { PollersStay }
    ensures others { OtherTurnsStay Turn }
    ensures other_marks { OtherTurnsStay Mark }
    ensures other_notes { OtherTurnsStay Note }
{}

/// Lemma: a new application has the record of no packets and no turns.
pub fn servers_begin()
    ensures { ServersBegin }
{}

/// Lemma: the calls of an application keep its record, with a packet more if one was taken, and
/// with a turn more if it replied. The record stays while other producers of the seat go on, and
/// while the seats make more steps at the receive board and at the hint words; and it may be read
/// with all arrivals once these are known.
pub fn servers_keep_their_turns()
    ensures takes { TakesGoOn }
    ensures replies { RepliesGoOn }
    ensures stay { ServersStay }
    ensures late { ArrivalsComeLate }
{}

/// Lemma: each call of a hand adds steps to the lists of the seats that it is given, and takes none
/// away.
pub fn calls_add_steps()
    ensures { CallsAddSteps }
{}

/// Lemma: an application stores what it notes as a write, when it takes a packet, and nothing when
/// it replies. (That a poll stores the filter that its turn asks for stands with its record.)
pub fn applications_store_writes()
    ensures { ApplicationsStoreWrites }
{}
