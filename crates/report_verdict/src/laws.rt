//! Laws of verdicts, as functions that do nothing: their contracts are the laws.
ghost use Rattle.report_verdict.specs.Laws.{GoodReportsAreGood, HasOneVerdict, SaidGoodIsGood};
ghost use Rattle.report_verdict.specs.Replays.{ReplaysAreJudged, SweptReplaysAreGood};
ghost use Rattle.report_verdict.specs.Replays.{SweptReplaysAreJudged, UnrecordedReplaysAreGood};

use report::a_report_has_one_history;
use steer_invariant::every_replay_can_be_reported;
use steer_model::a_history_is_good_by_its_clauses;
use steer_properties::{
    commands_are_given_once, every_history_is_of_its_input, every_replay_is_good_so_far,
    swept_replays_are_good_at_rest,
};

/// Of a plan, the packets of a capture and some bytes there is at most one verdict.
pub fn a_verdict_is_one()
    ensures { HasOneVerdict }
{
    a_report_has_one_history();
}

/// For a plan without commands the report of each good history without commands is said to be good,
/// and only the report of such a history is.
pub fn good_is_said_of_good_histories()
    ensures good { GoodReportsAreGood }
    ensures said { SaidGoodIsGood }
{
    a_history_is_good_by_its_clauses();
}

/// What is said of the report of a replay of a plan without commands: good, or that clause 1, 3, 8
/// or 9 fails first, which speak of all packets of the capture (`judged`). If the last step is a
/// sweep only clause 9 can fail, and does so if and only if the writes to the socket flow table are
/// not those of the inboxes (`swept`, `good`). Without such a table the report is good
/// (`unrecorded`).
pub fn replays_are_judged()
    ensures judged { ReplaysAreJudged }
    ensures swept { SweptReplaysAreJudged }
    ensures good { SweptReplaysAreGood }
    ensures unrecorded { UnrecordedReplaysAreGood }
{
    a_report_has_one_history();
    every_replay_can_be_reported();
    every_history_is_of_its_input();
    commands_are_given_once();
    every_replay_is_good_so_far();
    swept_replays_are_good_at_rest();
}
