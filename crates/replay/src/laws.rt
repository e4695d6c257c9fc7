//! Laws, each the contract of a lemma: a function with an empty body.
ghost use Rattle.replay.specs.Headlines.{EveryReportHasTheHeadline, EveryRunHasTheHeadline};

use headline::{a_report_has_the_headline, a_run_report_has_the_headline};
use steer_model::packets_are_of_flows;

/// The report of the bytes of a plan and of a capture is that of just one history, and what is
/// promised of a replay holds of that history.
pub fn every_report_has_the_headline()
    ensures { EveryReportHasTheHeadline }
{
    a_report_has_the_headline();
    packets_are_of_flows();
}

/// Every report of a history of a run on the bytes of a plan and of a capture is that of just that
/// history, and what is promised of a run with threads holds of it.
pub fn every_run_has_the_headline()
    ensures { EveryRunHasTheHeadline }
{
    a_run_report_has_the_headline();
}
