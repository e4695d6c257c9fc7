//! Lemmas about the text of a report, each the contract of a function with an empty body.
ghost use Rattle.report.specs.Laws.{AreFoundInText, HasOneHistory, HasRows};

use history::{histories_are_found_again, lines_fit};

/// Lemma: no field of a report has a space or a line feed, and only the row of a tap begins like
/// one.
pub fn a_report_has_rows()
    ensures { HasRows }
{}

/// Lemma: two lists of rows with equal texts are equal.
pub fn rows_are_found_in_their_text()
    ensures { AreFoundInText }
{}

/// Lemma: a report has one history. Bytes are the report of at most one history with a given
/// counter start, for the packets of a capture and a number of applications, and of one list of tap
/// texts, whatever these are.
pub fn a_report_has_one_history()
    ensures { HasOneHistory }
{
    histories_are_found_again();
    lines_fit();
}
