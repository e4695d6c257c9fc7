//! The verdict on a report: whether a run of a plan over the packets of a capture may have it.
#![tactic(auto)]

mod halves;
mod judging;
mod laws;
mod verdict;

pub use halves::JudgesHistories;
pub use judging::judge;
pub use laws::{a_verdict_is_one, good_is_said_of_good_histories, replays_are_judged};
pub use report_check::{InTurn, OnThreads};
pub use verdict::Verdict;
