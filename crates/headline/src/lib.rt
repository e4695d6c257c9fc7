//! The headline: what the report of every replay, and of every run with threads, promises, in words
//! of the bytes that were read and written, of the packets of the capture, and of the lists of a
//! history.
#![tactic(auto)]

mod laws;

pub use laws::{
    a_headline_is_of_the_run, a_report_has_the_headline, a_run_report_has_the_headline,
    an_order_shows_in_its_lists, every_replay_is_of_its_run, every_replay_is_right,
    forged_histories_are_not_of_the_run, forged_runs_are_no_runs, good_histories_are_right,
    the_events_of_steps_do_the_steps,
};
