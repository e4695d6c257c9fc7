//! A run whose threads keep their coupling invariants has a good history.
#![tactic(auto)]

mod laws;

pub use laws::{
    a_run_is_good, busy_answers_are_true, busy_lanes_are_busy, choices_are_by_rule,
    commands_are_given, drops_are_explained, equal_counts_end_a_run, heads_are_rising,
    inboxes_are_in_order, one_count_suffices, own_tables_rule, replies_are_by_rule,
    tries_find_empty,
};
