//! A worked run with threads that meets all coupling invariants, so these can be met together.
#![tactic(auto)]

mod laws;

pub use laws::moving_run_exists;
