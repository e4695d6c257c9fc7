//! The coupling invariants of a run with threads: what each thread keeps of its own steps, and how
//! that relates to the history of the run.
#![tactic(auto)]

mod laws;

pub use laws::{calls_make_tries, empty_hands_have_retired, shared_codes_exist};
