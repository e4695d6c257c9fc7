//! What the threads of a run leave in its history: at each of its two hops all was done in one
//! order, and the lists of the history are those of that order.
#![tactic(auto)]

mod laws;

pub use laws::{a_run_is_by_its_threads, boards_are_ordered};
