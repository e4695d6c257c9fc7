//! What the clauses of a good history are decided by: choices by the migration rule, packets in
//! order, and sets of pairs.
#![tactic(auto)]

mod chains;
mod currents;
mod pairs;
mod producer;
mod same;
mod weighing;

pub use chains::Chains;
pub use currents::CurrentLanes;
pub use pairs::PairSet;
pub use producer::{Producer, are_by_rule};
pub use same::{same_bytes, same_words};
pub use weighing::Question;
