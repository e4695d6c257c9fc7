//! Finds the first clause of a good history that a history fails, for a plan without commands.
#![tactic(auto)]

mod arrived;
mod case;
mod choices;
mod drops;
mod faults;
mod heads;
mod leaving;
mod order;
mod places;
mod positions;
mod queues;
mod replies;
mod steered;
mod swept;
mod wants;
mod writes;

pub use case::Case;
pub use faults::first_fault;
