//! The history that the parts of a report show.
#![tactic(auto)]

mod arrivals;
mod choices;
mod lanes;
mod lookup;
mod printed;
mod replies;
mod writes;

pub use printed::{Printed, history_of};
