//! The machine: it is made for a plan and the packets of a capture, carries out the plan's steps
//! one by one, and returns its history.
#![tactic(auto)]

mod actors;
mod kept;
mod parts;
mod steering;

pub use steering::Steering;
