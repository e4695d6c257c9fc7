//! What a hop is: its events and their answers, its state, and what each event does to it.
#![tactic(auto)]

mod event;
mod shape;

pub use event::{HopAnswer, HopEvent};
pub use shape::{HopShape, MAX_HOP_ROOM};
