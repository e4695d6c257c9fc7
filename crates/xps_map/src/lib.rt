//! Transmit packet steering (XPS): the transmit queue that a packet is sent through.
#![tactic(auto)]

mod inverse;
mod laws;
mod maps;

pub use laws::a_pick_is_a_candidate;
pub use maps::XpsMaps;
