//! Receive packet steering (RPS): the processor that a receive queue's mask selects for a packet.
#![tactic(auto)]

mod choice;
mod map;

pub use choice::rps_choice;
pub use map::RpsMap;
