//! CPU hotplug and other gated commands: which lanes a command affects, and when it is refused.
#![tactic(auto)]

mod lanes;
mod online;

pub use lanes::affected;
pub use online::Online;
pub use steer_base::Refused;
