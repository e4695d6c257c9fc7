//! The controller, which gives the commands of a plan while the other threads of a run work.
#![tactic(auto)]

mod attempt;
mod change;
mod controller;
mod expiry;
mod gate;
mod gated;
mod known;
mod laws;
mod sockets;

pub use change::Change;
pub use controller::{Controller, MAX_TRIES};
pub use gate::{close_empty, set_and_open};
pub use known::Known;
pub use laws::{gated_tries_keep_their_coupling, the_controller_keeps_its_coupling};
