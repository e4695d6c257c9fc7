//! Generates input from a seed: a capture of some flows and a plan for it.
#![tactic(auto)]

mod capture;
mod frame;
mod frames;
mod input;
mod laws;
mod plan_text;

pub use frame::MAX_FLOWS;
pub use frames::generate_frames;
pub use input::{Generated, generate, generate_plan};
pub use laws::{a_frame_is_of_its_flow, a_generated_capture_has_its_frames};
