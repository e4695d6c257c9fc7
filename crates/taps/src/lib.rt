//! Taps: observers that are shown the packet lines of a history and produce a text for its report.
#![tactic(auto)]

mod depth;
mod feeding;
mod per_cpu;
mod per_flow;
mod standard;
mod tap;
mod text;

pub use depth::Depth;
pub use feeding::feed;
pub use per_cpu::PerCpu;
pub use per_flow::PerFlow;
pub use standard::{StandardTap, standard_taps};
pub use tap::{Tap, TapText};
