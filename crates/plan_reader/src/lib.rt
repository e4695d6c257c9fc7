//! Reads the plan of a run from JSON text, or says what is wrong with it and where.
#![tactic(auto)]

pub mod faults;
pub mod json_text;
mod limits;
mod plan;
mod plan_fault;
mod plan_text;
mod settings;
mod steps;
pub mod values;

pub use limits::{MAX_PLAN_BACKLOG, MAX_PLAN_FILTERS};
pub use plan::{Plan, QueuePlan, Steps, TxPlan};
pub use plan_fault::PlanFault;
pub use plan_text::read_plan;
pub use settings::sizes::Sizes;
pub use steps::cursor::StepCursor;
