//! What is wrong with a plan, and where.

pub mod cause;
pub mod fault;
pub mod path;
pub mod placed;
