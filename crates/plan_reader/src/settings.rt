//! The fields of a plan, read in their order.

pub mod key;
pub mod members;
pub mod parts;
pub mod queue;
pub mod reta;
pub mod sizes;
