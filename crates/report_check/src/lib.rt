//! The history that bytes are the report of, and whether they are the report of a given one.
#![tactic(auto)]

mod comparing;
mod printed;
mod reading;
mod routing;
mod showing;

pub use printed::{ReportFault, candidate, read_report};
pub use reading::{is_report, is_written};
pub use report_history::Printed;
pub use report_reader::{InTurn, OnThreads, ReadsSections};
