//! Accelerated receive flow steering: the filters of a network card, and when they expire.
#![tactic(auto)]

mod filter;
mod marks;
mod table;

pub use filter::{filter_written, may_expire};
pub use table::{FilterTable, MAX_FILTERS};
