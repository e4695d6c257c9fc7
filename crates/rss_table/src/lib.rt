//! The redirection table of RSS, which maps the hash of a packet to a receive queue.
#![tactic(auto)]

mod reta;

pub use reta::{EntryRange, RETA_ENTRIES, Reta};
