//! Decides whether a history is regular for the packets of a capture and a number of applications.
#![tactic(auto)]

mod item_test;
mod polling;
mod regularity;
mod replying;
mod shape;
mod slots;

pub use regularity::is_regular;
