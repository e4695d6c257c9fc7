//! 64-bit words that several threads load, store and clear without a lock, in single atomic steps.
#![tactic(auto)]

mod calls;
mod hints;
mod laws;
mod making;
mod rule;
mod sizes;
mod step;

pub use hints::{HintSeat, Hints};
pub use laws::{changes_are_written, last_write, words_have_moments};
pub use step::HintStep;
