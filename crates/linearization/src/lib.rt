//! A linearization of the steps of several threads: numbered seats at a table of atomic words, each
//! with the list of its own steps, and one order of all steps.
#![tactic(auto)]

mod closing;
mod dealing;
mod gathered;
mod hands;
mod making;
mod moving;
mod passing;
mod rule;
mod seat;

pub use closing::{close, gather};
pub use dealing::deal;
pub use gathered::Gathered;
pub use hands::{Hand, Hands};
pub use making::{Counted, Makes, Making};
pub use moving::{Moves, Moving};
pub use passing::{Deals, Gathers, Sits};
pub use rule::{OneOrder, StepRule};
pub use seat::OrderedSeat;
