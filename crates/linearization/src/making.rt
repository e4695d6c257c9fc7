//! The step that a call on a word adds to its seat's list. A call that takes or gives a slot has
//! `Moves`.
ghost use Rattle.std.specs.Prelude.{ℕ, List};
ghost use Rattle.atomic_table.specs.Table.{Step};
ghost use Rattle.linearization.specs.Orders.{StepBy};

use crate::hands::Hands;
use atomic_table::Play;
use std::marker::{Brand, PhantomData};

/// The step that one call on a word adds to its seat's list. The seat carries the same slots as
/// before.
pub trait Making<S, D> {
    // The step that is added, given the operands and the word that was found.
    ghost makes: { Step S → ℕ → D };
    // What the word that was found implies about the order before the step.
    ghost tells: { Step S → ℕ → List (StepBy D) → Type 0 };
}

/// The play of a seat that makes the step described by `M`, and takes and gives no slot.
pub struct Makes<M> {
    of: PhantomData<M>,
}

impl<S, D, M: Making<S, D>> Play<S, Hands<D>> for Makes<M> {
    ghost use Rattle.linearization.specs.Rules.{Made};

    ghost then = { Made M.makes M.tells };
}

/// The number of seats, for a call whose result depends on an order of all seats' steps.
pub trait Counted {
    // The number of seats.
    ghost seats: { ℕ };
}

impl Counted for Brand {
    ghost seats = { 0 };
}
