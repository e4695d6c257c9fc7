//! The step that a call which takes or gives a slot adds to its seat's list.
ghost use Rattle.std.specs.Prelude.{ℕ, List};
ghost use Rattle.atomic_table.specs.Table.{Step};

use crate::hands::Hands;
use atomic_table::Play;
use std::marker::PhantomData;

/// The step of one call that may take or give a slot.
pub trait Moving<S, D> {
    // The relation of the operands, the word that was found, the step that was added, and the slots
    // that the seat carried before and after, each with its value.
    ghost moved: { Step S → ℕ → D → List (ℕ × S) → List (ℕ × S) → Type 0 };
}

/// The play of a seat that makes a step described by `M`.
pub struct Moves<M> {
    of: PhantomData<M>,
}

impl<S, D, M: Moving<S, D>> Play<S, Hands<D>> for Moves<M> {
    ghost use Rattle.linearization.specs.Rules.{Moved};

    ghost then = { Moved M.moved };
}
