//! The rule of a table that has one order of all steps: its linearization.
ghost use Rattle.std.specs.Prelude.{ℕ, List};
ghost use mathlib.Core.Option.{Option};
ghost use Rattle.linearization.specs.Orders.{StepBy};

use crate::hands::Hands;
use atomic_table::TableRule;
use std::marker::PhantomData;

/// The effect of steps of type `D` on a table with slots of `S` that was made with the key `K`.
pub trait StepRule<S, D, K> {
    // The number of seats.
    ghost seats: { K → ℕ };
    // Whether an order of steps is lawful and leaves these words and these values at home.
    ghost lawful: { K → List (StepBy D) → List ℕ → List (Option S) → Type 0 };
}

/// The table rule that there is one order of all seats' steps, lawful by `R`.
pub struct OneOrder<R> {
    of: PhantomData<R>,
}

impl<S, D, K, R: StepRule<S, D, K>> TableRule<S, Hands<D>, K> for OneOrder<R> {
    ghost use Rattle.linearization.specs.Views.{all_hands};
    ghost use Rattle.linearization.specs.Rules.{Ordered};

    ghost holds = { λ key. Ordered (R.seats key) (R.lawful key) };

    ghost first = { λ key. all_hands (R.seats key) };
}
