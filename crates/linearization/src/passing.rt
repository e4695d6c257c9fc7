//! How hands pass from seat to seat.
use crate::hands::Hands;
use atomic_table::{Join, Play, Split};
use std::marker::PhantomData;

/// A split: the first hand of a seat goes to a new seat.
pub struct Deals<D> {
    of: PhantomData<D>,
}

impl<D> Split<Hands<D>> for Deals<D> {
    ghost use Rattle.linearization.specs.Views.{kept_hands, given_hands};

    ghost left = { kept_hands };

    ghost right = { given_hands };
}

/// A join: a seat takes all hands of another.
pub struct Gathers<D> {
    of: PhantomData<D>,
}

impl<D> Join<Hands<D>> for Gathers<D> {
    ghost use Rattle.linearization.specs.Views.{joined_hands, no_hands};

    ghost both = { joined_hands };

    ghost spent = { no_hands };
}

/// The play that makes a new seat, which has no hand.
pub struct Sits<D> {
    of: PhantomData<D>,
}

impl<S, D> Play<S, Hands<D>> for Sits<D> {
    ghost use Rattle.linearization.specs.Views.{HasNone};

    ghost then = { HasNone };
}
