//! What a seat knows of the steps so far. Contracts cite these types; no value of them is made.
use std::collections::LinkedList;

/// The steps made by one seat.
pub struct Hand<D> {
    /// The number of the seat, from 0.
    pub number: u64,
    /// Its steps, the newest first.
    pub steps: LinkedList<D>,
}

/// The hands of one seat: one hand, or several after other seats were joined to it.
pub struct Hands<D> {
    /// The hands, those of the seat joined last first.
    pub hands: LinkedList<Hand<D>>,
}
