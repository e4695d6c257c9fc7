//! Items that are dealt out in turn, and taken back.
ghost use Rattle.std.specs.Prelude.{◌≡◌, ◌<◌, ◌≤◌, List, [], IfOk, length, map, replicate};
ghost use Rattle.std.specs.Vec.{vec_capacity};
ghost use Rattle.workers.specs.RoundRobin.{AreDealt};

use std::alloc::{AllocError, Global};

/// Deals items out in turn to so many hands, hand 0 first: item n goes to hand n % count, behind
/// those that the hand has. The only error is out of memory.
pub fn deal<T: Drop>(alloc: Global, items: Vec<T>, count: usize) -> Result<Vec<Vec<T>>, AllocError>
    requires some { 0 < count }
    ensures count { IfOk result (λ hands. length hands.items ≡ count) }
    ensures dealt { IfOk result (λ hands.
        AreDealt items.items (map (λ hand. hand.items) hands.items)) }
{
    let mut hands = empty_hands(alloc, count)?;
    let mut next = 0;
    for item in items {
        hands[next % count].push(item)?;
        next += 1;
    }
    Ok(hands)
}

// So many empty hands.
fn empty_hands<T: Drop>(alloc: Global, count: usize) -> Result<Vec<Vec<T>>, AllocError>
    ensures { IfOk result (λ hands. map (λ hand. hand.items) hands.items ≡ replicate count []) }
{
    let mut hands = Vec::with_capacity(alloc, count)?;
    for _ in 0..count {
        hands.push(Vec::new(alloc))?;
    }
    Ok(hands)
}

/// Takes items back that were dealt out in turn to these hands, hand 0 first: item n is at place
/// n / h of hand n % h, where h is the number of hands. `all` is an empty list with room for the
/// `count` items; it is returned with them, in the order of their numbers.
pub fn gather<T: Drop>(mut hands: Vec<Vec<T>>, mut all: Vec<T>, count: usize) -> Vec<T>
    ghost items: { List T }
    requires some { 0 < length hands.items }
    requires count { length items ≡ count }
    requires dealt { AreDealt items (map (λ hand. hand.items) hands.items) }
    requires empty { all.items ≡ [] }
    requires room { count ≤ vec_capacity all }
    ensures { result.items ≡ items }
{
    let mut left = count;
    while left > 0 {
        left -= 1;
        let hand = left % hands.len();
        if let Some(item) = hands[hand].pop() {
            all.push_reserved(item);
        }
    }
    all.reverse();
    all
}
