//! A table that the producers of a hop share: each of its entries belongs to at most one of them.
ghost use Rattle.std.specs.Prelude.{◌≡◌, slice_index_or, slice_set, if◌then◌else◌};
ghost use Rattle.std.specs.Prelude.{IfOk, replicate};
ghost use Rattle.hop_core.specs.SharedTable.{entry_of, free, is_for, is_of, owned, takes};

use std::alloc::Global;
use steer_base::{Entry, OutOfMemory};

/// An entry of the shared table, and the producer that it belongs to, if there is one.
#[derive(Clone, Copy)]
pub struct Owned {
    /// The producer.
    pub owner: Option<u8>,
    /// The current lane of the class, if it has one.
    pub lane: Option<u8>,
    /// The recorded tail of the class.
    pub tail: u32,
}

// A shared table of `count` entries that belong to nobody.
pub fn make(alloc: Global, count: u32) -> Result<Vec<Owned>, OutOfMemory>
    ensures { IfOk result (λ shared. shared.items ≡ replicate count free) }
{
    Ok(Vec::from_elem(alloc, free(), count as usize)?)
}

// The entry of a class, which belongs to nobody behind the end of the table.
pub fn at(shared: &Vec<Owned>, class: u32) -> Owned
    ensures { result ≡ slice_index_or shared.now.items class free }
{
    match shared.get(class as usize) {
        Some(owned) => *owned,
        None => free(),
    }
}

impl Owned {
    // Whether it belongs to this producer.
    pub fn is_of(self, p: u8) -> bool
        ensures { result ≡ is_of p self }
    {
        match self.owner {
            Some(owner) => owner == p,
            None => false,
        }
    }

    // Whether it belongs to this producer or to nobody.
    pub fn is_for(self, p: u8) -> bool
        ensures { result ≡ is_for p self }
    {
        match self.owner {
            Some(owner) => owner == p,
            None => true,
        }
    }

    // The entry without its owner.
    pub fn entry(self) -> Entry
        ensures { result ≡ entry_of self }
    {
        Entry {
            lane: self.lane,
            tail: self.tail,
        }
    }
}

// Writes the entry of a class for a producer, unless another has it or there is none. Whether it
// was written.
pub fn put(shared: &mut Vec<Owned>, p: u8, class: u32, entry: Entry) -> bool
    ensures result { result ≡ takes shared.old.items p class }
    ensures items { shared.new.items ≡ (if takes shared.old.items p class
        then slice_set shared.old.items class (owned p entry) else shared.old.items) }
{
    let takes = (class as usize) < shared.len() && shared[class as usize].is_for(p);
    if takes {
        shared[class as usize] = Owned {
            owner: Some(p),
            lane: entry.lane,
            tail: entry.tail,
        };
    }
    takes
}

// An entry that belongs to nobody.
fn free() -> Owned
    ensures { result ≡ free }
{
    Owned {
        owner: None,
        lane: None,
        tail: 0,
    }
}
