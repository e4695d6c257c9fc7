//! A list that grows up to a room that was reserved for it.
ghost use Rattle.std.specs.Prelude.{◌≡◌, ◌<◌, ◌≤◌, IfOk, length, slice_get, []};
ghost use Rattle.steer_base.specs.Journals.{grown, journal};

use crate::memory::OutOfMemory;
use std::alloc::Global;
use std::marker::Model;

/// A list of at most `room` items, with the memory for them: while it has room it grows without
/// allocating.
#[derive(Debug, Drop)]
pub struct Journal<T> {
    items: Vec<T>,
    room: u32,
}

impl<T> Model for Journal<T> {
    ghost use Rattle.std.specs.Prelude.{◌<◌, ◌≤◌, ◌^◌, length, vec_capacity};
    ghost use Rattle.steer_base.specs.Journals.{Journal as ItemsWithRoom, journal, journal_code};

    ghost Value = { ItemsWithRoom T };

    ghost coded = { journal_code T.code };

    ghost view = { λ j. journal j.items.items j.room };

    ghost invariant = { λ j. (j.room < 2 ^ 32) × (length j.items.items ≤ j.room)
        × (j.room ≤ vec_capacity j.items) };
}

impl<T> Journal<T> {
    /// An empty list with room for `room` items, whose memory is allocated here.
    pub fn make(alloc: Global, room: u32) -> Result<Journal<T>, OutOfMemory>
        ensures { IfOk result (λ made. made ≡ journal [] room) }
    {
        let items = Vec::with_capacity(alloc, room as usize)?;
        Ok(Journal { items, room })
    }

    /// Adds an item at the end.
    pub fn push(&mut self, item: T)
        requires { length self.old.items < self.old.room }
        ensures { self.new ≡ grown self.old item }
    {
        self.items.push_reserved(item);
    }

    /// The number of items.
    pub fn len(&self) -> u32
        ensures len { result ≡ length self.now.items }
        ensures fits { result ≤ self.now.room }
    {
        self.items.len() as u32
    }

    /// How many items the list has room for.
    pub fn room(&self) -> u32
        ensures { result ≡ self.now.room }
    {
        self.room
    }

    /// The item at an index, from 0, and none past the end.
    pub fn get(&self, index: u32) -> Option<T>
    where
        T: Copy,
        ensures { result ≡ slice_get self.now.items index }
    {
        self.items.get(index as usize).copied()
    }

    /// The items as a slice.
    pub fn as_slice(&self) -> &[T]
        ensures { result.now ≡ self.now.items }
    {
        &self.items
    }

    /// The items as a vector, without copying.
    pub fn into_vec(self) -> Vec<T>
        ensures { result.items ≡ self.items }
    {
        let Journal { items, .. } = self;
        items
    }
}
