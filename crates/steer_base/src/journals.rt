//! Lists side by side, each of which grows up to one room that was reserved for it.
ghost use Rattle.std.specs.Prelude.{◌≡◌, ◌<◌, ◌≤◌, IfOk, length, map, slice_index_or};
ghost use Rattle.steer_base.specs.Journals.{list_at, new_journals, pushed};

use crate::memory::OutOfMemory;
use std::alloc::Global;
use std::marker::Model;

/// Lists of at most `room` items each, with the memory for them: while one has room it grows
/// without allocating.
#[derive(Debug, Drop)]
pub struct Journals<T> {
    lists: Vec<Vec<T>>,
    room: u32,
}

impl<T> Model for Journals<T> {
    ghost use Rattle.std.specs.Prelude.{◌<◌, ◌≤◌, ◌^◌, length, map, vec_capacity};
    ghost use Rattle.std.specs.List.{All};
    ghost use Rattle.steer_base.specs.Journals.{Journals as ListsWithRoom, journals, journals_code};

    ghost Value = { ListsWithRoom T };

    ghost coded = { journals_code T.code };

    ghost view = { λ j. journals (map (λ list. list.items) j.lists.items) j.room };

    ghost invariant = { λ j. (j.room < 2 ^ 32)
        × All (λ list. (length list.items ≤ j.room) × (j.room ≤ vec_capacity list)) j.lists.items };
}

impl<T> Journals<T> {
    /// `count` empty lists with room for `room` items each, whose memory is allocated here.
    pub fn make(alloc: Global, count: u8, room: u32) -> Result<Journals<T>, OutOfMemory>
    where
        T: Drop,
        ensures { IfOk result (λ made. made ≡ new_journals count room) }
    {
        let mut lists = Vec::with_capacity(alloc, count as usize)?;
        for _ in 0..count {
            lists.push(Vec::with_capacity(alloc, room as usize)?)?;
        }
        Ok(Journals { lists, room })
    }

    /// Adds an item at the end of list `i`.
    pub fn push(&mut self, i: u8, item: T)
        requires list { i < length self.old.lists }
        requires room { length (list_at self.old i) < self.old.room }
        ensures { self.new ≡ pushed self.old i item }
    {
        let list = &mut self.lists[i as usize];
        list.push_reserved(item);
    }

    /// The number of lists.
    pub fn count(&self) -> usize
        ensures { result ≡ length self.now.lists }
    {
        self.lists.len()
    }

    /// How many items each list has room for.
    pub fn room(&self) -> u32
        ensures { result ≡ self.now.room }
    {
        self.room
    }

    /// The number of items of list `i`.
    pub fn len_of(&self, i: u8) -> u32
        requires { i < length self.now.lists }
        ensures len { result ≡ length (list_at self.now i) }
        ensures fits { result ≤ self.now.room }
    {
        self.lists[i as usize].len() as u32
    }

    /// The item of list `i` at index `n`, from 0.
    pub fn get(&self, i: u8, n: u32) -> T
    where
        T: Copy,
        requires list { i < length self.now.lists }
        requires within { n < length (list_at self.now i) }
        ensures { result ≡ slice_index_or (list_at self.now i) n result }
    {
        let list = &self.lists[i as usize];
        list[n as usize]
    }

    /// The items of list `i` as a slice.
    pub fn list(&self, i: u8) -> &[T]
        requires { i < length self.now.lists }
        ensures { result.now ≡ list_at self.now i }
    {
        &self.lists[i as usize]
    }

    /// The lists as vectors, without copying.
    pub fn into_vecs(self) -> Vec<Vec<T>>
        ensures { map (λ list. list.items) result.items ≡ self.lists }
    {
        let Journals { lists, .. } = self;
        lists
    }
}
