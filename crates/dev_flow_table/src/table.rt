//! The table of a queue's classes.
ghost use Rattle.std.specs.Prelude.{ℕ, ◌≡◌, ◌<◌, ◌≤◌, false, true, length, IfOk, IsSome};
ghost use Rattle.std.specs.Prelude.{unwrap_or};
ghost use Rattle.std.specs.Option.{is_some};
ghost use Rattle.steer_base.specs.Choices.{looks_at_head, migrate};
ghost use Rattle.steer_base.specs.Counters.{rounded_up};
ghost use Rattle.steer_base.specs.HashTables.{place_in_rows};
ghost use Rattle.steer_base.specs.Sets.{has};
ghost use Rattle.steer_base.specs.declared.choice.Entry.{Entry as AnEntry};
ghost use Rattle.steer_base.specs.declared.limits.TheConstants.{MAX_FLOW_COUNT};
ghost use Rattle.dev_flow_table.specs.Moves.{MovesInTable};
ghost use Rattle.dev_flow_table.specs.Tables.{IsClassOf, cleared, entries, recorded};
ghost use Rattle.dev_flow_table.specs.Tables.{weighed, with_entry};
ghost use Rattle.dev_flow_table.specs.declared.table.TheConstants.{MAX_EXACT_CLASSES};

use crate::rule::{self, Wish};
use crate::written::{entry_at, write_at};
use std::alloc::Global;
use std::marker::Model;
use steer_base::{
    Choice, CpuMask, Entry, MAX_FLOW_COUNT, OutOfMemory, Why, place_of_hash, round_up,
};

/// The most classes of a table whose size is fixed: one for each flow of a capture.
pub const MAX_EXACT_CLASSES: u32 = 262_144;

/// For each class of a queue, its current lane and its recorded tail, as in the device flow tables
/// of the kernel's scaling chapter. Recorded tails are wrapping 32-bit counter numbers.
#[derive(Drop)]
pub struct DevTable {
    // The entries up to the last that was written since the table was cleared; those behind them
    // are unset. There is room for as many as the table ever has.
    rows: Vec<Entry>,
    size: u32,
    start: u32,
    exact: bool,
}

impl Model for DevTable {
    ghost use Rattle.std.specs.Prelude.{◌≡◌, ◌≤◌, true, false, vec_len, vec_capacity};
    ghost use Rattle.steer_base.specs.declared.limits.TheConstants.{MAX_FLOW_COUNT};
    ghost use Rattle.dev_flow_table.specs.Tables.{Table};
    ghost use Rattle.dev_flow_table.specs.Written.{filled};
    ghost use Rattle.dev_flow_table.specs.declared.table.TheConstants.{MAX_EXACT_CLASSES};

    ghost Value = { Table };

    ghost view = { λ t. record {
      rows = filled t.rows.items t.size t.start;
      start = t.start;
      exact = t.exact;
    } };

    ghost invariant = { λ t. (vec_len t.rows ≤ t.size)
        × (t.size ≤ vec_capacity t.rows)
        × (vec_capacity t.rows ≤ MAX_EXACT_CLASSES)
        × (t.exact ≡ false → vec_capacity t.rows ≡ MAX_FLOW_COUNT)
        × (t.exact ≡ true → vec_capacity t.rows ≡ t.size) };
}

impl DevTable {
    /// A resizable table of `count` unset entries, rounded up to a power of two. The counters of
    /// the lanes begin at the number `start`. Allocates the memory of the largest such table here,
    /// and none later.
    pub fn make(alloc: Global, count: u32, start: u32) -> Result<DevTable, OutOfMemory>
        requires { count ≤ MAX_FLOW_COUNT }
        ensures { IfOk result (λ table. table ≡ cleared (rounded_up count) start false) }
    {
        Ok(DevTable {
            rows: Vec::with_capacity(alloc, MAX_FLOW_COUNT as usize)?,
            size: round_up(count),
            start,
            exact: false,
        })
    }

    /// A table of exactly `count` unset entries, whose size is fixed. Allocates its memory here,
    /// and none later.
    pub fn make_exact(alloc: Global, count: u32, start: u32) -> Result<DevTable, OutOfMemory>
        requires { count ≤ MAX_EXACT_CLASSES }
        ensures { IfOk result (λ table. table ≡ cleared count start true) }
    {
        Ok(DevTable {
            rows: Vec::with_capacity(alloc, count as usize)?,
            size: count,
            start,
            exact: true,
        })
    }

    /// The class of a hash: the hash modulo the number of entries. There is none without a hash, or
    /// if the table has no entries.
    pub fn class(&self, hash: Option<u32>) -> Option<u32>
        ensures { result ≡ place_in_rows self.now.rows hash }
    {
        place_of_hash(hash, self.size)
    }

    /// The current lane of a class, if it has one.
    pub fn current(&self, class: u32) -> Option<u8>
        requires { class < length self.now.rows }
        ensures { result ≡ (entries self.now class).lane }
    {
        entry_at(&self.rows, class, self.start).lane
    }

    /// The recorded tail of a class.
    pub fn tail(&self, class: u32) -> u32
        requires { class < length self.now.rows }
        ensures { result ≡ (entries self.now class).tail }
    {
        entry_at(&self.rows, class, self.start).tail
    }

    /// The entry of a class.
    pub fn entry(&self, class: u32) -> Entry
        requires { class < length self.now.rows }
        ensures { result ≡ entries self.now class }
    {
        entry_at(&self.rows, class, self.start)
    }

    /// Replaces the entry of a class.
    pub fn set(&mut self, class: u32, entry: Entry)
        requires { class < length self.old.rows }
        ensures { self.new ≡ with_entry self.old class entry }
    {
        write_at(&mut self.rows, class, entry, self.start);
    }

    /// Chooses the lane of a packet by the entry of its class, and records the choice in that
    /// entry. `head` is the head of the class's current lane, given if and only if the rule looks
    /// at it.
    pub fn weigh(
        &mut self,
        class: Option<u32>,
        want: Option<u8>,
        desired: u8,
        head: Option<u32>,
        online: CpuMask,
    ) -> Choice
        requires class { IsClassOf self.old class }
        requires head { is_some head ≡ looks_at_head class (entries self.old) desired (has online) }
        ensures choice { result ≡ migrate class want desired (entries self.old)
            (λ _. unwrap_or head 0) (has online) }
        ensures table { self.new ≡ weighed self.old class result }
        ensures moves { MovesInTable self.old class result desired
            (λ _. unwrap_or head 0) (has online) }
    {
        let Some(class) = class else {
            return Choice {
                class: None,
                want: None,
                head: None,
                tail: None,
                lane: desired,
                why: Why::Plain,
            };
        };
        let wish = Wish {
            class,
            want,
            desired,
        };
        let entry = entry_at(&self.rows, class, self.start);
        let choice = rule::choose(wish, entry, head, online);
        let after = rule::entry_after(self.start, entry, &choice);
        write_at(&mut self.rows, class, after, self.start);
        choice
    }

    /// Records that the current lane accepted a packet of the class at this position.
    pub fn accepted(&mut self, class: u32, position: u32)
        requires class { class < length self.old.rows }
        requires set { IsSome (entries self.old class).lane }
        ensures { self.new ≡ recorded self.old class position }
    {
        let entry = entry_at(&self.rows, class, self.start);
        let after = Entry {
            tail: position,
            ..entry
        };
        write_at(&mut self.rows, class, after, self.start);
    }

    /// Clears all entries and resizes the table to `count` of them, rounded up to a power of two.
    pub fn resize(&mut self, count: u32)
        requires count { count ≤ MAX_FLOW_COUNT }
        requires rounded { self.old.exact ≡ false }
        ensures { self.new ≡ cleared (rounded_up count) self.old.start false }
    {
        self.size = round_up(count);
        self.rows.clear();
    }
}
