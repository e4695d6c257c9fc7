//! The table of filters.
ghost use Rattle.std.specs.Prelude.{ℕ, ◌≡◌, ◌<◌, ◌≤◌, ◌+◌, ◌*◌, IfNone, IfOk, IfSome, List, None};
ghost use Rattle.std.specs.Prelude.{Option, length, map, slice_index_or, slice_set};
ghost use Rattle.std.specs.Bool.{OnTrue, OnFalse};
ghost use Rattle.std.specs.List.{All, filter};
ghost use Rattle.std.specs.Slice.Scan.{HoldsNowhere};
ghost use Rattle.steer_base.specs.HashTables.{place_in_rows};
ghost use Rattle.steer_base.specs.declared.limits.TheConstants.{MAX_FLOW_COUNT};
ghost use Rattle.steer_base.specs.declared.filter.Filter.{Filter};
ghost use Rattle.accel_filter.specs.Expiry.{IsExpiredTo, IsSeated, is_old, kept_of};
ghost use Rattle.accel_filter.specs.Next.{IsNext};
ghost use Rattle.accel_filter.specs.Table.{filter_of, has_filter, is_over, steered, unset};
ghost use Rattle.accel_filter.specs.declared.marks.TheConstants.{WORDS};
ghost use Rattle.accel_filter.specs.declared.table.TheConstants.{MAX_FILTERS};

use crate::filter::may_expire;
use crate::marks::{Marks, WORDS};
use std::alloc::Global;
use std::marker::Model;
use steer_base::{Filter, OutOfMemory, place_of_hash};

/// The most filters of a card that a plan may ask for.
pub const MAX_FILTERS: u32 = 4_096;

/// The filters by which a network card steers a flow to the receive queue of the processor that
/// reads it (kernel scaling chapter, section accelerated RFS). Flows whose hashes agree modulo the
/// number of filters share one.
#[derive(Drop)]
pub struct FilterTable {
    // Without spare capacity.
    filters: Vec<Option<Filter>>,
    // The numbers of the set filters.
    set: Marks,
}

impl Model for FilterTable {
    ghost use Rattle.std.specs.Prelude.{ℕ, ◌≡◌, ◌≤◌, List, Option, vec_len, vec_capacity};
    ghost use Rattle.steer_base.specs.declared.filter.Filter.{Filter};
    ghost use Rattle.accel_filter.specs.Marks.{marked};
    ghost use Rattle.accel_filter.specs.Table.{has_filter};
    ghost use Rattle.accel_filter.specs.declared.table.TheConstants.{MAX_FILTERS};

    ghost Value = { List (Option Filter) };

    ghost view = { λ t. t.filters.items };

    ghost invariant = { λ t. (vec_len t.filters ≤ MAX_FILTERS)
        × (vec_capacity t.filters ≡ vec_len t.filters)
        × ((i : ℕ) → marked t.set i ≡ has_filter t.filters.items i) };
}

impl FilterTable {
    /// A table of `count` unset filters, at most 4,096; 0 means that the card has none. Allocates
    /// its memory here, and none later.
    pub fn make(alloc: Global, count: u32) -> Result<FilterTable, OutOfMemory>
        requires { count ≤ MAX_FILTERS }
        ensures { IfOk result (λ table. table ≡ unset count) }
    {
        let mut filters = Vec::with_capacity(alloc, count as usize)?;
        for _ in 0..count {
            filters.push_reserved(None);
        }
        Ok(FilterTable {
            filters,
            set: Marks::none(),
        })
    }

    /// The number of filters, set or not.
    pub fn count(&self) -> u32
        ensures { result ≡ length self.now }
    {
        self.filters.len() as u32
    }

    /// Writes filter `hash mod count`. Without filters it changes nothing.
    pub fn steer(&mut self, hash: u32, f: Filter)
        ensures { self.new ≡ steered self.old hash f }
    {
        if let Some(place) = self.place(hash) {
            self.filters[place] = Some(f);
            self.set.mark(place as u32);
        }
    }

    /// Filter `hash mod count`, if it is set.
    pub fn look(&self, hash: u32) -> Option<Filter>
        ensures { result ≡ filter_of self.now hash }
    {
        let place = self.place(hash)?;
        self.filters[place]
    }

    /// Clears filter `i` if it is set and may expire. `head` is the head of its processor,
    /// `entries` the flow count of its queue. Returns whether it was cleared.
    pub fn expire(&mut self, i: u32, head: u32, entries: u32) -> bool
        requires place { i < length self.old }
        requires few { entries ≤ MAX_FLOW_COUNT }
        ensures answer { result ≡ is_over (slice_index_or self.old i None) head entries }
        ensures cleared { OnTrue result (self.new ≡ slice_set self.old i None) }
        ensures kept { OnFalse result (self.new ≡ self.old) }
    {
        let Some(filter) = self.filters[i as usize] else {
            return false;
        };
        let over = may_expire(filter, head, entries);
        if over {
            self.filters[i as usize] = None;
            self.set.unmark(i);
        }
        over
    }

    /// Clears each filter that is set and may expire, and returns their number. `heads` has the
    /// head of each processor, `flows` the flow count of each receive queue. Takes a step for each
    /// set filter, and one for every 64 filters.
    pub fn expire_all(&mut self, heads: &[u32], flows: &[u32]) -> u32
        requires few { All (λ count. count ≤ MAX_FLOW_COUNT) flows.now }
        requires seated { All (IsSeated heads.now flows.now) self.old }
        ensures cleared { self.new ≡ map (kept_of heads.now flows.now) self.old }
        ensures count { result ≡ length (filter (is_old heads.now flows.now) self.old) }
    {
        let mut count = 0;
        for place in 0..self.words() {
            count += self.expire_word(place, heads, flows);
        }
        count
    }

    // The same for the 64 filters from 64 `place` on.
    fn expire_word(&mut self, place: u32, heads: &[u32], flows: &[u32]) -> u32
        requires place { place < WORDS }
        requires few { All (λ count. count ≤ MAX_FLOW_COUNT) flows.now }
        requires seated { All (IsSeated heads.now flows.now) self.old }
        ensures walked { (all : List (Option Filter)) (n : ℕ)
            → IsExpiredTo heads.now flows.now all (64 * place) n self.old
            → IsExpiredTo heads.now flows.now all (64 * place + 64) (n + result) self.new }
        ensures few { result ≤ 64 }
        ensures seated { All (IsSeated heads.now flows.now) self.new }
    {
        let mut count = 0;
        let mut left = self.set.word(place);
        while left != 0 {
            let bit = left.trailing_zeros();
            left &= !(1 << bit);
            if self.expire_by(64 * place + bit, heads, flows) {
                count += 1;
            }
        }
        count
    }

    // The number of words that have the marks of all filters.
    fn words(&self) -> u32
        ensures few { result ≤ WORDS }
        ensures enough { length self.now ≤ 64 * result }
    {
        self.filters.len().div_ceil(64) as u32
    }

    // Clears filter `i` if it is set and may expire, and returns whether it did.
    fn expire_by(&mut self, i: u32, heads: &[u32], flows: &[u32]) -> bool
        requires place { i < length self.old }
        requires few { All (λ count. count ≤ MAX_FLOW_COUNT) flows.now }
        requires seated { IsSeated heads.now flows.now (slice_index_or self.old i None) }
        ensures answer { result ≡ is_old heads.now flows.now (slice_index_or self.old i None) }
        ensures state { self.new ≡ slice_set self.old i
            (kept_of heads.now flows.now (slice_index_or self.old i None)) }
    {
        let Some(filter) = self.filters[i as usize] else {
            return false;
        };
        let head = heads[filter.cpu.0 as usize];
        let entries = flows[filter.queue.0 as usize];
        self.expire(i, head, entries)
    }

    /// The number of the first set filter from `from` on, if there is one. Takes at most one step
    /// for every 64 numbers up to `MAX_FILTERS`.
    pub fn next_set(&self, from: u32) -> Option<u32>
        ensures some { IfSome result
            (λ i. (i < length self.now) × IsNext (has_filter self.now) from i) }
        ensures few { IfSome result (λ i. i < MAX_FILTERS) }
        ensures none { IfNone result (HoldsNowhere (has_filter self.now) from (length self.now)) }
    {
        self.set.next(from)
    }

    // The index of a hash, if there are filters.
    fn place(&self, hash: u32) -> Option<usize>
        ensures value { result ≡ place_in_rows self.now (Some hash) }
        ensures within { IfSome result (λ place. place < length self.now) }
    {
        place_of_hash(Some(hash), self.count()).map(|place| place as usize)
    }
}
