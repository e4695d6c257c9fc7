//! The flow tables of a hop's producers.
ghost use Rattle.std.specs.Prelude.{◌≡◌, ℕ, ◌<◌, ◌≤◌, Bool, IfOk, IfSome, None, Option, false};
ghost use Rattle.std.specs.Prelude.{length, replicate, slice_index};
ghost use Rattle.std.specs.List.{All};
ghost use Rattle.steer_base.specs.Choices.{by_entry, class_of, migrate};
ghost use Rattle.steer_base.specs.Counters.{number, rounded_up};
ghost use Rattle.steer_base.specs.Sets.{has};
ghost use Rattle.steer_base.specs.declared.choice.Entry.{Entry as AnEntry};
ghost use Rattle.steer_base.specs.declared.limits.TheConstants.{MAX_FLOW_COUNT};
ghost use Rattle.dev_flow_table.specs.Tables.{IsClassOf, cleared, entries, unset, weighed};
ghost use Rattle.dev_flow_table.specs.Tables.{with_entry};
ghost use Rattle.hop_core.specs.FlowTables.{IsSet, LanesBelow, head_from, new_tables, noted};
ghost use Rattle.hop_core.specs.FlowTables.{table_at, with_rows};
ghost use Rattle.hop_model.specs.Shape.{classes_for, most_classes};

use crate::shared::{self, Owned};
use dev_flow_table::{DevTable, Wish, entry_after};
use std::alloc::Global;
use std::marker::Model;
use steer_base::{Choice, CpuMask, Entry, OutOfMemory, Put, Why, number_at};

/// A flow table for each producer.
#[derive(Drop)]
pub struct Tables {
    // Entries that each belong to at most one producer, in place of those of its own table. There
    // are none if the numbers of classes are rounded up.
    shared: Vec<Owned>,
    tables: Vec<DevTable>,
    start: u32,
    exact: bool,
}

impl Model for Tables {
    ghost use Rattle.std.specs.Prelude.{◌≡◌, false, []};
    ghost use Rattle.std.specs.List.{All};
    ghost use Rattle.hop_core.specs.FlowTables.{FlowTables};
    ghost use Rattle.hop_core.specs.SharedTable.{rows_from};

    ghost Value = { FlowTables };

    ghost view = { λ t. record {
      rows = rows_from t.shared.items 0 t.tables.items;
      start = t.start;
      exact = t.exact;
    } };

    ghost invariant = { λ t. (t.exact ≡ false → t.shared.items ≡ [])
        × All (λ table. (table.start ≡ t.start) × (table.exact ≡ t.exact)) t.tables.items };
}

impl Tables {
    /// A table of unset entries for each of these numbers of classes, which are rounded up to
    /// powers of two unless `exact`.
    pub fn make(
        alloc: Global,
        counts: &[u32],
        start: u32,
        exact: bool,
    ) -> Result<Tables, OutOfMemory>
        requires { All (λ count. count ≤ most_classes exact) counts.now }
        ensures { IfOk result (λ tables. tables ≡ new_tables counts.now start exact) }
    {
        let mut tables = Vec::with_capacity(alloc, counts.len())?;
        for count in counts {
            tables.push(table_of(alloc, *count, start, exact)?)?;
        }
        Ok(Tables {
            shared: shared::make(alloc, shared_count(counts, exact))?,
            tables,
            start,
            exact,
        })
    }

    // Whether the numbers of classes are taken as they are.
    pub(crate) fn is_exact(&self) -> bool
        ensures { result ≡ self.now.exact }
    {
        self.exact
    }

    /// The class of a hash in a producer's table.
    pub fn class(&self, p: u8, hash: Option<u32>) -> Option<u32>
        requires { p < length self.now.rows }
        ensures { result ≡ class_of (length (table_at self.now p).rows) hash }
    {
        let table = &self.tables[p as usize];
        table.class(hash)
    }

    /// Chooses the lane of a producer's packet, and records the choice in its table. `retired` has
    /// the count of each lane's head.
    #[inline(always)]
    pub fn choose(
        &mut self,
        retired: &[u32],
        p: u8,
        class: Option<u32>,
        want: Option<u8>,
        desired: u8,
        online: CpuMask,
    ) -> Choice
        requires table { p < length self.old.rows }
        requires class { IsClassOf (table_at self.old p) class }
        requires lanes { LanesBelow (table_at self.old p) (length retired.now) }
        ensures choice { result ≡ migrate class want desired (entries (table_at self.old p))
            (λ lane. number self.old.start (slice_index retired.now lane)) (has online) }
        ensures tables { self.new
            ≡ with_rows self.old p (weighed (table_at self.old p) class result).rows }
    {
        let Some(class) = class else {
            return plain(desired);
        };
        let entry = self.entry(p, class);
        let wish = Wish {
            class,
            want,
            desired,
        };
        let choice = choose_by(entry, self.start, retired, wish, online);
        let after = entry_after(self.start, entry, &choice);
        self.write(p, class, after);
        choice
    }

    /// Records the position of a packet that was put, if it was accepted.
    #[inline(always)]
    pub fn note(&mut self, p: u8, class: Option<u32>, went: Put)
        requires table { p < length self.old.rows }
        requires class { IsClassOf (table_at self.old p) class }
        requires set { IsSet (table_at self.old p) class }
        ensures { self.new ≡ with_rows self.old p (noted (table_at self.old p) class went).rows }
    {
        if let (Some(class), Put::At(position)) = (class, went) {
            let entry = self.entry(p, class);
            let after = Entry {
                tail: position,
                ..entry
            };
            self.write(p, class, after);
        }
    }

    /// Clears all entries of a table and resizes it to `count` of them, rounded up.
    pub fn resize(&mut self, p: u8, count: u32)
        requires table { p < length self.old.rows }
        requires count { count ≤ MAX_FLOW_COUNT }
        requires rounded { self.old.exact ≡ false }
        ensures { self.new
            ≡ with_rows self.old p (replicate (rounded_up count) (unset self.old.start)) }
    {
        let table = &mut self.tables[p as usize];
        table.resize(count);
    }

    // The entry of a class in a producer's table.
    #[inline(always)]
    fn entry(&self, p: u8, class: u32) -> Entry
        requires table { p < length self.now.rows }
        requires class { class < length (table_at self.now p).rows }
        ensures { result ≡ entries (table_at self.now p) class }
    {
        let shared = shared::at(&self.shared, class);
        if shared.is_of(p) {
            return shared.entry();
        }
        let table = &self.tables[p as usize];
        table.entry(class)
    }

    // Replaces the entry of a class in a producer's table: the shared one, unless another producer
    // has it.
    #[inline(always)]
    fn write(&mut self, p: u8, class: u32, entry: Entry)
        requires table { p < length self.old.rows }
        requires class { class < length (table_at self.old p).rows }
        ensures { self.new
            ≡ with_rows self.old p (with_entry (table_at self.old p) class entry).rows }
    {
        if !shared::put(&mut self.shared, p, class, entry) {
            let table = &mut self.tables[p as usize];
            table.set(class, entry);
        }
    }
}

// One table.
fn table_of(alloc: Global, count: u32, start: u32, exact: bool) -> Result<DevTable, OutOfMemory>
    requires { count ≤ most_classes exact }
    ensures { IfOk result (λ table. table ≡ cleared (classes_for exact count) start exact) }
{
    if exact {
        DevTable::make_exact(alloc, count, start)
    } else {
        DevTable::make(alloc, count, start)
    }
}

// How many entries the producers share: the largest number of classes, if these are exact.
fn shared_count(counts: &[u32], exact: bool) -> u32
    ensures { exact ≡ false → result ≡ 0 }
{
    let mut most = 0;
    if exact {
        for count in counts {
            most = most.max(*count);
        }
    }
    most
}

// The choice for a packet without a class.
fn plain(desired: u8) -> Choice
    ensures { (want : Option ℕ) → (entries : ℕ → AnEntry) → (head : ℕ → ℕ) → (online : ℕ → Bool)
        → result ≡ migrate None want desired entries head online }
{
    Choice {
        class: None,
        want: None,
        head: None,
        tail: None,
        lane: desired,
        why: Why::Plain,
    }
}

// The head of the current lane of an entry, if the migration rule looks at it.
fn head_for(entry: Entry, start: u32, retired: &[u32], desired: u8, online: CpuMask) -> Option<u32>
    requires { IfSome entry.lane (λ lane. lane < length retired.now) }
    ensures { result ≡ head_from entry.lane desired (has online)
        (λ lane. number start (slice_index retired.now lane)) }
{
    match entry.lane {
        Some(lane) if lane != desired && online.has(lane) => {
            Some(number_at(start, retired[lane as usize]))
        }
        _ => None,
    }
}

// The choice by the rule over an entry.
fn choose_by(entry: Entry, start: u32, retired: &[u32], wish: Wish, online: CpuMask) -> Choice
    requires { IfSome entry.lane (λ lane. lane < length retired.now) }
    ensures { result ≡ by_entry wish.class wish.want wish.desired entry.tail
        (λ lane. number start (slice_index retired.now lane)) (has online) entry.lane }
{
    let head = head_for(entry, start, retired, wish.desired, online);
    dev_flow_table::choose(wish, entry, head, online)
}
