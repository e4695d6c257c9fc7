//! The table of socket flow entries.
ghost use Rattle.std.specs.Prelude.{◌≡◌, ◌<◌, ◌≤◌, IfOk, IfSome, length, nat_lt};
ghost use Rattle.steer_base.specs.Counters.{rounded_up};
ghost use Rattle.steer_base.specs.HashTables.{place_in_rows};
ghost use Rattle.steer_base.specs.declared.limits.TheConstants.{MAX_SOCKET_SIZE};
ghost use Rattle.sock_flow_table.specs.Sockets.{noted, unset, wanted};

use crate::noted::{FIRST_GENERATION, Noted};
use std::alloc::Global;
use std::marker::Model;
use steer_base::{Cpu, MAX_SOCKET_SIZE, OutOfMemory, place_of_hash, round_up};

/// For each entry, the processor noted there last (kernel scaling chapter, section RFS:
/// `rps_sock_flow_table`, whose size is `rps_sock_flow_entries` rounded up to a power of two).
#[derive(Drop)]
pub struct SockTable {
    // As many as the largest table has, and no spare capacity. The first `size` are in use.
    entries: Vec<Noted>,
    size: u32,
    // Only entries of this generation are set.
    generation: u8,
}

impl Model for SockTable {
    ghost use Rattle.std.specs.Prelude.{◌≡◌, ◌≤◌, ℕ, List, Option, take, vec_len, vec_capacity};
    ghost use Rattle.steer_base.specs.declared.limits.TheConstants.{MAX_SOCKET_SIZE};
    ghost use Rattle.sock_flow_table.specs.Generations.{AreUpTo, shown};

    ghost Value = { List (Option ℕ) };

    ghost view = { λ t. take t.size (shown t.generation t.entries.items) };

    ghost invariant = { λ t. (vec_len t.entries ≡ MAX_SOCKET_SIZE)
        × (vec_capacity t.entries ≡ MAX_SOCKET_SIZE)
        × (t.size ≤ MAX_SOCKET_SIZE)
        × AreUpTo t.generation t.entries.items };
}

impl SockTable {
    /// An empty table of `entries` entries, at most 65,536, rounded up to a power of two; 0 stays
    /// 0. It allocates the memory of the largest table here, and none later.
    pub fn make(alloc: Global, entries: u32) -> Result<SockTable, OutOfMemory>
        requires { entries ≤ MAX_SOCKET_SIZE }
        ensures { IfOk result (λ table. table ≡ unset (rounded_up entries)) }
    {
        let mut all = Vec::with_capacity(alloc, MAX_SOCKET_SIZE as usize)?;
        for _ in 0..MAX_SOCKET_SIZE {
            all.push_reserved(Noted::never());
        }
        Ok(SockTable {
            entries: all,
            size: round_up(entries),
            generation: FIRST_GENERATION,
        })
    }

    /// Writes the processor to entry `hash mod size`. If the table has no entries, returns false
    /// and writes nothing.
    pub fn note(&mut self, hash: u32, cpu: Cpu) -> bool
        ensures answer { result ≡ nat_lt 0 (length self.old) }
        ensures table { self.new ≡ noted self.old hash cpu }
    {
        let Some(place) = self.place(hash) else {
            return false;
        };
        self.entries[place] = Noted::make(self.generation, cpu);
        true
    }

    /// The processor in entry `hash mod size`, if one was noted there since the table was cleared.
    pub fn desired(&self, hash: u32) -> Option<Cpu>
        ensures { result ≡ wanted self.now hash }
    {
        let place = self.place(hash)?;
        self.entries[place].current(self.generation)
    }

    /// Clears the table and resizes it to `entries` entries, rounded up to a power of two.
    pub fn resize(&mut self, entries: u32)
        requires { entries ≤ MAX_SOCKET_SIZE }
        ensures { self.new ≡ unset (rounded_up entries) }
    {
        self.size = round_up(entries);
        self.generation = Noted::clear_all(&mut self.entries, self.generation);
    }

    // The entry of a hash, if the table has entries.
    fn place(&self, hash: u32) -> Option<usize>
        ensures value { result ≡ place_in_rows self.now (Some hash) }
        ensures within { IfSome result (λ place. place < length self.now) }
    {
        place_of_hash(Some(hash), self.size).map(|place| place as usize)
    }
}
