//! The redirection table of 128 entries.
ghost use Rattle.std.specs.Prelude.{◌≡◌, ◌<◌, ◌≤◌, All, is_ok, length, OnOk, OnErr};
ghost use Rattle.rss_table.specs.Redirection.{even_table, is_in_range, with_entry, queue_of};
ghost use Rattle.rss_table.specs.Redirection.{IsRedirection};
ghost use Rattle.rss_table.specs.declared.reta.TheConstants.{RETA_ENTRIES};

use std::marker::Model;
use steer_base::{RxQueue, even_entries};

/// The entries of a redirection table (Intel 82599 datasheet).
pub const RETA_ENTRIES: usize = 128;

/// The error for an entry or a queue that does not exist.
#[derive(Clone, Copy, Debug, PartialEq, Eq)]
pub struct EntryRange;

/// A table of 128 entries, each one of 1 to 16 receive queues (Intel 82599 datasheet, redirection
/// table).
#[derive(Drop)]
pub struct Reta {
    queues: u8,
    entries: [RxQueue; RETA_ENTRIES],
}

impl Model for Reta {
    ghost use Rattle.rss_table.specs.Redirection.{IsRedirection, Redirection};

    ghost Value = { Redirection };

    ghost view = { λ r. record { queues = r.queues; entries = r.entries } };

    ghost invariant = { λ r. IsRedirection (record { queues = r.queues; entries = r.entries }) };
}

impl Reta {
    /// The default table for `queues` queues, 1 to 16: entry `i` is queue `i mod queues`.
    pub fn even(queues: u8) -> Self
        requires some { 0 < queues }
        requires few { queues ≤ 16 }
        ensures { result ≡ even_table queues }
    {
        Reta {
            queues,
            entries: even_entries(queues),
        }
    }

    /// The table for `queues` queues, 1 to 16, with these 128 entries.
    pub fn from_entries(queues: u8, entries: &[RxQueue]) -> Self
        requires some { 0 < queues }
        requires few { queues ≤ 16 }
        requires size { length entries.now ≡ RETA_ENTRIES }
        requires below { All (λ queue. queue < queues) entries.now }
        ensures { result ≡ record { queues = queues; entries = entries.now } }
    {
        let mut table = [RxQueue(0); RETA_ENTRIES];
        table.copy_from_slice(entries);
        Reta {
            queues,
            entries: table,
        }
    }

    /// Sets entry `i` to a queue. If there is no such entry or no such queue, returns
    /// `EntryRange` and changes nothing.
    pub fn set(&mut self, i: u8, queue: RxQueue) -> Result<(), EntryRange>
        ensures answer { is_ok result ≡ is_in_range self.old i queue }
        ensures done { OnOk result (self.new ≡ with_entry self.old i queue) }
        ensures refused { OnErr result (self.new ≡ self.old) }
    {
        if usize::from(i) < RETA_ENTRIES && queue.0 < self.queues {
            self.entries[usize::from(i)] = queue;
            Ok(())
        } else {
            Err(EntryRange)
        }
    }

    /// Lemma: every table has 1 to 16 queues and 128 entries, each naming one of them.
    pub fn sound(&self)
        ensures sound { IsRedirection self.now }
    {
        let _ = &self.queues;
    }

    /// The queue of a packet with this hash: that of entry `hash mod 128`, or queue 0 without a
    /// hash.
    pub fn queue(&self, hash: Option<u32>) -> RxQueue
        ensures value { result ≡ queue_of self.now hash }
        ensures within { result < self.now.queues }
    {
        match hash {
            Some(hash) => self.entries[hash as usize % RETA_ENTRIES],
            None => RxQueue(0),
        }
    }
}
