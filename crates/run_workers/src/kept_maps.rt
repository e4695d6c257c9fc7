//! The maps of the transmit queues, which an application keeps from reply to reply.
ghost use Rattle.std.specs.Prelude.{◌≡◌, ◌≢◌, ◌<◌, ◌≤◌, None, Some, false, slice_set, true};
ghost use Rattle.xps_map.specs.Maps.{picked};
ghost use Rattle.run_words.specs.Values.{cpus_in, queues_in};
ghost use Rattle.run_workers.specs.Hands.KeptMaps.{IsFor, with_map};

use run_words::{cpus_in, queues_in};
use std::marker::Model;
use steer_base::{Cpu, CpuMask, RxQueue, TxQueue};
use xps_map::XpsMaps;

/// The most transmit queues.
const MAX_TXS: usize = 32;

/// The maps of 1 to 32 transmit queues, the words by which they were set, and the number of the
/// visits in which they are known: all visits of one number read the same words.
#[derive(Drop)]
pub struct KeptMaps {
    // Of so many processors, receive queues and transmit queues.
    cpus: u8,
    queues: u8,
    txs: u8,
    cpu_words: [u64; MAX_TXS],
    queue_words: [u64; MAX_TXS],
    maps: XpsMaps,
    visit: Option<u32>,
}

impl Model for KeptMaps {
    ghost use Rattle.run_workers.specs.Hands.KeptMaps.{Kept, IsByWords};

    ghost Value = { Kept };

    ghost view = { λ k. record {
      cpus = k.cpus;
      queues = k.queues;
      maps = k.maps;
      visit = k.visit;
    } };

    ghost invariant = { λ k. IsByWords k.cpus k.queues k.txs k.cpu_words k.queue_words k.maps };
}

impl KeptMaps {
    /// Empty maps for `txs` transmit queues, 1 to 32, whose words are of so many processors and
    /// receive queues. They are known in no visit.
    pub fn make(cpus: u8, queues: u8, txs: u8) -> KeptMaps
        requires cpus { cpus ≤ 32 }
        requires queues { queues ≤ 16 }
        requires some { 1 ≤ txs }
        requires few { txs ≤ 32 }
        ensures sizes { IsFor cpus queues txs result }
        ensures visit { result.visit ≡ None }
    {
        let sets = [CpuMask(0); MAX_TXS];
        let lists = [0; MAX_TXS];
        let count = usize::from(txs);
        KeptMaps {
            cpus,
            queues,
            txs,
            cpu_words: [0; MAX_TXS],
            queue_words: [0; MAX_TXS],
            maps: XpsMaps::from_lists(&sets[..count], &lists[..count]),
            visit: None,
        }
    }

    /// Makes the maps anew, empty, unless they are of so many processors, receive queues and
    /// transmit queues.
    pub fn fit(&mut self, cpus: u8, queues: u8, txs: u8)
        requires cpus { cpus ≤ 32 }
        requires queues { queues ≤ 16 }
        requires some { 1 ≤ txs }
        requires few { txs ≤ 32 }
        ensures { IsFor cpus queues txs self.new }
    {
        if self.cpus != cpus || self.queues != queues || self.txs != txs {
            *self = KeptMaps::make(cpus, queues, txs);
        }
    }

    /// Whether all of the maps are known in visits of this number.
    pub fn is_of(&self, number: u32) -> bool
        ensures yes { result ≡ true → self.now.visit ≡ Some number }
        ensures no { result ≡ false → self.now.visit ≢ Some number }
    {
        match self.visit {
            Some(known) => known == number,
            None => false,
        }
    }

    /// Notes that all of the maps are known in visits of this number.
    pub fn know(&mut self, number: u32)
        ensures { self.new ≡ record self.old { visit = Some number } }
    {
        self.visit = Some(number);
    }

    /// Sets the maps of a transmit queue by its two words, where these are not the ones that were
    /// read last.
    pub fn keep(&mut self, tx: TxQueue, cpu_word: u64, queue_word: u64)
        requires { tx < self.old.maps.count }
        ensures { self.new ≡ record self.old {
          maps = with_map self.old.cpus self.old.queues self.old.maps tx cpu_word queue_word;
        } }
    {
        self.keep_cpus(tx, cpu_word);
        self.keep_queues(tx, queue_word);
    }

    /// The transmit queue that the maps pick for a packet, as `XpsMaps::pick`.
    pub fn pick(&self, rxq: RxQueue, cpu: Cpu, hash: Option<u32>) -> TxQueue
        ensures value { result ≡ picked self.now.maps rxq cpu hash }
        ensures within { result < self.now.maps.count }
    {
        self.maps.pick(rxq, cpu, hash)
    }

    // Sets the processors of a transmit queue by their word.
    fn keep_cpus(&mut self, tx: TxQueue, word: u64)
        requires { tx < self.old.maps.count }
        ensures { self.new ≡ record self.old {
          maps = record self.old.maps {
            cpus = slice_set self.old.maps.cpus tx (cpus_in word self.old.cpus);
          };
        } }
    {
        let place = usize::from(tx.0);
        if self.cpu_words[place] != word {
            self.cpu_words[place] = word;
            self.maps.set_cpus(tx, cpus_in(word, self.cpus));
        }
    }

    // Sets the receive queues of a transmit queue by their word.
    fn keep_queues(&mut self, tx: TxQueue, word: u64)
        requires { tx < self.old.maps.count }
        ensures { self.new ≡ record self.old {
          maps = record self.old.maps {
            queues = slice_set self.old.maps.queues tx (queues_in word self.old.queues);
          };
        } }
    {
        let place = usize::from(tx.0);
        if self.queue_words[place] != word {
            self.queue_words[place] = word;
            self.maps.set_queues(tx, queues_in(word, self.queues));
        }
    }
}
