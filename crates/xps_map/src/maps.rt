//! The maps of the transmit queues.
ghost use Rattle.std.specs.Prelude.{◌≡◌, ◌<◌, ◌≤◌, true, length, slice_set, None, IfSome};
ghost use Rattle.steer_base.specs.Sends.{candidates};
ghost use Rattle.steer_base.specs.Sets.{has_queue, members, those_below};
ghost use Rattle.xps_map.specs.Maps.{empty_maps, picked, serves_cpu, serves_queue};

use crate::inverse::{Inverse, set_at};
use std::marker::Model;
use steer_base::{Cpu, CpuMask, RxQueue, TxQueue};

/// The most transmit queues.
const MAX_QUEUES: usize = 32;

/// For each of 1 to 32 transmit queues, the processors and the receive queues that are mapped to it
/// (kernel scaling chapter, section XPS: `xps_cpus` and `xps_rxqs`).
#[derive(Drop)]
pub struct XpsMaps {
    count: u8,
    cpus: [CpuMask; MAX_QUEUES],
    queues: [u16; MAX_QUEUES],
    // None where a pick searches the maps.
    inverse: Option<Inverse>,
}

impl Model for XpsMaps {
    ghost use Rattle.std.specs.Prelude.{◌≡◌, ◌<◌, ◌≤◌, IfSome, length, take};
    ghost use Rattle.xps_map.specs.Inverses.{Inverts};
    ghost use Rattle.xps_map.specs.Maps.{Maps};

    ghost Value = { Maps };

    ghost view = { λ m. record {
      count = m.count;
      cpus = take m.count m.cpus;
      queues = take m.count m.queues;
    } };

    ghost invariant = { λ m. (0 < m.count) × (m.count ≤ 32)
        × IfSome m.inverse (Inverts (take m.count m.cpus) (take m.count m.queues)) };
}

impl XpsMaps {
    /// Empty maps for `queues` transmit queues, 1 to 32. A pick searches them; it looks up those of
    /// `from_lists`.
    pub fn make(queues: u8) -> XpsMaps
        requires some { 1 ≤ queues }
        requires few { queues ≤ 32 }
        ensures { result ≡ empty_maps queues }
    {
        XpsMaps {
            count: queues,
            cpus: [CpuMask(0); MAX_QUEUES],
            queues: [0; MAX_QUEUES],
            inverse: None,
        }
    }

    /// The maps of 1 to 32 transmit queues: `cpus` has the processors of each, `queues` the receive
    /// queues, bit q for receive queue q. They are meant to be made once and picked from often: a
    /// pick looks up the transmit queues that serve a receive queue or a processor.
    pub fn from_lists(cpus: &[CpuMask], queues: &[u16]) -> XpsMaps
        requires some { 1 ≤ length cpus.now }
        requires few { length cpus.now ≤ 32 }
        requires even { length queues.now ≡ length cpus.now }
        ensures { result
            ≡ record { count = length cpus.now; cpus = cpus.now; queues = queues.now } }
    {
        let count = cpus.len() as u8;
        let mut maps = XpsMaps::make(count);
        maps.inverse = Some(Inverse::empty());
        for tx in 0..count {
            maps.set_cpus(TxQueue(tx), cpus[usize::from(tx)]);
            maps.set_queues(TxQueue(tx), queues[usize::from(tx)]);
        }
        maps
    }

    /// Sets the processors of a transmit queue.
    pub fn set_cpus(&mut self, tx: TxQueue, mask: CpuMask)
        requires { tx < self.old.count }
        ensures { self.new ≡ record self.old { cpus = slice_set self.old.cpus tx mask } }
    {
        let place = usize::from(tx.0);
        let before = self.cpus[place];
        self.cpus[place] = mask;
        if let Some(inverse) = &mut self.inverse {
            inverse.put_cpus(tx, before, mask);
        }
    }

    /// Sets the receive queues of a transmit queue: bit q is receive queue q.
    pub fn set_queues(&mut self, tx: TxQueue, mask: u16)
        requires { tx < self.old.count }
        ensures { self.new ≡ record self.old { queues = slice_set self.old.queues tx mask } }
    {
        let place = usize::from(tx.0);
        let before = self.queues[place];
        self.queues[place] = mask;
        if let Some(inverse) = &mut self.inverse {
            inverse.put_queues(tx, before, mask);
        }
    }

    /// The transmit queue for a packet that was received on `rxq` and is sent from `cpu`. The
    /// candidates are the transmit queues whose receive-queue map has `rxq`; if there are none,
    /// those whose processor map has `cpu`; if there are none of these either, all. Of `k`
    /// candidates in ascending order it is the one at index `hash mod k`, or the first without a
    /// hash.
    pub fn pick(&self, rxq: RxQueue, cpu: Cpu, hash: Option<u32>) -> TxQueue
        ensures value { result ≡ picked self.now rxq cpu hash }
        ensures within { result < self.now.count }
    {
        let hash = hash.unwrap_or(0);
        match self.serving(rxq, cpu) {
            Some(set) => TxQueue(set.nth(hash % set.len()).0),
            None => TxQueue((hash % u32::from(self.count)) as u8),
        }
    }

    // The candidates as a set, bit t for transmit queue t, if a map has any: if not, all are.
    fn serving(&self, rxq: RxQueue, cpu: Cpu) -> Option<CpuMask>
        ensures some { IfSome result (λ set. members set
            ≡ candidates self.now.count (serves_queue self.now) (serves_cpu self.now) rxq cpu) }
        ensures filled { IfSome result (λ set. 0 < length (members set)) }
        ensures none { result ≡ None
            → candidates self.now.count (serves_queue self.now) (serves_cpu self.now) rxq cpu
            ≡ those_below self.now.count (λ tx. true) }
    {
        let by_queue = self.serving_queue(rxq);
        if !by_queue.is_empty() {
            return Some(by_queue);
        }
        let by_cpu = self.serving_cpu(cpu);
        if !by_cpu.is_empty() {
            return Some(by_cpu);
        }
        None
    }

    // The transmit queues whose receive-queue map has the queue, as a set.
    fn serving_queue(&self, rxq: RxQueue) -> CpuMask
        ensures { members result ≡ those_below self.now.count (λ tx. serves_queue self.now tx rxq) }
    {
        match &self.inverse {
            Some(inverse) => set_at(&inverse.by_queue, rxq.0),
            None => self.search_queue(rxq),
        }
    }

    // The same without an inverse.
    fn search_queue(&self, rxq: RxQueue) -> CpuMask
        ensures { members result ≡ those_below self.now.count (λ tx. serves_queue self.now tx rxq) }
    {
        let mut set = CpuMask(0);
        for tx in 0..self.count {
            if has_receive_queue(self.queues[usize::from(tx)], rxq) {
                set = set.with(Cpu(tx));
            }
        }
        set
    }

    // The transmit queues whose processor map has the processor, as a set.
    fn serving_cpu(&self, cpu: Cpu) -> CpuMask
        ensures { members result ≡ those_below self.now.count (λ tx. serves_cpu self.now tx cpu) }
    {
        match &self.inverse {
            Some(inverse) => set_at(&inverse.by_cpu, cpu.0),
            None => self.search_cpu(cpu),
        }
    }

    // The same without an inverse.
    fn search_cpu(&self, cpu: Cpu) -> CpuMask
        ensures { members result ≡ those_below self.now.count (λ tx. serves_cpu self.now tx cpu) }
    {
        let mut set = CpuMask(0);
        for tx in 0..self.count {
            if self.cpus[usize::from(tx)].has(cpu.0) {
                set = set.with(Cpu(tx));
            }
        }
        set
    }
}

// Whether a receive queue is in a set: bit q is receive queue q.
fn has_receive_queue(queues: u16, rxq: RxQueue) -> bool
    ensures { result ≡ has_queue queues rxq }
{
    rxq.0 < 16 && queues >> rxq.0 & 1 == 1
}
