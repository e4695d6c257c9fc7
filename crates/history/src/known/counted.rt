//! The arrivals of each queue, counted in one pass.
ghost use Rattle.std.specs.Prelude.{◌≡◌, ◌<◌, ◌+◌, ◌≤◌, ◌^◌, length, map, slice_index};
ghost use Rattle.std.specs.Prelude.{slice_set, IfOk};
ghost use Rattle.std.specs.List.{range_with_len};
ghost use Rattle.steer_base.specs.declared.limits.TheConstants.{MAX_PACKETS};
ghost use Rattle.history.specs.Counted.{IsCounted};

use crate::history::History;
use std::alloc::Global;
use steer_base::{OutOfMemory, RxQueue};

/// The arrivals of a history, counted by queue.
#[derive(Drop)]
pub struct Counted {
    /// For each receive queue, the number of packets that arrived there.
    pub arrived: Vec<u32>,
    /// For each packet that arrived, the number of those that arrived at its queue before it.
    pub ranks: Vec<u32>,
}

impl Counted {
    /// Counts the arrivals. They must be numbered 0, 1, 2 and so on, and be at most `MAX_PACKETS`.
    pub fn make(alloc: Global, h: &History) -> Result<Counted, OutOfMemory>
        requires numbered { map (λ a. a.id) h.now.arrivals
            ≡ range_with_len 0 (length h.now.arrivals) }
        requires few { length h.now.arrivals ≤ MAX_PACKETS }
        ensures { IfOk result (λ c. IsCounted h.now c) }
    {
        let mut arrived = Vec::new(alloc);
        arrived.resize(h.taken.len(), 0)?;
        let mut ranks = Vec::with_capacity(alloc, h.arrivals.len())?;
        for arrival in h.arrivals.as_slice() {
            ranks.push(note_arrival(&mut arrived, arrival.queue))?;
        }
        Ok(Counted { arrived, ranks })
    }
}

// Counts an arrival at its queue, if there is one, and returns the count before it.
fn note_arrival(arrived: &mut Vec<u32>, queue: RxQueue) -> u32
    requires room { slice_index arrived.old.items queue + 1 < 2 ^ 32 }
    ensures count { arrived.new.items
        ≡ slice_set arrived.old.items queue (slice_index arrived.old.items queue + 1) }
    ensures before { result ≡ slice_index arrived.old.items queue }
{
    let at = queue.0 as usize;
    if at >= arrived.len() {
        return 0;
    }
    let before = arrived[at];
    arrived[at] = before + 1;
    before
}
