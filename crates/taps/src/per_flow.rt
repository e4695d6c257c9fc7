//! A tap that counts the packets of each flow.
ghost use Rattle.std.specs.Prelude.{◌≡◌, ◌+◌, ◌^◌, List, OnOk, OnErr};
ghost use Rattle.history.specs.declared.packet_line.PacketLine.{PacketLine};
ghost use Rattle.taps.specs.Flows.{per_flow_text};

use crate::tap::{Tap, TapText};
use crate::text::push_row;
use history::PacketLine;
use indexmap::IndexMap;
use std::alloc::Global;
use steer_base::OutOfMemory;

/// Counts the packets of each flow. Its text is one line `flow F packets N` for each flow, in the
/// order in which the flows were first shown.
#[derive(Drop)]
pub struct PerFlow {
    alloc: Global,
    counts: IndexMap<u32, u64>,
}

impl PerFlow {
    ghost use Rattle.taps.specs.PerFlow.{counted, flows_after};

    /// A tap that has been shown no line yet.
    pub fn make(alloc: Global) -> PerFlow
        ensures { (lines : List PacketLine) → flows_after result lines ≡ per_flow_text lines }
    {
        PerFlow {
            alloc,
            counts: IndexMap::new(alloc),
        }
    }

    // Counts one more packet of a flow. If the flows are first shown in the order of their numbers,
    // a flow's count stands at the index that is its number, and is found without hashing.
    fn count(&mut self, flow: u32) -> Result<(), OutOfMemory>
        ensures noted { OnOk result
            (self.new.counts.entries ≡ counted self.old.counts.entries flow) }
        ensures kept { OnErr result (self.new.counts.entries ≡ self.old.counts.entries) }
    {
        let index = flow as usize;
        match self.counts.get_index(index) {
            Some((&there, _)) if there == flow => increment(self.counts.pair_mut(index).1),
            _ => self.count_by_key(flow),
        }
    }

    // Counts one more packet of a flow, whose count is found by hashing. A call of its own, so that
    // the usual way of `count` saves no registers.
    #[inline(never)]
    fn count_by_key(&mut self, flow: u32) -> Result<(), OutOfMemory>
        ensures noted { OnOk result
            (self.new.counts.entries ≡ counted self.old.counts.entries flow) }
        ensures kept { OnErr result (self.new.counts.entries ≡ self.old.counts.entries) }
    {
        match self.counts.entry(flow) {
            Ok(entry) => increment(entry.or_insert(0)),
            Err(_) => Err(OutOfMemory),
        }
    }
}

impl Tap for PerFlow {
    ghost use Rattle.taps.specs.PerFlow.{flows_after};

    ghost text = { flows_after };

    fn note(&mut self, line: &PacketLine) -> Result<(), OutOfMemory> {
        self.count(line.flow_number)
    }

    fn finish(&mut self) -> Result<TapText, OutOfMemory> {
        let mut bytes = Vec::new(self.alloc);
        for (&flow, &count) in &self.counts {
            push_row(&mut bytes, b"flow ", flow, b" packets ", count)?;
        }
        Ok(TapText { bytes })
    }
}

// Increments a count. If it would overflow, returns `OutOfMemory`, the only error that a tap can
// return.
fn increment(count: &mut u64) -> Result<(), OutOfMemory>
    ensures counted { OnOk result (count.new ≡ count.old + 1) }
    ensures full { OnErr result ((count.old + 1 ≡ 2 ^ 64) × (count.new ≡ count.old)) }
{
    *count = count.checked_add(1).ok_or(OutOfMemory)?;
    Ok(())
}
