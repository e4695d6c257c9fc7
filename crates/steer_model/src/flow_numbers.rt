//! The flows that were seen, with their numbers.
ghost use Rattle.std.specs.Prelude.{◌<◌, ◌^◌, IfOk};

use crate::flow_key::{FlowKey, LongKey};
use crate::number_maps::number_at;
use crate::short_numbers::ShortNumbers;
use std::alloc::Global;
use std::collections::BTreeMap;
use steer_base::{Flow, OutOfMemory};

/// The flows that were seen, each with its number: from 0 in order of first appearance. Flows
/// without IPv6 addresses have a map of their own, whose keys are short.
#[derive(Drop)]
pub struct FlowNumbers {
    short: ShortNumbers,
    long: BTreeMap<LongKey, u32>,
}

impl FlowNumbers {
    ghost use Rattle.std.specs.Prelude.{◌≡◌, []};
    ghost use Rattle.steer_model.specs.Capture.FlowKeys.{FlowFits};
    ghost use Rattle.steer_model.specs.Capture.FlowNumbers.{IsNumberOf, flow_total};

    /// No flows.
    pub fn new(alloc: Global) -> FlowNumbers
        ensures short { result.short.by_key.entries ≡ [] }
        ensures long { result.long.entries ≡ [] }
    {
        FlowNumbers {
            short: ShortNumbers::new(alloc),
            long: BTreeMap::new(alloc),
        }
    }

    /// The number of a flow: the one that it has, else the next one. Where 2^32 flows have one, it
    /// is out of memory.
    pub fn number_of(&mut self, flow: Flow) -> Result<u32, OutOfMemory>
        ensures fits { FlowFits flow }
        ensures number { IfOk result (λ number. IsNumberOf self.old self.new flow number) }
    {
        let Ok(next) = u32::try_from(self.short.len() + self.long.len()) else {
            return Err(OutOfMemory);
        };
        match FlowKey::of(flow) {
            FlowKey::Short(key) => self.short.number_of(key, next),
            FlowKey::Long(key) => number_at(&mut self.long, key, next),
        }
    }
}
