//! A set of pairs of numbers.
use indexmap::IndexSet;
use std::alloc::Global;
use steer_base::{Cpu, CpuMask, OutOfMemory};

// The numbers below this one have a bit in a mask.
const MAX_CPUS: u8 = 32;

/// A set of pairs: an entry of a table, and a processor or a queue.
#[derive(Drop)]
pub struct PairSet {
    // For each of the first entries the small numbers it is with.
    masks: Vec<CpuMask>,
    // All other pairs.
    pairs: IndexSet<(u32, u8)>,
}

impl PairSet {
    ghost use Rattle.std.specs.Prelude.{ℕ, ◌≡◌, false, true, IfOk, OnOk, if◌then◌else◌};
    ghost use Rattle.rule_check.specs.Pairs.{has_pair, same_pair};

    /// An empty set. The first `entries` entries have a mask each.
    #[tactic(auto, unfolding(crate::specs::Pairs::has_pair))]
    pub fn make(alloc: Global, entries: usize) -> Result<PairSet, OutOfMemory>
        ensures { IfOk result (λ set. (n m : ℕ) → has_pair set n m ≡ false) }
    {
        let mut masks = Vec::new(alloc);
        masks.resize(entries, CpuMask(0))?;
        Ok(PairSet {
            masks,
            pairs: IndexSet::new(alloc),
        })
    }

    /// Adds a pair, unless the set has it.
    #[tactic(auto, unfolding(crate::specs::Pairs::has_pair))]
    pub fn add(&mut self, n: u32, m: u8) -> Result<(), OutOfMemory>
        ensures { OnOk result ((k j : ℕ) → has_pair self.new k j
            ≡ (if same_pair (n, m) (k, j) then true else has_pair self.old k j)) }
    {
        if (n as usize) < self.masks.len() && m < MAX_CPUS {
            self.masks[n as usize] = self.masks[n as usize].with(Cpu(m));
            return Ok(());
        }
        match self.pairs.insert((n, m)) {
            Ok(_) => Ok(()),
            Err(_) => Err(OutOfMemory),
        }
    }

    /// Whether the set has a pair.
    #[tactic(auto, unfolding(crate::specs::Pairs::has_pair))]
    pub fn has(&self, n: u32, m: u8) -> bool
        ensures { result ≡ has_pair self.now n m }
    {
        if (n as usize) < self.masks.len() && self.masks[n as usize].has(m) {
            return true;
        }
        self.pairs.contains(&(n, m))
    }
}
