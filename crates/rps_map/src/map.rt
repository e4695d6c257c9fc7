//! The processors of a mask, listed.
ghost use Rattle.std.specs.Prelude.{◌≡◌, ◌≤◌, length, take};
ghost use Rattle.steer_base.specs.Choices.{rps_choice_of};
ghost use Rattle.steer_base.specs.Sets.{members};

use std::marker::Model;
use steer_base::{Cpu, CpuMask, remainder};

/// The most processors.
const MAX_CPUS: usize = 32;

/// The processors of a receive queue's mask in ascending order, and their number. It is meant to be
/// made once and chosen from often: a choice looks one up and does not count through the mask.
#[derive(Drop)]
pub struct RpsMap {
    mask: CpuMask,
    len: u32,
    cpus: [Cpu; MAX_CPUS],
}

impl Model for RpsMap {
    ghost use Rattle.std.specs.Prelude.{◌≡◌, length, take};
    ghost use Rattle.steer_base.specs.Sets.{members};
    ghost use Rattle.steer_base.specs.declared.cpu_mask.CpuMask.{CpuMask};

    ghost Value = { CpuMask };

    ghost view = { λ m. m.mask };

    ghost invariant = { λ m. (m.len ≡ length (members m.mask))
        × (take m.len m.cpus ≡ members m.mask) };
}

impl RpsMap {
    /// The processors of a mask.
    pub fn of_mask(mask: CpuMask) -> RpsMap
        ensures { result ≡ mask }
    {
        let len = mask.len();
        let cpus = listed(mask, len);
        RpsMap { mask, len, cpus }
    }

    /// The processor that receive packet steering selects for a packet, as `rps_choice` does.
    pub fn choice(&self, hash: Option<u32>, online: CpuMask, home: Cpu) -> Cpu
        ensures { result ≡ rps_choice_of self.now hash online home }
    {
        let Some(hash) = hash else {
            return home;
        };
        if self.len == 0 {
            return home;
        }
        let chosen = self.cpus[remainder(hash, self.len) as usize];
        if online.has(chosen.0) { chosen } else { home }
    }
}

// The processors of a mask with `len` of them, in ascending order, and then any.
fn listed(mask: CpuMask, len: u32) -> [Cpu; MAX_CPUS]
    requires all { len ≡ length (members mask) }
    requires most { len ≤ 32 }
    ensures { take len result ≡ members mask }
{
    let mut cpus = [Cpu(0); MAX_CPUS];
    let mut rest = mask;
    for place in 0..len {
        let cpu = rest.lowest();
        cpus[place as usize] = cpu;
        rest = rest.without(cpu);
    }
    cpus
}
