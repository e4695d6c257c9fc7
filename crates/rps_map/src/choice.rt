//! The choice among the processors of a mask.
ghost use Rattle.std.specs.Prelude.{◌≡◌, ◌⊎◌, ◌&&◌, IsTrue};
ghost use Rattle.steer_base.specs.Choices.{rps_choice_of};
ghost use Rattle.steer_base.specs.Sets.{has};

use steer_base::{Cpu, CpuMask};

/// The processor that receive packet steering selects for a packet (kernel scaling chapter, section
/// RPS): of the `k` processors of the mask in ascending order, the one at index `hash mod k`. If
/// the packet has no hash, the mask is empty, or the selected processor is offline, it is the home
/// processor of the receive queue.
pub fn rps_choice(mask: CpuMask, hash: Option<u32>, online: CpuMask, home: Cpu) -> Cpu
    ensures value { result ≡ rps_choice_of mask hash online home }
    ensures among { (result ≡ home) ⊎ IsTrue (has mask result && has online result) }
{
    let Some(hash) = hash else {
        return home;
    };
    if mask.is_empty() {
        return home;
    }
    let chosen = mask.nth(hash % mask.len());
    if online.has(chosen.0) { chosen } else { home }
}
