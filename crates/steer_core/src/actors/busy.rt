//! Which actors may have something to do in a sweep.
ghost use Rattle.std.specs.Prelude.{ℕ, ◌≡◌, ◌≢◌, ◌↔◌, ◌<◌, length, true, IfNone, IfSome};
ghost use Rattle.std.specs.Slice.Scan.{HoldsNowhere, IsFirstPlace};
ghost use Rattle.steer_base.specs.Sets.{has, in_bits};
ghost use Rattle.steer_core.specs.Resting.{AreMarked, PutsBeside};

use hop_core::Hop;
use steer_base::{Cpu, CpuMask};

/// The actors that may have something to do; the others are at rest. Bit i of each set is the actor
/// of its kind with the number i.
#[derive(Clone, Copy)]
pub struct Busy {
    pub pollers: CpuMask,
    pub cpus: CpuMask,
    pub apps: CpuMask,
    pub txs: CpuMask,
}

/// The least number in the set that is `from` or more and below `end`, if there is one.
pub fn next_in(set: CpuMask, from: u8, end: u8) -> Option<u8>
    ensures some { IfSome result (λ n. (n < end) × IsFirstPlace (has set) from end n) }
    ensures none { IfNone result (HoldsNowhere (has set) from end) }
{
    if from >= 32 {
        return None;
    }
    next_bit(set.0, from, end)
}

// The place of the lowest bit that is set from one on and below `end`, if there is one.
fn next_bit(bits: u32, from: u8, end: u8) -> Option<u8>
    requires { from < 32 }
    ensures some { IfSome result (λ n. (n < end) × IsFirstPlace (in_bits 32 bits) from end n) }
    ensures none { IfNone result (HoldsNowhere (in_bits 32 bits) from end) }
{
    let left = bits >> from;
    if left == 0 {
        return None;
    }
    let next = from + left.trailing_zeros() as u8;
    if next < end { Some(next) } else { None }
}

/// Whether none of the numbers below `count` is in the set.
pub fn is_none_below(set: CpuMask, count: u8) -> bool
    ensures { result ≡ true ↔ HoldsNowhere (has set) 0 count }
{
    next_in(set, 0, count).is_none()
}

/// Puts a number into a set. A number of 32 or more is left out.
pub fn mark(set: &mut CpuMask, number: u8)
    ensures marked { AreMarked 32 set.old set.new (λ n. n ≢ number) }
    ensures members { (n : ℕ) → n ≢ number → has set.new n ≡ has set.old n }
{
    *set = set.with(Cpu(number));
}

/// Marks the lane to which a producer puts its packet next, if it has one to put.
pub fn mark_next(hop: &Hop, p: u8, lanes: &mut CpuMask)
    requires { p < length hop.now.arrivals }
    ensures { AreMarked 32 lanes.old lanes.new (PutsBeside hop.now p) }
{
    if let Some(chosen) = hop.to_put(p) {
        mark(lanes, chosen.choice.lane);
    }
}
