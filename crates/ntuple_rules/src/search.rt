//! Looks a flow up in the groups that a sieve lets through.
ghost use Rattle.std.specs.Prelude.{◌≡◌, ◌+◌, ◌<◌, ◌%◌, ℕ, true, is_some, length, All};
ghost use Rattle.std.specs.Int.{bit_at};
ghost use Rattle.ntuple_rules.specs.Groups.{found_at, StartsAtFirst};
ghost use Rattle.ntuple_rules.specs.Sieves.{AllowsAt, GoesOn};
ghost use Rattle.ntuple_rules.specs.declared.sieve.TheConstants.{ALWAYS, GROUPS};

use crate::group::{Group, find_at};
use crate::sieve::{ALWAYS, GROUPS, Sieve};
use steer_base::Flow;

/// The set of those of the `GROUPS` groups from a place on that are in no sieve.
fn in_no_sieve(place: usize) -> u64
    ensures { (i : ℕ) → place + i < ALWAYS → bit_at result i ≡ 1 }
{
    if place < ALWAYS { (1 << ALWAYS) - 1 } else { 0 }
}

/// The set of those of the `GROUPS` groups from a place on that may have a rule for a flow. The
/// place is that of the first group of a sieve.
pub fn candidates(sieves: &[Sieve], place: usize, flow: Flow) -> u64
    requires { place % GROUPS ≡ 0 }
    ensures { (i : ℕ) → i < GROUPS → AllowsAt sieves.now (place + i) flow → bit_at result i ≡ 1 }
{
    match sieves.get(place / GROUPS) {
        Some(sieve) => sieve.candidates(flow) | in_no_sieve(place),
        None => u64::MAX,
    }
}

/// The lesser of what was found and what the `GROUPS` groups from a place on find. Only those that
/// are candidates are looked into: the others must have no rule for the flow.
pub fn find_among(
    groups: &[Group],
    place: usize,
    candidates: u64,
    flow: Flow,
    found: Option<u32>,
) -> Option<u32>
    requires place { place < length groups.now }
    requires starts { All StartsAtFirst groups.now }
    requires sound { (i : ℕ) → i < GROUPS → is_some (found_at groups.now (place + i) flow) ≡ true
        → bit_at candidates i ≡ 1 }
    ensures { GoesOn groups.now flow found place result (place + GROUPS) }
{
    let mut found = found;
    let mut at = place;
    let mut left = candidates;
    while left != 0 {
        if at >= groups.len() {
            return found;
        }
        let skipped = left.trailing_zeros() as usize;
        found = find_at(groups, at + skipped, flow, found);
        at += skipped + 1;
        left = left >> skipped >> 1;
    }
    found
}
