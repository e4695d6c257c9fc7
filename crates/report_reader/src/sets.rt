//! Sets of small numbers, separated by commas.
ghost use Rattle.std.specs.Prelude.{◌≡◌, ◌≢◌, ◌<◌, ◌≤◌, ◌+◌, ◌-◌, ◌*◌, ◌==◌, ◌||◌, ◌&&◌, ℕ, List};
ghost use Rattle.std.specs.Prelude.{nat_lt};
ghost use Rattle.std.specs.List.{list_any};
ghost use Rattle.steer_base.specs.Sets.{has};
ghost use Rattle.report.specs.Commands.{set_field};
ghost use Rattle.report_reader.specs.Members.{AreLow};

use steer_base::{Cpu, CpuMask};

// A number with one more digit; 0 if it has two already, or if that is no digit.
fn with_digit(member: u8, byte: u8) -> u8
    ensures { member < 10 → 48 ≤ byte → byte ≤ 57 → result ≡ member * 10 + (byte - 48) }
{
    if member < 10 && 48 <= byte && byte <= 57 {
        member * 10 + (byte - 48)
    } else {
        0
    }
}

// The members that were read, and the one that is being read.
#[derive(Clone, Copy, Debug, PartialEq, Eq, Drop)]
struct Progress {
    mask: CpuMask,
    member: u8,
}

// One byte further.
fn step(at: Progress, byte: u8) -> Progress
    ensures comma { byte ≡ 44 → (x : ℕ) → has result.mask x
        ≡ (has at.mask x || (nat_lt x 32 && at.member == x)) }
    ensures first { byte ≡ 44 → result.member ≡ 0 }
    ensures same { byte ≢ 44 → result.mask ≡ at.mask }
    ensures digit { byte ≢ 44 → at.member < 10 → 48 ≤ byte → byte ≤ 57
        → result.member ≡ at.member * 10 + (byte - 48) }
{
    if byte == 44 {
        Progress {
            mask: at.mask.with(Cpu(at.member)),
            member: 0,
        }
    } else {
        Progress {
            mask: at.mask,
            member: with_digit(at.member, byte),
        }
    }
}

/// The members of a set, all below 32.
pub fn members(field: &[u8]) -> CpuMask
    ensures { (ns : List ℕ) → AreLow ns → field.now ≡ set_field ns
        → (x : ℕ) → has result x ≡ list_any (λ n. n == x) ns }
{
    if field == b"-".as_slice() {
        return CpuMask(0);
    }
    let mut at = Progress {
        mask: CpuMask(0),
        member: 0,
    };
    for k in 0..field.len() {
        at = step(at, field[k]);
    }
    at.mask.with(Cpu(at.member))
}
