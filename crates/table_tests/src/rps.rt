//! The choice of a processor by a mask.
use crate::equal::same;
use rps_map::{RpsMap, rps_choice};
use steer_base::{Cpu, CpuMask};

const ALL: CpuMask = CpuMask(0xffff_ffff);

const CHOICES: [(u32, u8); 5] = [
    (0x51cc_c178u32, 2u8),
    (0xc626_b0ea, 2),
    (0x5c2b_394a, 3),
    (0xafc7_327f, 3),
    (0x10e8_28a2, 1),
];

#[test]
fn a_hash_chooses_among_the_members(rt: HostRuntime) {
    // Port hashes of published verification frames; the index is the hash mod 3.
    for &(hash, wanted) in &CHOICES {
        let found = rps_choice(CpuMask(0b1110), Some(hash), ALL, Cpu(0));
        same(&rt, &(hash, found), &(hash, Cpu(wanted)), 0);
    }
}

const STAYS: [(u32, Option<u32>, u32, u8, u8); 5] = [
    // An empty mask.
    (0u32, Some(0x51cc_c178u32), 0xffff_ffffu32, 0u8, 0u8),
    (0, Some(7), 0xffff_ffff, 5, 5),
    // No hash.
    (0b1110, None, 0xffff_ffff, 0, 0),
    // The processor at the index is offline, and no other one of the mask is taken.
    (0b1110, Some(0x51cc_c178), 0b1011, 0, 0),
    // The highest processor.
    (0x8000_0001, Some(1), 0xffff_ffff, 4, 31),
];

#[test]
fn the_home_stays_without_a_choice(rt: HostRuntime) {
    for &(mask, hash, online, home, wanted) in &STAYS {
        let found = rps_choice(CpuMask(mask), hash, CpuMask(online), Cpu(home));
        same(&rt, &(mask, hash, found), &(mask, hash, Cpu(wanted)), 0);
        let listed = RpsMap::of_mask(CpuMask(mask)).choice(hash, CpuMask(online), Cpu(home));
        same(&rt, &(mask, hash, listed), &(mask, hash, Cpu(wanted)), 1);
    }
}
