//! The maps of transmit queues.
use crate::equal::same;
use std::process::Abort;
use steer_base::{Cpu, CpuMask, RxQueue, TxQueue};
use xps_map::XpsMaps;

// Port hashes of published verification frames.
const A: u32 = 0x51cc_c178;

const D: u32 = 0xafc7_327f;

const PICKS: [(u8, u8, Option<u32>, u8); 9] = [
    // The candidates are 1 and 2: A is even and D is odd.
    (0u8, 2u8, Some(A), 1u8),
    (0, 2, Some(D), 2),
    (0, 2, None, 1),
    // No map has receive queue 1, and the map of transmit queue 3 has processor 2.
    (1, 2, Some(A), 3),
    (1, 2, Some(D), 3),
    (1, 2, None, 3),
    // No map has either, so all four are candidates: A is 0 and D is 3 modulo 4.
    (1, 1, Some(A), 0),
    (1, 1, Some(D), 3),
    (1, 1, None, 0),
];

#[test]
fn receive_queue_maps_come_first(rt: HostRuntime) {
    let mut maps = XpsMaps::make(4);
    maps.set_queues(TxQueue(1), 0b1);
    maps.set_queues(TxQueue(2), 0b1);
    maps.set_cpus(TxQueue(3), CpuMask(0b100));
    for &(rxq, cpu, hash, wanted) in &PICKS {
        picks(&rt, &maps, (rxq, cpu, hash), wanted);
    }
}

fn picks(rt: &impl Abort, maps: &XpsMaps, reply: (u8, u8, Option<u32>), wanted: u8) {
    let (rxq, cpu, hash) = reply;
    let found = maps.pick(RxQueue(rxq), Cpu(cpu), hash);
    same(rt, &(reply, found), &(reply, TxQueue(wanted)), 0);
}

#[test]
fn maps_are_made_of_lists(rt: HostRuntime) {
    let lists = XpsMaps::from_lists(&[CpuMask(0), CpuMask(0b100)], &[0b10, 0]);
    picks(&rt, &lists, (1, 2, Some(D)), 0);
    picks(&rt, &lists, (0, 2, Some(A)), 1);
}

#[test]
fn the_highest_queues_are_picked(rt: HostRuntime) {
    let mut most = XpsMaps::make(32);
    let last = (15, 31, Some(A));
    most.set_cpus(TxQueue(31), CpuMask(1 << 31));
    picks(&rt, &most, last, 31);
    most.set_queues(TxQueue(30), 1 << 15);
    picks(&rt, &most, last, 30);
    most.set_queues(TxQueue(30), 0);
    picks(&rt, &most, last, 31);
}
