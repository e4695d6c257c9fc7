//! Captures, and their packets.
ghost use Rattle.std.specs.Prelude.{◌≤◌, IfOk, length};
ghost use Rattle.cap_gen.specs.declared.frame.TheConstants.{MAX_FLOWS};
ghost use Rattle.steer_base.specs.declared.limits.TheConstants.{MAX_PACKETS};
ghost use Rattle.steer_model.specs.State.Ranges.{AreOfFlows};

use cap_gen::generate;
use pcap_reader::{put_header, put_packet, read_capture};
use plan_reader::Plan;
use std::alloc::Global;
use std::test::Fail;
use steer_base::{OutOfMemory, Packet};
use steer_model::packets;
use toeplitz::{Key, Kinds};

/// The seed of what is generated.
const SEED: u64 = 7;

// A frame of TCP from 66.9.149.187 port 2794 to 161.142.100.80 port 1766, of hash 0x51ccc178.
const FRAME: [u8; 54] = [
    2, 0, 0, 0, 0, 2, 2, 0, 0, 0, 0, 1, 0x08, 0x00, // Ethernet
    0x45, 0, 0, 0x28, 0, 0, 0, 0, 0x40, 6, 0, 0, 0x42, 9, 0x95, 0xbb, 0xa1, 0x8e, 0x64, 0x50, // IP
    0x0a, 0xea, 0x06, 0xe6, 0, 0, 0, 0, 0, 0, 0, 0, 0x50, 0, 0, 0, 0, 0, 0, 0, // TCP
];

/// The bytes of a capture of so many frames, all of one flow. Its hash is 0x51ccc178.
pub fn of_one_flow(alloc: Global, count: u32) -> Result<Vec<u8>, OutOfMemory> {
    let mut bytes = Vec::new(alloc);
    put_header(&mut bytes)?;
    for _ in 0..count {
        put_packet(&mut bytes, 0, 0, &FRAME)?;
    }
    Ok(bytes)
}

/// The packets of a capture, with the hashes that a plan has them get.
pub fn packets_of(alloc: Global, plan: &Plan, capture: &[u8]) -> Result<Vec<Packet>, Fail>
    ensures few { IfOk result (λ packets. length packets.items ≤ MAX_PACKETS) }
    ensures flows { IfOk result (λ packets. AreOfFlows packets.items) }
{
    let records = read_capture(alloc, capture)?;
    let key = Key::make(plan.key);
    Ok(packets(alloc, &records, capture, &key, Kinds(plan.kinds))?)
}

/// The packets of a generated capture of so many packets of so many flows, with the hashes that a
/// plan has them get.
pub fn generated(alloc: Global, plan: &Plan, count: u32, flows: u32) -> Result<Vec<Packet>, Fail>
    requires count { count ≤ MAX_PACKETS }
    requires some_flow { 1 ≤ flows }
    requires few_flows { flows ≤ MAX_FLOWS }
    ensures few { IfOk result (λ packets. length packets.items ≤ MAX_PACKETS) }
    ensures flows { IfOk result (λ packets. AreOfFlows packets.items) }
{
    let made = generate(alloc, SEED, count, flows)?;
    packets_of(alloc, plan, &made.capture)
}
