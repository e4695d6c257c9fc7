//! Captures of four published flows.
ghost use Rattle.std.specs.Prelude.{◌≤◌, IfOk, length};
ghost use Rattle.steer_base.specs.declared.limits.TheConstants.{MAX_PACKETS};
ghost use Rattle.steer_model.specs.State.Ranges.{AreOfFlows};

use pcap_reader::{put_header, put_packet, read_capture};
use plan_reader::Plan;
use std::alloc::Global;
use std::test::Fail;
use steer_base::{OutOfMemory, Packet};
use steer_model::packets;
use toeplitz::{Key, Kinds};

// A frame of TCP, whose last 32 bytes begin with the addresses and the ports.
const FRAME: [u8; 54] = [
    2, 0, 0, 0, 0, 2, 2, 0, 0, 0, 0, 1, 0x08, 0x00, // Ethernet
    0x45, 0, 0, 0x28, 0, 0, 0, 0, 0x40, 6, 0, 0, 0, 0, 0, 0, 0, 0, 0, 0, // IP
    0, 0, 0, 0, 0, 0, 0, 0, 0, 0, 0, 0, 0x50, 0, 0, 0, 0, 0, 0, 0, // TCP
];

// The addresses and ports of the flows, with the published hash of each.
const FLOWS: [[u8; 12]; 4] = [
    // 66.9.149.187 port 2794 to 161.142.100.80 port 1766: 0x51ccc178
    [
        0x42, 9, 0x95, 0xbb, 0xa1, 0x8e, 0x64, 0x50, 0x0a, 0xea, 0x06, 0xe6,
    ],
    // 38.27.205.30 port 48228 to 209.142.163.6 port 2217: 0xafc7327f
    [
        0x26, 0x1b, 0xcd, 0x1e, 0xd1, 0x8e, 0xa3, 0x06, 0xbc, 0x64, 0x08, 0xa9,
    ],
    // 199.92.111.2 port 14230 to 65.69.140.83 port 4739: 0xc626b0ea
    [
        0xc7, 0x5c, 0x6f, 0x02, 0x41, 0x45, 0x8c, 0x53, 0x37, 0x96, 0x12, 0x83,
    ],
    // 24.19.198.95 port 12898 to 12.22.207.184 port 38024: 0x5c2b394a
    [
        0x18, 0x13, 0xc6, 0x5f, 0x0c, 0x16, 0xcf, 0xb8, 0x32, 0x62, 0x94, 0x88,
    ],
];

// The frame of a flow, by its number modulo 4.
fn frame_of(flow: u8) -> [u8; 54] {
    let mut frame = FRAME;
    frame[26..38].copy_from_slice(&FLOWS[(flow % 4) as usize]);
    frame
}

// The bytes of a capture of a frame of each of these flows.
fn captured(alloc: Global, flows: &[u8]) -> Result<Vec<u8>, OutOfMemory> {
    let mut bytes = Vec::new(alloc);
    put_header(&mut bytes)?;
    for flow in flows {
        put_packet(&mut bytes, 0, 0, &frame_of(*flow))?;
    }
    Ok(bytes)
}

/// A packet of each of these flows, which are numbered from 0 to 3.
pub fn packets_of(alloc: Global, plan: &Plan, flows: &[u8]) -> Result<Vec<Packet>, Fail>
    ensures few { IfOk result (λ packets. length packets.items ≤ MAX_PACKETS) }
    ensures flows { IfOk result (λ packets. AreOfFlows packets.items) }
{
    let bytes = captured(alloc, flows)?;
    let capture = read_capture(alloc, &bytes)?;
    let key = Key::make(plan.key);
    Ok(packets(alloc, &capture, &bytes, &key, Kinds(plan.kinds))?)
}
