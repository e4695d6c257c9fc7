//! Frames of published flows, and captures of them.
ghost use Rattle.std.specs.Prelude.{◌≤◌, length};

use pcap_reader::{put_header, put_packet};
use std::alloc::Global;
use steer_base::OutOfMemory;

/// A frame of the tests.
#[derive(Clone, Copy)]
pub enum Frame {
    /// TCP from 66.9.149.187 port 2794 to 161.142.100.80 port 1766, of hash 0x51ccc178.
    A,
    /// TCP from 199.92.111.2 port 14230 to 65.69.140.83 port 4739, of hash 0xc626b0ea.
    B,
    /// An address resolution request, which has no hash.
    Arp,
}

const FRAME_A: [u8; 54] = [
    2, 0, 0, 0, 0, 2, 2, 0, 0, 0, 0, 1, 0x08, 0x00, // Ethernet
    0x45, 0, 0, 0x28, 0, 0, 0, 0, 0x40, 6, 0, 0, 0x42, 9, 0x95, 0xbb, 0xa1, 0x8e, 0x64, 0x50, // IP
    0x0a, 0xea, 0x06, 0xe6, 0, 0, 0, 0, 0, 0, 0, 0, 0x50, 0, 0, 0, 0, 0, 0, 0, // TCP
];

const FRAME_B: [u8; 54] = [
    2, 0, 0, 0, 0, 2, 2, 0, 0, 0, 0, 1, 0x08, 0x00, // Ethernet
    0x45, 0, 0, 0x28, 0, 0, 0, 0, 0x40, 6, 0, 0, 199, 92, 111, 2, 65, 69, 140, 83, // IP
    0x37, 0x96, 0x12, 0x83, 0, 0, 0, 0, 0, 0, 0, 0, 0x50, 0, 0, 0, 0, 0, 0, 0, // TCP
];

const FRAME_ARP: [u8; 60] = [
    2, 0, 0, 0, 0, 2, 2, 0, 0, 0, 0, 1, 0x08, 0x06, // Ethernet
    0, 0, 0, 0, 0, 0, 0, 0, 0, 0, 0, 0, 0, 0, 0, 0, 0, 0, 0, 0, 0, 0, 0, 0, 0, 0, 0, 0, 0, 0, 0, 0,
    0, 0, 0, 0, 0, 0, 0, 0, 0, 0, 0, 0, 0, 0,
];

fn bytes_of(frame: Frame) -> &'static [u8]
    ensures { length result.now ≤ 60 }
{
    match frame {
        Frame::A => &FRAME_A,
        Frame::B => &FRAME_B,
        Frame::Arp => &FRAME_ARP,
    }
}

/// The bytes of a capture of these frames.
pub fn captured(alloc: Global, frames: &[Frame]) -> Result<Vec<u8>, OutOfMemory> {
    let mut bytes = Vec::new(alloc);
    put_header(&mut bytes)?;
    for frame in frames {
        put_packet(&mut bytes, 0, 0, bytes_of(*frame))?;
    }
    Ok(bytes)
}
