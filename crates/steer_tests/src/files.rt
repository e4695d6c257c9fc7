//! Frames and files of the tests.
use std::alloc::{AllocError, Global};
use std::test::Fail;

/// The little-endian header with microseconds.
pub const HEADER: [u8; 24] = [
    0xd4, 0xc3, 0xb2, 0xa1, 2, 0, 4, 0, 0, 0, 0, 0, 0, 0, 0, 0, 0xff, 0xff, 0, 0, 1, 0, 0, 0,
];

/// The big-endian header with nanoseconds.
pub const BIG_HEADER: [u8; 24] = [
    0xa1, 0xb2, 0x3c, 0x4d, 0, 2, 0, 4, 0, 0, 0, 0, 0, 0, 0, 0, 0, 0, 0xff, 0xff, 0, 0, 0, 1,
];

/// A header of zeros.
pub const ZEROS: [u8; 24] = [0; 24];

/// A header of version 2.5.
pub const VERSION_2_5: [u8; 24] = [
    0xd4, 0xc3, 0xb2, 0xa1, 2, 0, 5, 0, 0, 0, 0, 0, 0, 0, 0, 0, 0xff, 0xff, 0, 0, 1, 0, 0, 0,
];

/// A header of link type 101, with bit 16 set.
pub const OTHER_LINK: [u8; 24] = [
    0xd4, 0xc3, 0xb2, 0xa1, 2, 0, 4, 0, 0, 0, 0, 0, 0, 0, 0, 0, 0xff, 0xff, 0, 0, 0x65, 0, 1, 0,
];

/// A TCP segment over IPv4 from 66.9.149.187:2794 to 161.142.100.80:1766.
pub const FRAME_A: [u8; 54] = [
    2, 0, 0, 0, 0, 2, 2, 0, 0, 0, 0, 1, 8, 0, 0x45, 0, 0, 0x28, 0, 0, 0, 0, 0x40, 6, 0, 0, 0x42, 9,
    0x95, 0xbb, 0xa1, 0x8e, 0x64, 0x50, 0x0a, 0xea, 6, 0xe6, 0, 0, 0, 0, 0, 0, 0, 0, 0x50, 0, 0, 0,
    0, 0, 0, 0,
];

/// The same from 199.92.111.2:14230 to 65.69.140.83:4739.
pub const FRAME_B: [u8; 54] = [
    2, 0, 0, 0, 0, 2, 2, 0, 0, 0, 0, 1, 8, 0, 0x45, 0, 0, 0x28, 0, 0, 0, 0, 0x40, 6, 0, 0, 0xc7,
    0x5c, 0x6f, 2, 0x41, 0x45, 0x8c, 0x53, 0x37, 0x96, 0x12, 0x83, 0, 0, 0, 0, 0, 0, 0, 0, 0x50, 0,
    0, 0, 0, 0, 0, 0,
];

/// The first frame as a fragment.
pub const FRAGMENT: [u8; 54] = [
    2, 0, 0, 0, 0, 2, 2, 0, 0, 0, 0, 1, 8, 0, 0x45, 0, 0, 0x28, 0, 0, 0, 0xb9, 0x40, 6, 0, 0, 0x42,
    9, 0x95, 0xbb, 0xa1, 0x8e, 0x64, 0x50, 0x0a, 0xea, 6, 0xe6, 0, 0, 0, 0, 0, 0, 0, 0, 0x50, 0, 0,
    0, 0, 0, 0, 0,
];

/// A TCP segment over IPv6 behind two VLAN tags.
pub const TAGGED_V6: [u8; 82] = [
    2, 0, 0, 0, 0, 2, 2, 0, 0, 0, 0, 1, 0x88, 0xa8, 0, 1, 0x81, 0, 0, 2, 0x86, 0xdd, 0x60, 0, 0, 0,
    0, 0x14, 6, 0x40, 0x3f, 0xfe, 5, 1, 0, 8, 0, 0, 2, 0x60, 0x97, 0xff, 0xfe, 0x40, 0xef, 0xab,
    0xff, 2, 0, 0, 0, 0, 0, 0, 0, 0, 0, 0, 0, 0, 0, 1, 0x37, 0x96, 0x12, 0x83, 0, 0, 0, 0, 0, 0, 0,
    0, 0x50, 0, 0, 0, 0, 0, 0, 0,
];

/// A SYN of the first frame's flow with TCP options, as a host sends it.
pub const SYN: [u8; 74] = [
    2, 0, 0, 0, 0, 2, 2, 0, 0, 0, 0, 1, 8, 0, 0x45, 0, 0, 0x3c, 0x1c, 0x46, 0x40, 0, 0x40, 6, 0xb1,
    0xe6, 0x42, 9, 0x95, 0xbb, 0xa1, 0x8e, 0x64, 0x50, 0x0a, 0xea, 6, 0xe6, 0x5a, 0x1e, 0x33, 0x91,
    0, 0, 0, 0, 0xa0, 2, 0xfa, 0xf0, 0x3c, 0x11, 0, 0, 2, 4, 5, 0xb4, 4, 2, 8, 0x0a, 0x2b, 0x77,
    0x0e, 0x10, 0, 0, 0, 0, 1, 3, 3, 7,
];

/// An ARP frame of 60 bytes.
pub const ARP: [u8; 60] = [
    2, 0, 0, 0, 0, 2, 2, 0, 0, 0, 0, 1, 8, 6, 0, 0, 0, 0, 0, 0, 0, 0, 0, 0, 0, 0, 0, 0, 0, 0, 0, 0,
    0, 0, 0, 0, 0, 0, 0, 0, 0, 0, 0, 0, 0, 0, 0, 0, 0, 0, 0, 0, 0, 0, 0, 0, 0, 0, 0, 0,
];

/// Four frames of the first flow.
pub const FOUR_FRAMES: [&[u8]; 4] = [&FRAME_A, &FRAME_A, &FRAME_A, &FRAME_A];

/// The header of the record of a frame of 54 bytes.
pub const RECORD_54: [u8; 16] = [0, 0, 0, 0, 0, 0, 0, 0, 54, 0, 0, 0, 54, 0, 0, 0];

/// Of one of 60 bytes.
pub const RECORD_60: [u8; 16] = [0, 0, 0, 0, 0, 0, 0, 0, 60, 0, 0, 0, 60, 0, 0, 0];

/// Of one of 82 bytes.
pub const RECORD_82: [u8; 16] = [0, 0, 0, 0, 0, 0, 0, 0, 82, 0, 0, 0, 82, 0, 0, 0];

/// Of one of 54 bytes in a big-endian file.
pub const BIG_RECORD: [u8; 16] = [0, 0, 0, 0, 0, 0, 0, 0, 0, 0, 0, 54, 0, 0, 0, 54];

/// What tcpdump writes before a frame of 74 bytes: a header with its snap length, and that of the
/// record with a time.
pub const TCPDUMP: [u8; 40] = [
    0xd4, 0xc3, 0xb2, 0xa1, 2, 0, 4, 0, 0, 0, 0, 0, 0, 0, 0, 0, 0, 0, 4, 0, 1, 0, 0, 0, 0x1c, 0x5e,
    0x2a, 0x67, 0x4f, 0xa3, 8, 0, 74, 0, 0, 0, 74, 0, 0, 0,
];

/// The pieces one after another.
pub fn joined(alloc: Global, pieces: &[&[u8]]) -> Result<Vec<u8>, AllocError> {
    let mut bytes = Vec::new(alloc);
    for piece in pieces {
        bytes.extend_from_slice(piece)?;
    }
    Ok(bytes)
}

/// A little-endian file with these frames.
pub fn file(alloc: Global, frames: &[&[u8]]) -> Result<Vec<u8>, Fail> {
    let mut bytes = HEADER.to_vec(alloc)?;
    for frame in frames {
        let len = u32::try_from(frame.len())?.to_le_bytes();
        bytes.extend_from_slice(&[0; 8])?;
        bytes.extend_from_slice(&len)?;
        bytes.extend_from_slice(&len)?;
        bytes.extend_from_slice(frame)?;
    }
    Ok(bytes)
}

/// The first bytes of a file, all of them where it has fewer.
pub fn front(bytes: &[u8], len: usize) -> &[u8] {
    bytes.get(..len).unwrap_or(bytes)
}
