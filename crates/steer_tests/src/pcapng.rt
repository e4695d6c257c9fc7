//! Captures in the pcapng format: the command `hash`, and a replay.
use crate::calls::{Outcome, called_over, comes_to, same, same_bytes};
use crate::files::{FRAME_A, front, joined};
use crate::plans::{FOUR_REPORT, FOUR_STEPS, ONE_FLOW, plan_of};
use pcapng_reader::{put_enhanced, put_section};
use std::alloc::Global;
use std::process::Abort;
use std::test::Fail;

const LINE_A: &[u8] =
    b"packet 0 tcp4 420995bb a18e6450 2794 1766 hash 51ccc178 entry 120 queue 0\npackets 1\n";

/// A little-endian section header and an Ethernet interface.
const SECTION: [u8; 48] = [
    0x0a, 0x0d, 0x0d, 0x0a, 0x1c, 0, 0, 0, 0x4d, 0x3c, 0x2b, 0x1a, 1, 0, 0, 0, 0xff, 0xff, 0xff,
    0xff, 0xff, 0xff, 0xff, 0xff, 0x1c, 0, 0, 0, // the section header
    1, 0, 0, 0, 0x14, 0, 0, 0, 1, 0, 0, 0, 0, 0, 4, 0, 0x14, 0, 0, 0, // the interface
];

/// The front of an enhanced packet of 54 bytes.
const PACKET: [u8; 28] = [
    6, 0, 0, 0, 0x58, 0, 0, 0, 0, 0, 0, 0, 0, 0, 0, 0, 0, 0, 0, 0, 0x36, 0, 0, 0, 0x36, 0, 0, 0,
];

/// Its end: the padding and the length again.
const TAIL: [u8; 6] = [0, 0, 0x58, 0, 0, 0];

const ONE: [&[u8]; 4] = [&SECTION, &PACKET, &FRAME_A, &TAIL];

/// The file of 136 bytes with the first frame.
fn one(alloc: Global) -> Result<Vec<u8>, Fail> {
    Ok(joined(alloc, &ONE)?)
}

/// That file with another byte at this place.
fn with(alloc: Global, place: usize, byte: u8) -> Result<Vec<u8>, Fail> {
    let mut bytes = one(alloc)?;
    if let Some(old) = bytes.get_mut(place) {
        *old = byte;
    }
    Ok(bytes)
}

fn hashed(alloc: Global, bytes: &[u8]) -> Result<Outcome, Fail> {
    called_over(alloc, &["hash", "a.pcapng"], &[("a.pcapng", bytes)], &[])
}

/// Asserts what the hashes of a file come to.
fn comes_to_text(
    rt: &impl Abort,
    alloc: Global,
    bytes: &[u8],
    text: &[u8],
    case: usize,
) -> Result<(), Fail> {
    let got = hashed(alloc, bytes)?;
    comes_to(rt, &got, 0, text, b"", case);
    Ok(())
}

/// A file that is written with so many packets of the first frame.
fn written(alloc: Global, count: u32) -> Result<Vec<u8>, Fail> {
    let mut file = Vec::new(alloc);
    put_section(&mut file)?;
    for _ in 0..count {
        put_enhanced(&mut file, &FRAME_A)?;
    }
    Ok(file)
}

#[test]
fn pcapng_captures_are_hashed(rt: HostRuntime) -> Result<(), Fail> {
    let alloc = rt.alloc();
    let one = one(alloc)?;
    comes_to_text(&rt, alloc, &one, LINE_A, 0)?;
    comes_to_text(&rt, alloc, front(&one, 135), b"packets 0 cut 87\n", 1)?;
    comes_to_text(&rt, alloc, front(&one, 4), b"packets 0 cut 4\n", 2)?;
    let written = written(alloc, 1)?;
    comes_to_text(&rt, alloc, &written, LINE_A, 3)
}

/// A place, the byte that is put there, and the line that names the fault.
const FAULTS: [(usize, u8, &[u8]); 8] = [
    (132, 0x59, b"capture: bad tail 2 89\n"),
    (8, 0x4e, b"capture: bad order 1a2b3c4e\n"),
    (4, 0x1d, b"capture: bad block 0 29\n"),
    (12, 2, b"capture: bad major 2\n"),
    (56, 1, b"capture: bad interface 2 1\n"),
    (36, 0x71, b"capture: bad ng link 2 113\n"),
    (71, 1, b"capture: packet 0 too long 16777270\n"),
    (68, 0x3d, b"capture: bad block 2 88\n"),
];

#[test]
fn faults_of_pcapng_captures_are_named(rt: HostRuntime) -> Result<(), Fail> {
    for (case, &(place, byte, line)) in FAULTS.iter().enumerate() {
        let bytes = with(rt.alloc(), place, byte)?;
        let got = hashed(rt.alloc(), &bytes)?;
        comes_to(&rt, &got, 4, b"", line, case);
    }
    Ok(())
}

#[test]
fn pcapng_captures_are_replayed(rt: HostRuntime) -> Result<(), Fail> {
    let alloc = rt.alloc();
    let plan = plan_of(alloc, ONE_FLOW, FOUR_STEPS)?;
    let capture = written(alloc, 4)?;
    let files = [
        ("p.json", plan.as_slice()),
        ("a.pcapng", capture.as_slice()),
    ];
    let got = called_over(alloc, &["replay", "p.json", "a.pcapng"], &files, &[])?;
    same(&rt, &got.status, &0, 0);
    same_bytes(&rt, &got.out, FOUR_REPORT, 0);
    Ok(())
}
