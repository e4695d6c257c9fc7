//! Captures that are read in pieces, frame by frame.
ghost use Rattle.std.specs.Prelude.{⊤};

use crate::pieces::{HEADER, joined, same, same_items};
use capture_stream::{StreamFault, read_frames};
use outside_io::{MAX_FILE, MemoryDesk};
use pcap_reader::{CaptureFault, FrameSink, MAX_FRAME, put_header, put_packet};
use pcapng_reader::{put_enhanced, put_section};
use std::alloc::Global;
use std::process::Abort;
use std::test::Fail;
use steer_base::OutOfMemory;

/// The length of each frame, and its first byte.
#[derive(Drop)]
struct Lengths {
    items: Vec<(usize, u8)>,
}

impl FrameSink for Lengths {
    ghost takes = { λ first frames now. ⊤ };

    fn take(&mut self, frame: &[u8]) -> Result<(), OutOfMemory> {
        let first = frame.first().copied().unwrap_or(0);
        self.items.push((frame.len(), first))?;
        Ok(())
    }
}

/// The lengths of some frames, the second as long as a frame may be, and the byte of which each is.
const FRAMES: [(usize, u8); 4] = [(60, 1), (262_144, 2), (1, 3), (70_000, 4)];

/// What the frames of a file are by their lengths, and how it ends.
#[derive(Drop)]
struct Found {
    frames: Vec<(usize, u8)>,
    end: Result<Option<u32>, StreamFault>,
}

/// Reads a file of at most `limit` bytes, of which the calls in `failing` fail.
fn read_file(
    alloc: Global,
    bytes: Vec<u8>,
    limit: usize,
    failing: &[u64],
) -> Result<Found, OutOfMemory> {
    let mut files = Vec::new(alloc);
    files.push((String::from_str(alloc, "file")?, bytes))?;
    let mut desk = MemoryDesk::make(files, Vec::from_slice(alloc, failing)?);
    let mut sink = Lengths {
        items: Vec::new(alloc),
    };
    let limit = limit.min(MAX_FILE);
    let end = read_frames(alloc, &mut desk, "file", limit, &mut sink);
    Ok(Found {
        frames: sink.items,
        end,
    })
}

/// The frames in a classic pcap file.
fn classic(rt: &impl Abort, alloc: Global) -> Result<Vec<u8>, OutOfMemory> {
    let mut bytes = Vec::new(alloc);
    put_header(&mut bytes)?;
    for &(len, byte) in FRAMES.iter() {
        let frame = Vec::from_elem(alloc, byte, len)?;
        assert!(rt; frame.len() <= MAX_FRAME as usize);
        put_packet(&mut bytes, 0, 0, &frame)?;
    }
    Ok(bytes)
}

/// The frames in a pcapng file.
fn pcapng(rt: &impl Abort, alloc: Global) -> Result<Vec<u8>, OutOfMemory> {
    let mut bytes = Vec::new(alloc);
    put_section(&mut bytes)?;
    for &(len, byte) in FRAMES.iter() {
        let frame = Vec::from_elem(alloc, byte, len)?;
        assert!(rt; frame.len() <= MAX_FRAME as usize);
        put_enhanced(&mut bytes, &frame)?;
    }
    Ok(bytes)
}

#[test]
fn frames_come_whole_from_pieces(rt: HostRuntime) -> Result<(), Fail> {
    let alloc = rt.alloc();
    for (case, bytes) in [classic(&rt, alloc)?, pcapng(&rt, alloc)?]
        .into_iter()
        .enumerate()
    {
        let len = bytes.len();
        let found = read_file(alloc, bytes, len, &[])?;
        same(&rt, &found.end, &Ok(None), case);
        same_items(&rt, &found.frames, &FRAMES);
    }
    Ok(())
}

#[test]
fn a_file_is_cut_or_has_its_first_fault(rt: HostRuntime) -> Result<(), Fail> {
    let alloc = rt.alloc();
    let long = [7; 70_000];
    let short = Err(StreamFault::Classic(CaptureFault::ShortHeader { len: 3 }));
    let magic = Err(StreamFault::Classic(CaptureFault::BadMagic { magic: 0x0707_0707 }));
    let cases: [(&[&[u8]], usize, &[u64], Result<Option<u32>, StreamFault>); 6] = [
        (&[&HEADER, &[0; 15]], 99, &[], Ok(Some(15))),
        (&[&HEADER], 24, &[], Ok(None)),
        (&[&HEADER[..3]], 99, &[], short),
        (&[&long], 70_000, &[], magic),
        (&[&long], 69_999, &[], Err(StreamFault::TooLong)),
        (&[&long], 70_000, &[3], Err(StreamFault::Unread)),
    ];
    for (case, &(pieces, limit, failing, wanted)) in cases.iter().enumerate() {
        let found = read_file(alloc, joined(alloc, pieces)?, limit, failing)?;
        same(&rt, &found.end, &wanted, case);
    }
    Ok(())
}
