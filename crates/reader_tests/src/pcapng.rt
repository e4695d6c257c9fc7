//! Files byte by byte, and what they are read as.
use crate::pieces::{SEGMENT, joined, same, same_items};
use pcap_reader::{Capture, PcapRecord};
use pcapng_reader::{
    NgFault, NgNext, NgWalker, a_block_is_four_pieces, a_block_is_read_as_written,
    a_file_is_read_as_written, a_walker_passes_blocks, frames_are_read_back, is_pcapng,
    one_capture_or_fault, put_enhanced, put_section, read_ng,
};
use std::alloc::Global;
use std::process::Abort;
use std::test::Fail;

/// A little-endian section header.
const SECTION: [u8; 28] = [
    0x0a, 0x0d, 0x0d, 0x0a, 0x1c, 0, 0, 0, 0x4d, 0x3c, 0x2b, 0x1a, 1, 0, 0, 0, 0xff, 0xff, 0xff,
    0xff, 0xff, 0xff, 0xff, 0xff, 0x1c, 0, 0, 0,
];

/// An interface of Ethernet frames, of which it keeps 262,144 bytes.
const INTERFACE: [u8; 20] = [
    1, 0, 0, 0, 0x14, 0, 0, 0, 1, 0, 0, 0, 0, 0, 4, 0, 0x14, 0, 0, 0,
];

/// What stands before a frame of 54 bytes.
const BEFORE: [u8; 28] = [
    6, 0, 0, 0, 0x58, 0, 0, 0, 0, 0, 0, 0, 0, 0, 0, 0, 0, 0, 0, 0, 0x36, 0, 0, 0, 0x36, 0, 0, 0,
];

/// What stands behind it.
const BEHIND: [u8; 6] = [0, 0, 0x58, 0, 0, 0];

/// A big-endian section header of version 1.9.
const BIG_SECTION: [u8; 28] = [
    0x0a, 0x0d, 0x0d, 0x0a, 0, 0, 0, 0x1c, 0x1a, 0x2b, 0x3c, 0x4d, 0, 1, 0, 9, 0xff, 0xff, 0xff,
    0xff, 0xff, 0xff, 0xff, 0xff, 0, 0, 0, 0x1c,
];

/// A section and an interface.
const BEGUN: [&[u8]; 2] = [&SECTION, &INTERFACE];

/// Two sections, the first of them big-endian.
const BIG_FIRST: [&[u8]; 2] = [&BIG_SECTION, &SECTION];

/// A file of one packet, 136 bytes.
const ONE_PACKET: [&[u8]; 5] = [&SECTION, &INTERFACE, &BEFORE, &SEGMENT, &BEHIND];

/// How many records a file has, and how many bytes of a last block that is cut.
type Counts = Result<(usize, Option<u32>), NgFault>;

fn capture_of(alloc: Global, file: &[u8]) -> Result<Result<Capture, NgFault>, Fail> {
    if !is_pcapng(file) {
        return Err("not a pcapng file".into());
    }
    Ok(read_ng(alloc, file))
}

/// The capture of a file that is one.
fn sure_capture_of(alloc: Global, file: &[u8]) -> Result<Capture, Fail> {
    Ok(capture_of(alloc, file)?.ok().ok_or("no capture")?)
}

fn counts(alloc: Global, file: &[u8]) -> Result<Counts, Fail> {
    Ok(match capture_of(alloc, file)? {
        Ok(capture) => Ok((capture.records.len(), capture.cut)),
        Err(fault) => Err(fault),
    })
}

/// Asserts that the file of a case has these counts.
fn has_counts(
    rt: &impl Abort,
    alloc: Global,
    file: &[u8],
    want: &Counts,
    case: usize,
) -> Result<(), Fail> {
    let got = counts(alloc, file)?;
    same(rt, &got, want, case);
    Ok(())
}

/// The first bytes of a file, all of them where it has fewer.
fn front(file: &[u8], len: usize) -> &[u8] {
    file.get(..len).unwrap_or(file)
}

/// The counts of the first bytes of a file of one packet.
fn counts_of_prefix(end: u32) -> Counts {
    match end {
        4..=27 => Ok((0, Some(end))),
        28 | 48 => Ok((0, None)),
        29..=47 => Ok((0, Some(end - 28))),
        49..=135 => Ok((0, Some(end - 48))),
        _ => Ok((1, None)),
    }
}

#[test]
fn each_prefix_is_read(rt: HostRuntime) -> Result<(), Fail> {
    let file = joined(rt.alloc(), &ONE_PACKET)?;
    same(&rt, &file.len(), &136, 0);
    for end in 4..137u32 {
        let prefix = front(&file, end as usize);
        has_counts(
            &rt,
            rt.alloc(),
            prefix,
            &counts_of_prefix(end),
            end as usize,
        )?;
    }
    Ok(())
}

#[test]
fn writes_the_file_that_is_read(rt: HostRuntime) -> Result<(), Fail> {
    let file = written(rt.alloc())?;
    let want = joined(rt.alloc(), &ONE_PACKET)?;
    same_items(&rt, &file, &want);
    has_records(&rt, rt.alloc(), &file, &[simple(76, 54, 54)])
}

fn written(alloc: Global) -> Result<Vec<u8>, Fail> {
    let mut file = Vec::new(alloc);
    put_section(&mut file)?;
    put_enhanced(&mut file, &SEGMENT)?;
    Ok(file)
}

/// Asserts that a file is a whole little-endian capture in microseconds with these records.
fn has_records(
    rt: &impl Abort,
    alloc: Global,
    file: &[u8],
    want: &[PcapRecord],
) -> Result<(), Fail> {
    let capture = sure_capture_of(alloc, file)?;
    same_items(rt, capture.records.as_slice(), want);
    same(rt, &capture.cut, &None, 0);
    same(rt, &(capture.big, capture.nano), &(false, false), 1);
    Ok(())
}

/// A section with an option, two interfaces, a name resolution block, a packet of the second, and
/// statistics; a big-endian section with two simple packets; one that keeps whole frames.
const SECTIONS: [u8; 296] = [
    0x0a, 0x0d, 0x0d, 0x0a, 32, 0, 0, 0, 0x4d, 0x3c, 0x2b, 0x1a, 1, 0, 0, 0, 0, 0, 0, 0, 0, 0, 0,
    0, 0, 0, 0, 0, 32, 0, 0, 0, // the first section
    1, 0, 0, 0, 20, 0, 0, 0, 101, 0, 0, 0, 0, 0, 4, 0, 20, 0, 0, 0, // of another link
    1, 0, 0, 0, 20, 0, 0, 0, 1, 0, 0, 0, 0, 0, 4, 0, 20, 0, 0, 0, // of Ethernet
    4, 0, 0, 0, 16, 0, 0, 0, 9, 9, 9, 9, 16, 0, 0, 0, // names
    6, 0, 0, 0, 36, 0, 0, 0, 1, 0, 0, 0, 4, 3, 2, 1, 8, 7, 6, 5, 2, 0, 0, 0, 5, 0, 0, 0, b'a',
    b'b', 0, 0, 36, 0, 0, 0, // a packet at 116
    5, 0, 0, 0, 12, 0, 0, 0, 12, 0, 0, 0, // statistics
    0x0a, 0x0d, 0x0d, 0x0a, 0, 0, 0, 0x1c, 0x1a, 0x2b, 0x3c, 0x4d, 0, 1, 0, 9, 0xff, 0xff, 0xff,
    0xff, 0xff, 0xff, 0xff, 0xff, 0, 0, 0, 0x1c, // the second section, big-endian
    0, 0, 0, 1, 0, 0, 0, 0x14, 0, 1, 0, 0, 0, 0, 0, 3, 0, 0, 0, 0x14, // three bytes are kept
    0, 0, 0, 3, 0, 0, 0, 20, 0, 0, 0, 5, b'c', b'd', b'e', 0, 0, 0, 0, 20, // a packet at 196
    0, 0, 0, 3, 0, 0, 0, 20, 0, 0, 0, 2, b'f', b'g', 0, 0, 0, 0, 0, 20, // and at 216
    0x0a, 0x0d, 0x0d, 0x0a, 0x1c, 0, 0, 0, 0x4d, 0x3c, 0x2b, 0x1a, 1, 0, 0, 0, 0xff, 0xff, 0xff,
    0xff, 0xff, 0xff, 0xff, 0xff, 0x1c, 0, 0, 0, // the third section
    1, 0, 0, 0, 20, 0, 0, 0, 1, 0, 0, 0, 0, 0, 0, 0, 20, 0, 0, 0, // whole frames are kept
    3, 0, 0, 0, 24, 0, 0, 0, 5, 0, 0, 0, b'h', b'i', b'j', b'k', b'l', 0, 0, 0, 24, 0, 0, 0,
];

fn simple(start: usize, len: u32, orig: u32) -> PcapRecord {
    PcapRecord {
        sec: 0,
        frac: 0,
        start,
        len,
        orig,
    }
}

#[test]
fn reads_sections_of_both_orders(rt: HostRuntime) -> Result<(), Fail> {
    let enhanced = PcapRecord {
        sec: 0x0102_0304,
        frac: 0x0506_0708,
        start: 116,
        len: 2,
        orig: 5,
    };
    let want = [
        enhanced,
        simple(196, 3, 5),
        simple(216, 2, 2),
        simple(284, 5, 5),
    ];
    has_records(&rt, rt.alloc(), &SECTIONS, &want)
}

#[test]
fn the_first_section_tells_the_order(rt: HostRuntime) -> Result<(), Fail> {
    let big = joined(rt.alloc(), &BIG_FIRST)?;
    let capture = sure_capture_of(rt.alloc(), &big)?;
    same(&rt, &(capture.big, capture.records.len()), &(true, 0), 0);
    Ok(())
}

/// What stands behind a section and an interface, and what the whole file is read as.
const ENDS: [(&[u8], Counts); 20] = [
    (
        &[0x0a, 0x0d, 0x0d, 0x0a, 13, 0, 0, 0, 0x4e, 0x3c, 0x2b, 0x1a],
        Err(NgFault::BadOrder { magic: 0x1a2b_3c4e }),
    ),
    (
        &[0x0a, 0x0d, 0x0d, 0x0a, 13, 0, 0, 0, 0x4e, 0x3c, 0x2b],
        Ok((0, Some(11))),
    ),
    (
        &[9, 0, 0, 0, 13, 0, 0, 0, 0, 0, 0, 0],
        Err(NgFault::BadBlock { block: 2, len: 13 }),
    ),
    (
        &[9, 0, 0, 0, 8, 0, 0, 0, 8, 0, 0, 0],
        Err(NgFault::BadBlock { block: 2, len: 8 }),
    ),
    (
        &[0x0a, 0x0d, 0x0d, 0x0a, 24, 0, 0, 0, 0x4d, 0x3c, 0x2b, 0x1a],
        Err(NgFault::BadBlock { block: 2, len: 24 }),
    ),
    (
        &[1, 0, 0, 0, 16, 0, 0, 0, 0, 0, 0, 0],
        Err(NgFault::BadBlock { block: 2, len: 16 }),
    ),
    (
        &[6, 0, 0, 0, 28, 0, 0, 0, 0, 0, 0, 0],
        Err(NgFault::BadBlock { block: 2, len: 28 }),
    ),
    (
        &[3, 0, 0, 0, 12, 0, 0, 0, 12, 0, 0, 0],
        Err(NgFault::BadBlock { block: 2, len: 12 }),
    ),
    (&[9, 0, 0, 0, 16, 0, 0, 0, 16, 0, 0, 0], Ok((0, Some(12)))),
    (
        &[9, 0, 0, 0, 12, 0, 0, 0, 16, 0, 0, 0],
        Err(NgFault::BadTail { block: 2, len: 16 }),
    ),
    (
        &[
            0x0a, 0x0d, 0x0d, 0x0a, 28, 0, 0, 0, 0x4d, 0x3c, 0x2b, 0x1a, 2, 0, 0, 0, 0, 0, 0, 0, 0,
            0, 0, 0, 28, 0, 0, 0,
        ],
        Err(NgFault::BadMajor { major: 2 }),
    ),
    (
        &[
            6, 0, 0, 0, 32, 0, 0, 0, 1, 0, 0, 0, 0, 0, 0, 0, 0, 0, 0, 0, 0, 0, 0, 0, 0, 0, 0, 0,
            32, 0, 0, 0,
        ],
        Err(NgFault::BadInterface { block: 2, id: 1 }),
    ),
    (
        &[
            0x0a, 0x0d, 0x0d, 0x0a, 28, 0, 0, 0, 0x4d, 0x3c, 0x2b, 0x1a, 1, 0, 0, 0, 0, 0, 0, 0, 0,
            0, 0, 0, 28, 0, 0, 0, 3, 0, 0, 0, 16, 0, 0, 0, 0, 0, 0, 0, 16, 0, 0, 0,
        ],
        Err(NgFault::BadInterface { block: 3, id: 0 }),
    ),
    (
        &[
            1, 0, 0, 0, 20, 0, 0, 0, 101, 0, 0, 0, 0, 0, 0, 0, 20, 0, 0, 0, 6, 0, 0, 0, 32, 0, 0,
            0, 1, 0, 0, 0, 0, 0, 0, 0, 0, 0, 0, 0, 1, 0, 4, 0, 0, 0, 0, 0, 32, 0, 0, 0,
        ],
        Err(NgFault::BadNgLink {
            block: 3,
            link: 101,
        }),
    ),
    (
        &[
            6, 0, 0, 0, 32, 0, 0, 0, 0, 0, 0, 0, 0, 0, 0, 0, 0, 0, 0, 0, 1, 0, 4, 0, 0, 0, 0, 0,
            32, 0, 0, 0,
        ],
        Err(NgFault::RecordTooLong {
            at: 0,
            len: 262_145,
        }),
    ),
    (
        &[
            6, 0, 0, 0, 32, 0, 0, 0, 0, 0, 0, 0, 0, 0, 0, 0, 0, 0, 0, 0, 0, 0, 4, 0, 0, 0, 0, 0,
            32, 0, 0, 0,
        ],
        Err(NgFault::BadBlock { block: 2, len: 32 }),
    ),
    (
        &[
            6, 0, 0, 0, 36, 0, 0, 0, 0, 0, 0, 0, 0, 0, 0, 0, 0, 0, 0, 0, 5, 0, 0, 0, 5, 0, 0, 0, 1,
            2, 3, 4, 36, 0, 0, 0,
        ],
        Err(NgFault::BadBlock { block: 2, len: 36 }),
    ),
    (
        &[3, 0, 0, 0, 16, 0, 0, 0, 1, 0, 0, 0, 16, 0, 0, 0],
        Err(NgFault::BadBlock { block: 2, len: 16 }),
    ),
    (
        &[3, 0, 0, 0, 16, 0, 0, 0, 0, 0, 0, 0, 16, 0, 0, 0],
        Ok((1, None)),
    ),
    (&[9, 0, 0, 0, 12, 0, 0, 0, 12, 0, 0, 0, 1], Ok((0, Some(1)))),
];

/// Asserts that a section and an interface with each of these ends are read as is wanted.
fn ends_are_read(rt: &impl Abort, alloc: Global, ends: &[(&[u8], Counts)]) -> Result<(), Fail> {
    for (i, &(end, want)) in ends.iter().enumerate() {
        end_is_read(rt, alloc, end, &want, i)?;
    }
    Ok(())
}

fn end_is_read(
    rt: &impl Abort,
    alloc: Global,
    end: &[u8],
    want: &Counts,
    case: usize,
) -> Result<(), Fail> {
    let mut file = joined(alloc, &BEGUN)?;
    file.extend_from_slice(end)?;
    has_counts(rt, alloc, &file, want, case)
}

#[test]
fn names_the_first_fault_of_a_block(rt: HostRuntime) -> Result<(), Fail> {
    ends_are_read(&rt, rt.alloc(), &ENDS)
}

/// A section with as many packets as a capture has at most, and another section.
fn full(alloc: Global) -> Result<Vec<u8>, Fail> {
    let mut file = Vec::new(alloc);
    put_section(&mut file)?;
    for _ in 0..262_144u32 {
        put_enhanced(&mut file, &[])?;
    }
    file.extend_from_slice(&SECTION)?;
    Ok(file)
}

#[test]
fn counts_at_most_262144_packets(rt: HostRuntime) -> Result<(), Fail> {
    let mut file = full(rt.alloc())?;
    has_counts(&rt, rt.alloc(), &file, &Ok((262_144, None)), 0)?;
    file.extend_from_slice(&[3, 0, 0, 0, 16, 0, 0, 0, 1, 0, 0, 0, 16, 0, 0])?;
    has_counts(&rt, rt.alloc(), &file, &Ok((262_144, Some(15))), 15)?;
    file.push(0)?;
    has_counts(&rt, rt.alloc(), &file, &Err(NgFault::TooManyPackets), 16)
}

#[test]
fn laws_may_be_called() {
    one_capture_or_fault();
    a_block_is_four_pieces();
    a_block_is_read_as_written();
    a_file_is_read_as_written();
    frames_are_read_back();
    a_walker_passes_blocks();
}

/// What a walker finds in a window of a short file.
fn find(walker: &mut NgWalker, window: &[u8]) -> Result<NgNext, Fail> {
    let place = walker.place;
    if place.block > place.start as u64 || place.start > 4096 || window.len() > 4096 {
        return Err("a long file".into());
    }
    Ok(walker.next(window).ok().ok_or("a fault")?)
}

/// Appends a part of a window.
fn push_part(out: &mut Vec<u8>, window: &[u8], start: usize, len: usize) -> Result<(), Fail> {
    let behind = window.get(start..).ok_or("a start past the window")?;
    out.extend_from_slice(behind.get(..len).ok_or("a frame past the window")?)?;
    Ok(())
}

/// The frames of a short file one after another, if its bytes come in pieces of this length.
fn frames_by_pieces(alloc: Global, file: &[u8], piece: usize) -> Result<Vec<u8>, Fail> {
    let mut walker = NgWalker::new(alloc);
    let mut frames = Vec::new(alloc);
    let mut at = 0usize;
    let mut end = 0usize;
    for _ in 0..4096u32 {
        let window = file.get(at..end).ok_or("past the file")?;
        match find(&mut walker, window)? {
            NgNext::Frame { start, len, size } => {
                push_part(&mut frames, window, start, len)?;
                at = at.saturating_add(size);
            }
            NgNext::Other { size } => at = at.saturating_add(size),
            NgNext::Incomplete => {
                if end == file.len() {
                    return Ok(frames);
                }
                end = end.saturating_add(piece).min(file.len());
            }
        }
    }
    Err("too many steps".into())
}

#[test]
fn a_walker_finds_the_frames_in_pieces(rt: HostRuntime) -> Result<(), Fail> {
    for piece in [1usize, 7, 64, 296] {
        let frames = frames_by_pieces(rt.alloc(), &SECTIONS, piece)?;
        same_items(&rt, &frames, b"abcdefghijkl".as_slice());
    }
    Ok(())
}
