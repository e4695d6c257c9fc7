//! Files byte by byte, and what they are read as.
use crate::pieces::{HEADER, SEGMENT, joined, same, same_items};
use pcap_reader::{
    Capture, CaptureFault, PcapRecord, captures_read_back, one_capture_or_fault, put_header,
    put_packet, read_capture,
};
use std::alloc::Global;
use std::process::Abort;
use std::test::Fail;
use steer_base::OutOfMemory;

/// The header of a record of 54 bytes.
const RECORD: [u8; 16] = [
    0x00, 0x00, 0x00, 0x00, 0x00, 0x00, 0x00, 0x00, 0x36, 0x00, 0x00, 0x00, 0x36, 0x00, 0x00, 0x00,
];

/// The segment from 199.92.111.2 to 65.69.140.83.
const SECOND: [u8; 54] = [
    0x02, 0x00, 0x00, 0x00, 0x00, 0x02, 0x02, 0x00, 0x00, 0x00, 0x00, 0x01, 0x08, 0x00, 0x45, 0x00,
    0x00, 0x28, 0x00, 0x00, 0x00, 0x00, 0x40, 0x06, 0x00, 0x00, 0xc7, 0x5c, 0x6f, 0x02, 0x41, 0x45,
    0x8c, 0x53, 0x37, 0x96, 0x12, 0x83, 0x00, 0x00, 0x00, 0x00, 0x00, 0x00, 0x00, 0x00, 0x50, 0x00,
    0x00, 0x00, 0x00, 0x00, 0x00, 0x00,
];

/// The file with both packets, 164 bytes.
const BOTH: [&[u8]; 5] = [&HEADER, &RECORD, &SEGMENT, &RECORD, &SECOND];

/// A header, a whole record, and 8 bytes of the next one.
const BEGUN: [&[u8]; 4] = [&HEADER, &RECORD, &SEGMENT, &[0; 8]];

/// A header, and the header of a record without its last byte.
const CUT: [&[u8]; 2] = [
    &HEADER,
    &[0, 0, 0, 0, 0, 0, 0, 0, 0xff, 0xff, 0xff, 0xff, 0, 0, 0],
];

/// How many records a file has, and how many bytes of a last one that is cut.
type Counts = Result<(usize, Option<u32>), CaptureFault>;

fn counts(alloc: Global, file: &[u8]) -> Counts {
    let capture = read_capture(alloc, file)?;
    Ok((capture.records.len(), capture.cut))
}

/// Asserts that a file has these counts.
fn has_counts(rt: &impl Abort, alloc: Global, file: &[u8], wanted: Counts) {
    same(rt, &counts(alloc, file), &wanted, file.len());
}

/// The capture of a file that is one.
fn capture_of(alloc: Global, file: &[u8]) -> Result<Capture, Fail> {
    Ok(read_capture(alloc, file).ok().ok_or("no capture")?)
}

/// The first bytes of a file, all of them where it has fewer.
fn front(file: &[u8], len: usize) -> &[u8] {
    file.get(..len).unwrap_or(file)
}

#[test]
fn each_prefix_is_read(rt: HostRuntime) -> Result<(), Fail> {
    let file = joined(rt.alloc(), &BOTH)?;
    same(&rt, &file.len(), &164, 0);
    for end in 0..165u32 {
        let prefix = front(&file, end as usize);
        has_counts(&rt, rt.alloc(), prefix, counts_of_prefix(end));
    }
    Ok(())
}

/// The counts of the first bytes of the file with both packets.
fn counts_of_prefix(end: u32) -> Counts {
    match end {
        0..=23 => Err(CaptureFault::ShortHeader { len: end as usize }),
        24 => Ok((0, None)),
        25..=93 => Ok((0, Some(end - 24))),
        94 => Ok((1, None)),
        95..=163 => Ok((1, Some(end - 94))),
        _ => Ok((2, None)),
    }
}

/// Asserts that a file is a capture with these records, in this order of bytes and with this unit
/// of time, and is whole.
fn has_records(
    rt: &impl Abort,
    alloc: Global,
    file: &[u8],
    records: &[PcapRecord],
    big_and_nano: (bool, bool),
) -> Result<(), Fail> {
    let capture = capture_of(alloc, file)?;
    same_items(rt, capture.records.as_slice(), records);
    same(rt, &capture.cut, &None, 0);
    same(rt, &(capture.big, capture.nano), &big_and_nano, 1);
    Ok(())
}

#[test]
fn records_tell_times_places_and_lengths(rt: HostRuntime) -> Result<(), Fail> {
    let file = joined(rt.alloc(), &BOTH)?;
    let record = PcapRecord {
        sec: 0,
        frac: 0,
        start: 40,
        len: 54,
        orig: 54,
    };
    let last = PcapRecord {
        start: 110,
        ..record
    };
    has_records(&rt, rt.alloc(), &file, &[record, last], (false, false))
}

#[test]
fn writes_the_file_that_is_read(rt: HostRuntime) -> Result<(), Fail> {
    let file = written(rt.alloc())?;
    let want = joined(rt.alloc(), &BOTH)?;
    same_items(&rt, &file, &want);
    Ok(())
}

fn written(alloc: Global) -> Result<Vec<u8>, OutOfMemory> {
    let mut file = Vec::new(alloc);
    put_header(&mut file)?;
    put_packet(&mut file, 0, 0, &SEGMENT)?;
    put_packet(&mut file, 0, 0, &SECOND)?;
    Ok(file)
}

#[test]
fn writes_times_and_lengths(rt: HostRuntime) -> Result<(), Fail> {
    let mut times = Vec::new(rt.alloc());
    put_packet(&mut times, 0x0102_0304, 0x0506_0708, b"ab")?;
    let want = [4, 3, 2, 1, 8, 7, 6, 5, 2, 0, 0, 0, 2, 0, 0, 0, b'a', b'b'];
    same_items(&rt, &times, &want);
    Ok(())
}

/// A big-endian file with nanoseconds.
const BIG: [u8; 42] = [
    0xa1, 0xb2, 0x3c, 0x4d, 0, 2, 0, 4, 0, 0, 0, 0, 0, 0, 0, 0, // header
    0, 0, 0xff, 0xff, 0, 0, 0, 1, // its second part
    0x65, 0x43, 0x21, 0, 0x3b, 0x9a, 0xc9, 0xff, 0, 0, 0, 2, 0, 0, 5, 0xdc, b'a', b'b',
];

#[test]
fn reads_the_highest_byte_first(rt: HostRuntime) -> Result<(), Fail> {
    let record = PcapRecord {
        sec: 0x6543_2100,
        frac: 999_999_999,
        start: 40,
        len: 2,
        orig: 1500,
    };
    has_records(&rt, rt.alloc(), &BIG, &[record], (true, true))
}

/// Bytes that are written over a place of the header, and what the file is read as.
const HEADERS: [(usize, &[u8], Counts); 8] = [
    (
        0,
        &[1, 2, 3, 4],
        Err(CaptureFault::BadMagic { magic: 0x0403_0201 }),
    ),
    (
        0,
        &[0xa1, 0xb2, 0xc3, 0xd5],
        Err(CaptureFault::BadMagic { magic: 0xd5c3_b2a1 }),
    ),
    (
        6,
        &[5],
        Err(CaptureFault::BadVersion { major: 2, minor: 5 }),
    ),
    (
        4,
        &[1, 1],
        Err(CaptureFault::BadVersion {
            major: 0x101,
            minor: 4,
        }),
    ),
    (
        20,
        &[101, 0, 0, 0xf0],
        Err(CaptureFault::BadLink { link: 0xf000_0065 }),
    ),
    (20, &[1, 1], Err(CaptureFault::BadLink { link: 0x101 })),
    (20, &[1, 0, 0, 0xf0], Ok((0, None))),
    (8, &[9, 9, 9, 9, 9, 9, 9, 9, 9, 9, 9, 9], Ok((0, None))),
];

/// The header with some bytes written over.
fn header_with(rt: &impl Abort, place: usize, bytes: &[u8]) -> [u8; 24] {
    assert!(rt; place <= 24 && bytes.len() <= 24 && place + bytes.len() <= 24);
    let mut header = HEADER;
    header[place..place + bytes.len()].copy_from_slice(bytes);
    header
}

fn headers_are_read(rt: &impl Abort, alloc: Global, cases: &[(usize, &[u8], Counts)]) {
    for &(place, bytes, want) in cases {
        has_counts(rt, alloc, &header_with(rt, place, bytes), want);
    }
}

#[test]
fn names_each_fault_of_a_header(rt: HostRuntime) {
    headers_are_read(&rt, rt.alloc(), &HEADERS);
}

/// What stands behind 8 bytes of the second record, and what the file is read as.
const ENDS: [(&[u8], Counts); 5] = [
    (
        &[0xff, 0xff, 0xff, 0xff, 0, 0, 0, 0],
        Err(CaptureFault::RecordTooLong {
            at: 1,
            len: 4_294_967_295,
        }),
    ),
    (&[0xff, 0xff, 0xff, 0xff, 0, 0, 0], Ok((1, Some(15)))),
    (
        &[1, 0, 4, 0, 0, 0, 0, 0],
        Err(CaptureFault::RecordTooLong {
            at: 1,
            len: 262_145,
        }),
    ),
    (&[0, 0, 4, 0, 0, 0, 0, 0], Ok((1, Some(16)))),
    (&[1, 0, 0, 0, 0, 0, 0, 0, 9], Ok((2, None))),
];

fn end_is_read(rt: &impl Abort, alloc: Global, end: &[u8], want: Counts) -> Result<(), Fail> {
    let mut file = joined(alloc, &BEGUN)?;
    file.extend_from_slice(end)?;
    has_counts(rt, alloc, &file, want);
    Ok(())
}

fn ends_are_read(rt: &impl Abort, alloc: Global, ends: &[(&[u8], Counts)]) -> Result<(), Fail> {
    for &(end, want) in ends {
        end_is_read(rt, alloc, end, want)?;
    }
    Ok(())
}

#[test]
fn names_a_record_that_is_too_long(rt: HostRuntime) -> Result<(), Fail> {
    ends_are_read(&rt, rt.alloc(), &ENDS)
}

#[test]
fn asks_for_a_length_once_its_header_is_whole(rt: HostRuntime) -> Result<(), Fail> {
    let mut file = joined(rt.alloc(), &CUT)?;
    has_counts(&rt, rt.alloc(), &file, Ok((0, Some(15))));
    file.push(0)?;
    let too_long = CaptureFault::RecordTooLong {
        at: 0,
        len: 4_294_967_295,
    };
    has_counts(&rt, rt.alloc(), &file, Err(too_long));
    Ok(())
}

#[test]
fn counts_at_most_262144_packets(rt: HostRuntime) -> Result<(), Fail> {
    let mut file = Vec::with_capacity(rt.alloc(), 24 + 16 * 262_144 + 1)?;
    file.extend_from_slice(&HEADER)?;
    file.resize(24 + 16 * 262_144, 0)?;
    has_counts(&rt, rt.alloc(), &file, Ok((262_144, None)));
    file.push(0)?;
    has_counts(&rt, rt.alloc(), &file, Err(CaptureFault::TooManyPackets));
    Ok(())
}

#[test]
fn laws_may_be_called() {
    one_capture_or_fault();
    captures_read_back();
}
