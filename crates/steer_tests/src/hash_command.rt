//! The command `hash` on files in memory.
ghost use Rattle.std.specs.Prelude.{◌≡◌, Option, None};
ghost use Rattle.outside_io.specs.Counts.{last_count};

use crate::calls::{
    Outcome, called, called_failing, called_over, comes_to, desk_of, outcome_of, run, same,
    same_bytes, sink,
};
use crate::files::{
    ARP, BIG_HEADER, BIG_RECORD, FRAGMENT, FRAME_A, FRAME_B, HEADER, OTHER_LINK, RECORD_54,
    RECORD_60, RECORD_82, SYN, TAGGED_V6, TCPDUMP, VERSION_2_5, ZEROS, front, joined,
};
use crate::slow::{Slowly, called_slowly};
use outside_io::{Begin, Desk, Got, MemorySink, Sink, SureDesk, SureSink, Took, WriteFault};
use std::alloc::Global;
use std::process::Abort;
use std::test::Fail;

const LINE_A: &[u8] =
    b"packet 0 tcp4 420995bb a18e6450 2794 1766 hash 51ccc178 entry 120 queue 0\npackets 1\n";

const USAGE: &[u8] =
    b"usage: steer hash CAPTURE [QUEUES [KINDS]] | replay PLAN CAPTURE | run PLAN CAPTURE | gen \
        SEED PACKETS FLOWS | check PLAN CAPTURE REPORT | place RULES CAPTURE\n";

const HASH: [&str; 2] = ["hash", "a.pcap"];

// Asserts what a call of these words on this capture comes to.
fn capture_comes_to(
    rt: &impl Abort,
    alloc: Global,
    texts: &[&str],
    capture: &[u8],
    wanted: (u8, &[u8], &[u8]),
    case: usize,
) -> Result<(), Fail> {
    let got = called_over(alloc, texts, &[("a.pcap", capture)], &[])?;
    let (status, out, err) = wanted;
    comes_to(rt, &got, status, out, err, case);
    Ok(())
}

// A file of one packet.
const ONE: [&[u8]; 3] = [&HEADER, &RECORD_54, &FRAME_A];

const TWO: [&[u8]; 5] = [&HEADER, &RECORD_54, &FRAME_A, &RECORD_54, &FRAME_B];

const BIG: [&[u8]; 3] = [&BIG_HEADER, &BIG_RECORD, &FRAME_B];

// A record whose header lacks its last byte, and has a length beyond the limit.
const CUT_LONG: [&[u8]; 2] = [
    &HEADER,
    &[0, 0, 0, 0, 0, 0, 0, 0, 0xff, 0xff, 0xff, 0xff, 0, 0, 0],
];

// Words, the pieces of a capture, and the text that they come to.
type Hashed<'a> = (&'a [&'a str], &'a [&'a [u8]], &'a [u8]);

const HASHED: [Hashed; 11] = [
    (&HASH, &ONE, LINE_A),
    (
        &["hash", "a.pcap", "016", "063"],
        &ONE,
        b"packet 0 tcp4 420995bb a18e6450 2794 1766 hash 51ccc178 entry 120 queue 8\n\
            packets 1\n",
    ),
    (
        &["hash", "a.pcap", "4", "61"],
        &ONE,
        b"packet 0 tcp4 420995bb a18e6450 2794 1766 hash 323e8fc2 entry 66 queue 2\n\
            packets 1\n",
    ),
    (
        &["hash", "a.pcap", "1", "0"],
        &ONE,
        b"packet 0 tcp4 420995bb a18e6450 2794 1766 hash - entry - queue 0\npackets 1\n",
    ),
    (&HASH, &[&HEADER], b"packets 0\n"),
    (
        &["hash", "a.pcap", "16"],
        &BIG,
        b"packet 0 tcp4 c75c6f02 41458c53 14230 4739 hash c626b0ea entry 106 queue 10\n\
            packets 1\n",
    ),
    (
        &HASH,
        &[&HEADER, &RECORD_82, &TAGGED_V6],
        b"packet 0 tcp6 3ffe050100080000026097fffe40efab ff020000000000000000000000000001 \
            14230 4739 hash dde51bbf entry 63 queue 3\npackets 1\n",
    ),
    (
        &HASH,
        &[&HEADER, &RECORD_60, &ARP],
        b"packet 0 none hash - entry - queue 0\npackets 1\n",
    ),
    (
        &HASH,
        &[&HEADER, &RECORD_54, &FRAGMENT],
        b"packet 0 two4 420995bb a18e6450 hash 323e8fc2 entry 66 queue 2\npackets 1\n",
    ),
    (&HASH, &[&TCPDUMP, &SYN], LINE_A),
    (&HASH, &CUT_LONG, b"packets 0 cut 15\n"),
];

fn are_hashed(rt: &impl Abort, alloc: Global, cases: &[Hashed<'_>]) -> Result<(), Fail> {
    for (i, &(texts, pieces, text)) in cases.iter().enumerate() {
        let capture = joined(alloc, pieces)?;
        capture_comes_to(rt, alloc, texts, &capture, (0, text, b""), i)?;
    }
    Ok(())
}

#[test]
fn captures_are_hashed(rt: HostRuntime) -> Result<(), Fail> {
    let alloc = rt.alloc();
    are_hashed(&rt, alloc, &HASHED)?;
    let two = joined(alloc, &TWO)?;
    let text = b"packet 0 tcp4 420995bb a18e6450 2794 1766 hash 51ccc178 entry 120 queue 0\n\
        packets 1 cut 69\n";
    capture_comes_to(&rt, alloc, &HASH, front(&two, 163), (0, text, b""), 11)
}

// A record with a length beyond the limit.
const LONG: [&[u8]; 2] = [
    &HEADER,
    &[0, 0, 0, 0, 0, 0, 0, 0, 0xff, 0xff, 0xff, 0xff, 0, 0, 0, 0],
];

// As many empty records as a capture may have, and a byte.
fn too_many(alloc: Global) -> Result<Vec<u8>, Fail> {
    let mut many = HEADER.to_vec(alloc)?;
    many.resize(24 + 16 * 262_144 + 1, 0)?;
    Ok(many)
}

#[test]
fn what_is_no_capture_is_named(rt: HostRuntime) -> Result<(), Fail> {
    let alloc = rt.alloc();
    let long = joined(alloc, &LONG)?;
    let many = too_many(alloc)?;
    is_no_capture(
        &rt,
        alloc,
        front(&HEADER, 23),
        b"capture: short header 23\n",
        0,
    )?;
    is_no_capture(&rt, alloc, &ZEROS, b"capture: bad magic 00000000\n", 1)?;
    is_no_capture(&rt, alloc, &VERSION_2_5, b"capture: bad version 2 5\n", 2)?;
    is_no_capture(&rt, alloc, &OTHER_LINK, b"capture: bad link 65637\n", 3)?;
    is_no_capture(
        &rt,
        alloc,
        &long,
        b"capture: packet 0 too long 4294967295\n",
        4,
    )?;
    is_no_capture(&rt, alloc, &many, b"capture: too many packets\n", 5)
}

fn is_no_capture(
    rt: &impl Abort,
    alloc: Global,
    file: &[u8],
    line: &[u8],
    case: usize,
) -> Result<(), Fail> {
    capture_comes_to(rt, alloc, &HASH, file, (4, b"", line), case)
}

const NO_COMMANDS: [&[&str]; 15] = [
    &["hash"],
    &["hash", "a.pcap", "17"],
    &["replay", "p"],
    &["run", "p", "a.pcap"],
    &[],
    &[""],
    &["hash", ""],
    &["hash", "-a.pcap"],
    &["--help"],
    &["hash", "a.pcap", "0"],
    &["hash", "a.pcap", "4", "64"],
    &["hash", "a.pcap", "000000000000000000004"],
    &["hash", "a.pcap", "+4"],
    &["hash", "a.pcap", "4", ""],
    &["hash", "a.pcap", "4", "63", "1"],
];

fn get_the_usage(
    rt: &impl Abort,
    alloc: Global,
    capture: &[u8],
    words: &[&[&str]],
) -> Result<(), Fail> {
    for (case, &texts) in words.iter().enumerate() {
        capture_comes_to(rt, alloc, texts, capture, (2, b"", USAGE), case)?;
    }
    Ok(())
}

#[test]
fn words_that_are_no_command_get_the_usage(rt: HostRuntime) -> Result<(), Fail> {
    let capture = joined(rt.alloc(), &ONE)?;
    get_the_usage(&rt, rt.alloc(), &capture, &NO_COMMANDS)
}

// What the command on this capture comes to, where calls of the desk and of the sinks fail.
fn failing(
    alloc: Global,
    capture: &[u8],
    reads: &[u64],
    out_writes: &[u64],
    err_writes: &[u64],
) -> Result<Outcome, Fail> {
    let mut desk = desk_of(alloc, &[("a.pcap", capture)], reads)?;
    called_failing(alloc, &HASH, &mut desk, out_writes, err_writes)
}

#[test]
fn faults_of_the_desk_and_the_sinks_are_told(rt: HostRuntime) -> Result<(), Fail> {
    let alloc = rt.alloc();
    let bytes = joined(alloc, &ONE)?;
    let got = failing(alloc, &bytes, &[2], &[], &[])?;
    comes_to(&rt, &got, 5, b"", b"read fault\n", 0);
    let got = failing(alloc, &bytes, &[], &[2], &[])?;
    comes_to(&rt, &got, 6, front(LINE_A, 74), b"write fault\n", 0);
    let got = failing(alloc, front(&HEADER, 23), &[], &[], &[1])?;
    same(&rt, &got.status, &4, 2);
    same_bytes(&rt, &got.err, b"", 2);
    Ok(())
}

// The status of the command, and how many bytes went to each sink, where no call fails.
fn sure(alloc: Global) -> Result<(u8, u64, u64), Fail> {
    let mut files = Vec::new(alloc);
    files.push((String::from_str(alloc, "a.pcap")?, joined(alloc, &ONE)?))?;
    let mut desk = SureDesk::make(files);
    let mut out = SureSink::make();
    let mut err = SureSink::make();
    let status = run(alloc, &HASH, &mut desk, &mut out, &mut err, Vec::new(alloc))?;
    Ok((status, out.count(), err.count()))
}

#[test]
fn a_sure_desk_and_sure_sinks_serve(rt: HostRuntime) -> Result<(), Fail> {
    let got = sure(rt.alloc())?;
    same(&rt, &got, &(0, 84, 0), 0);
    Ok(())
}

// A desk that makes the bytes of a file: so many, all of them 0, and it tells none.
#[derive(Drop)]
struct Made {
    len: usize,
    left: usize,
}

impl Desk for Made {
    ghost held = { λ _ _. None };

    ghost left = { λ _. None };

    ghost taken = { λ _. last_count };

    ghost reads = { λ _. last_count };

    ghost faults = { λ _. 0 };

    fn begin(&mut self, _name: &str) -> Begin {
        self.left = self.len;
        Begin::Ok
    }

    fn read(&mut self, buf: &mut [u8]) -> Got {
        if self.left == 0 {
            return Got::End;
        }
        let count = buf.len().min(self.left);
        self.left -= count;
        Got::Bytes(count)
    }
}

#[test]
fn a_file_that_is_too_long_is_refused(rt: HostRuntime) -> Result<(), Fail> {
    let mut desk = Made {
        len: 268_435_457,
        left: 0,
    };
    let got = called(rt.alloc(), &HASH, &mut desk)?;
    comes_to(&rt, &got, 8, b"", b"capture too long\n", 0);
    Ok(())
}

#[test]
fn one_byte_at_a_time_gives_the_same_text(rt: HostRuntime) -> Result<(), Fail> {
    let alloc = rt.alloc();
    let capture = joined(alloc, &ONE)?;
    let got = called_slowly(alloc, &HASH, Slowly::make(Vec::new(alloc), capture))?;
    comes_to(&rt, &got, 0, LINE_A, b"", 0);
    Ok(())
}

// A sink that counts its flushes, all of which fail where it is told so. It tells no bytes.
#[derive(Drop)]
struct Flushed {
    inner: MemorySink,
    flushes: u64,
    fails: bool,
}

impl Sink for Flushed {
    ghost written = { λ _. None };

    ghost faults = { λ _. last_count };

    fn write(&mut self, bytes: &[u8]) -> Took {
        self.inner.write(bytes)
    }

    fn flush(&mut self) -> Result<(), WriteFault> {
        self.flushes = self.flushes.saturating_add(1);
        if self.fails { Err(WriteFault) } else { Ok(()) }
    }
}

// A sink of which each flush fails, or none.
fn flushing(alloc: Global, fails: bool) -> Result<Flushed, Fail> {
    Ok(Flushed {
        inner: sink(alloc, &[])?,
        flushes: 0,
        fails,
    })
}

// What the command on this capture comes to, and how often its text and its line were flushed. No
// flush of the line succeeds.
fn outcome_with_flushes(
    alloc: Global,
    capture: &[u8],
    fails: bool,
) -> Result<(Outcome, (u64, u64)), Fail> {
    let mut desk = desk_of(alloc, &[("a.pcap", capture)], &[])?;
    let mut out = flushing(alloc, fails)?;
    let mut err = flushing(alloc, true)?;
    let status = run(alloc, &HASH, &mut desk, &mut out, &mut err, Vec::new(alloc))?;
    let got = outcome_of(alloc, status, &out.inner, &err.inner)?;
    Ok((got, (out.flushes, err.flushes)))
}

#[test]
fn a_text_and_a_line_are_flushed_once_and_a_flush_may_fail(rt: HostRuntime) -> Result<(), Fail> {
    let alloc = rt.alloc();
    let bytes = joined(alloc, &ONE)?;
    let (got, flushes) = outcome_with_flushes(alloc, &bytes, false)?;
    same(&rt, &(got.status, flushes), &(0, (1, 1)), 0);
    let (got, flushes) = outcome_with_flushes(alloc, &bytes, true)?;
    same(&rt, &(got.status, flushes), &(6, (1, 1)), 1);
    same_bytes(&rt, &got.out, LINE_A, 1);
    same_bytes(&rt, &got.err, b"write fault\n", 1);
    let (got, flushes) = outcome_with_flushes(alloc, front(&HEADER, 23), true)?;
    same(&rt, &(got.status, flushes), &(4, (0, 1)), 2);
    Ok(())
}
