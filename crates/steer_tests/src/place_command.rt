//! The command `place` on files in memory.
use crate::calls::{Outcome, called_over, comes_to, same};
use crate::files::{ARP, FRAME_A, FRAME_B, HEADER, RECORD_54, RECORD_60, file, front, joined};
use std::alloc::Global;
use std::process::Abort;
use std::test::Fail;
use steer_top::both_directions_have_one_queue;
use tunnel_dissector::put_vxlan;

/// Rules for a port and for a whole version.
const RULES: &[u8] = b"{\"queues\":4,\"rules\":[\
{\"kind\":\"tcp4\",\"dport\":1766,\"dportmask\":65535,\"queue\":3},\
{\"kind\":\"ip4\",\"queue\":1}]}";

const SYMMETRIC: &[u8] = b"{\"queues\":4,\"symmetric\":true,\"rules\":[]}";

const INNER: &[u8] = b"{\"queues\":4,\"inner\":true,\"rules\":[]}";

/// The first frame with its ends swapped.
const SWAPPED_A: [u8; 54] = [
    2, 0, 0, 0, 0, 2, 2, 0, 0, 0, 0, 1, 8, 0, 0x45, 0, 0, 0x28, 0, 0, 0, 0, 0x40, 6, 0, 0, 0xa1,
    0x8e, 0x64, 0x50, 0x42, 9, 0x95, 0xbb, 6, 0xe6, 0x0a, 0xea, 0, 0, 0, 0, 0, 0, 0, 0, 0x50, 0, 0,
    0, 0, 0, 0, 0,
];

/// A frame from 10.0.0.1 port 7 to itself.
const SELF: [u8; 54] = [
    2, 0, 0, 0, 0, 2, 2, 0, 0, 0, 0, 1, 8, 0, 0x45, 0, 0, 0x28, 0, 0, 0, 0, 0x40, 6, 0, 0, 10, 0,
    0, 1, 10, 0, 0, 1, 0, 7, 0, 7, 0, 0, 0, 0, 0, 0, 0, 0, 0x50, 0, 0, 0, 0, 0, 0, 0,
];

const PLACE: [&str; 3] = ["place", "r.json", "a.pcap"];

/// What `place` comes to with these rules and this capture.
fn placed(alloc: Global, rules: &[u8], capture: &[u8]) -> Result<Outcome, Fail> {
    called_over(
        alloc,
        &PLACE,
        &[("r.json", rules), ("a.pcap", capture)],
        &[],
    )
}

/// Rules, the pieces of a capture, and the text that they come to.
type Placed<'a> = (&'a [u8], &'a [&'a [u8]], &'a [u8]);

const THREE: [&[u8]; 7] = [
    &HEADER, &RECORD_54, &FRAME_A, &RECORD_54, &FRAME_B, &RECORD_60, &ARP,
];

const PLACED: [Placed; 3] = [
    (
        RULES,
        &THREE,
        b"packet 0 tcp4 420995bb a18e6450 2794 1766 hash 51ccc178 entry 120 queue 3 rule 0 \
            depth 0\n\
packet 1 tcp4 c75c6f02 41458c53 14230 4739 hash c626b0ea entry 106 queue 1 rule 1 depth 0\n\
packet 2 none hash - entry - queue 0 rule - depth 0\n\
packets 3\n",
    ),
    (
        SYMMETRIC,
        &[&HEADER, &RECORD_54, &SELF],
        b"packet 0 tcp4 0a000001 0a000001 7 7 hash 00000000 entry 0 queue 0 rule - depth 0\n\
packets 1\n",
    ),
    (
        SYMMETRIC,
        &[&HEADER, &RECORD_54, &FRAME_A, &RECORD_54, &SWAPPED_A],
        b"packet 0 tcp4 420995bb a18e6450 2794 1766 hash ac2b58ca entry 74 queue 2 rule - \
            depth 0\n\
packet 1 tcp4 a18e6450 420995bb 1766 2794 hash ac2b58ca entry 74 queue 2 rule - depth 0\n\
packets 2\n",
    ),
];

/// Asserts what this capture comes to by these rules.
fn comes_to_text(
    rt: &impl Abort,
    alloc: Global,
    rules: &[u8],
    capture: &[u8],
    text: &[u8],
    case: usize,
) -> Result<(), Fail> {
    let got = placed(alloc, rules, capture)?;
    comes_to(rt, &got, 0, text, b"", case);
    Ok(())
}

fn are_placed(rt: &impl Abort, alloc: Global, cases: &[Placed<'_>]) -> Result<(), Fail> {
    for (i, &(rules, pieces, text)) in cases.iter().enumerate() {
        let capture = joined(alloc, pieces)?;
        comes_to_text(rt, alloc, rules, &capture, text, i)?;
    }
    Ok(())
}

/// A capture of the first frame in a tunnel.
fn tunneled(alloc: Global) -> Result<Vec<u8>, Fail> {
    let mut tunnel = Vec::new(alloc);
    put_vxlan(&mut tunnel, 0x0a00_0001, 0x0a00_0002, 5, &FRAME_A)?;
    file(alloc, &[&tunnel])
}

const IN_TUNNEL: &[u8] =
    b"packet 0 tcp4 420995bb a18e6450 2794 1766 hash 51ccc178 entry 120 queue 0 rule - \
        depth 1\n\
packets 1\n";

const CUT: &[u8] =
    b"packet 0 tcp4 420995bb a18e6450 2794 1766 hash 51ccc178 entry 120 queue 0 rule - \
        depth 0\n\
packets 1 cut 6\n";

#[test]
fn packets_are_placed(rt: HostRuntime) -> Result<(), Fail> {
    both_directions_have_one_queue();
    let alloc = rt.alloc();
    are_placed(&rt, alloc, &PLACED)?;
    let tunnel = tunneled(alloc)?;
    comes_to_text(&rt, alloc, INNER, &tunnel, IN_TUNNEL, 3)?;
    let three = joined(alloc, &THREE)?;
    comes_to_text(&rt, alloc, INNER, front(&three, 100), CUT, 4)
}

/// Rules, and the line that names their fault.
const FAULTS: [(&[u8], &[u8]); 7] = [
    (b"{", b"rules: not json\n"),
    (b"7", b"rules: wrong kind \n"),
    (b"{}", b"rules: missing queues\n"),
    (b"{\"queues\":17,\"rules\":[]}", b"rules: range queues 17\n"),
    (
        b"{\"queues\":1,\"rules\":[],\"zeal\":1}",
        b"rules: unknown key zeal\n",
    ),
    (
        b"{\"queues\":4,\"rules\":[{\"kind\":\"ip4\",\"src\":\"0a\",\"queue\":1}]}",
        b"rules: wrong kind rules/0/src\n",
    ),
    (
        b"{\"queues\":4,\"rules\":[{\"kind\":\"ip4\",\"queue\":4}]}",
        b"rules: range rules/0/queue 4\n",
    ),
];

// The capture is missing each time: the rules are refused before it is asked for.
#[test]
fn what_is_no_rules_is_named(rt: HostRuntime) -> Result<(), Fail> {
    for (case, &(rules, line)) in FAULTS.iter().enumerate() {
        let got = called_over(rt.alloc(), &PLACE, &[("r.json", rules)], &[])?;
        comes_to(&rt, &got, 3, b"", line, case);
    }
    Ok(())
}

const WORDS: [&[&str]; 4] = [
    &["place"],
    &["place", "r.json"],
    &["place", "r.json", "-a"],
    &["place", "r.json", "a.pcap", "a.pcap"],
];

const ONE: [&[u8]; 3] = [&HEADER, &RECORD_54, &FRAME_A];

#[test]
fn each_file_has_its_status(rt: HostRuntime) -> Result<(), Fail> {
    let alloc = rt.alloc();
    let one = joined(alloc, &ONE)?;
    let long = vec![in alloc; b' '; 16_777_217]?;
    let got = placed(alloc, &long, &one)?;
    comes_to(&rt, &got, 8, b"", b"rules too long\n", 0);
    let got = placed(alloc, RULES, front(&HEADER, 23))?;
    comes_to(&rt, &got, 4, b"", b"capture: short header 23\n", 1);
    let got = called_over(alloc, &PLACE, &[("r.json", RULES)], &[])?;
    comes_to(&rt, &got, 5, b"", b"read fault\n", 2);
    let files = [("r.json", RULES), ("a.pcap", one.as_slice())];
    let got = called_over(alloc, &PLACE, &files, &[2])?;
    comes_to(&rt, &got, 5, b"", b"read fault\n", 3);
    words_get_the_usage(&rt, alloc, &files)
}

fn words_get_the_usage(
    rt: &impl Abort,
    alloc: Global,
    files: &[(&str, &[u8])],
) -> Result<(), Fail> {
    for (case, &texts) in WORDS.iter().enumerate() {
        let got = called_over(alloc, texts, files, &[])?;
        same(rt, &got.status, &2, case);
    }
    Ok(())
}
