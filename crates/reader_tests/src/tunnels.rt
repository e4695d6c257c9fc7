//! Frames in tunnels byte by byte, and the flows that are found in them.
use crate::pieces::{joined, same, same_items};
use std::alloc::Global;
use std::process::Abort;
use std::test::Fail;
use steer_base::{Flow, Pair, Proto};
use tunnel_dissector::{Inner, a_tunnel_is_one_level_more, dissect_inner, put_vxlan};

/// The beginning of an Ethernet frame that carries IPv4.
const ETHERNET: [u8; 14] = [2, 0, 0, 0, 0, 2, 2, 0, 0, 0, 0, 1, 8, 0];

/// The beginning of one that carries IPv6.
const ETHERNET6: [u8; 14] = [2, 0, 0, 0, 0, 2, 2, 0, 0, 0, 0, 1, 0x86, 0xdd];

/// A TCP packet over IPv4, from 66.9.149.187 port 2794 to 161.142.100.80 port 1766.
const TCP: [u8; 24] = [
    0x45, 0, 0, 0x18, 0, 0, 0, 0, 0x40, 6, 0, 0, 0x42, 0x09, 0x95, 0xbb, 0xa1, 0x8e, 0x64, 0x50,
    0x0a, 0xea, 0x06, 0xe6,
];

/// An IPv6 packet of protocol 59 from ::1 to ::2.
const SIX: [u8; 40] = [
    0x60, 0, 0, 0, 0, 0, 59, 64, 0, 0, 0, 0, 0, 0, 0, 0, 0, 0, 0, 0, 0, 0, 0, 1, 0, 0, 0, 0, 0, 0,
    0, 0, 0, 0, 0, 0, 0, 0, 0, 2,
];

/// The header of that packet before destination options.
const SIX_WITH_OPTIONS: [u8; 40] = [
    0x60, 0, 0, 0, 0, 0, 60, 64, 0, 0, 0, 0, 0, 0, 0, 0, 0, 0, 0, 0, 0, 0, 0, 1, 0, 0, 0, 0, 0, 0,
    0, 0, 0, 0, 0, 0, 0, 0, 0, 2,
];

/// An IPv4 header before GRE, from 10.0.0.1 to 10.0.0.2.
const GRE: [u8; 20] = [
    0x45, 0, 0, 0, 0, 0, 0, 0, 64, 47, 0, 0, 10, 0, 0, 1, 10, 0, 0, 2,
];

/// The same before IPv4.
const IP_IN_IP: [u8; 20] = [
    0x45, 0, 0, 0, 0, 0, 0, 0, 64, 4, 0, 0, 10, 0, 0, 1, 10, 0, 0, 2,
];

/// The same before IPv6.
const SIX_IN_IP: [u8; 20] = [
    0x45, 0, 0, 0, 0, 0, 0, 0, 64, 41, 0, 0, 10, 0, 0, 1, 10, 0, 0, 2,
];

/// The same before UDP.
const UDP_IN_IP: [u8; 20] = [
    0x45, 0, 0, 0, 0, 0, 0, 0, 64, 17, 0, 0, 10, 0, 0, 1, 10, 0, 0, 2,
];

const TCP_FLOW: Flow = Flow::Four(
    Pair::V4 {
        src: 0x4209_95bb,
        dst: 0xa18e_6450,
    },
    Proto::Tcp,
    2794,
    1766,
);

const OUTER_ENDS: Pair = Pair::V4 {
    src: 0x0a00_0001,
    dst: 0x0a00_0002,
};

/// The flow of the outer headers.
const OUTER: Flow = Flow::Two(OUTER_ENDS);

/// What is found in the pieces one after another.
fn inner_of(alloc: Global, pieces: &[&[u8]]) -> Result<(Flow, u8), Fail> {
    let frame = joined(alloc, pieces)?;
    let Inner { flow, depth } = dissect_inner(frame.as_slice());
    Ok((flow, depth))
}

/// Asserts the flow and the depth that are found in the pieces of a case.
fn is_found(
    rt: &impl Abort,
    alloc: Global,
    pieces: &[&[u8]],
    flow: Flow,
    depth: u8,
    case: usize,
) -> Result<(), Fail> {
    let got = inner_of(alloc, pieces)?;
    same(rt, &got, &(flow, depth), case);
    Ok(())
}

const SIX_FLOW: Flow = Flow::Two(Pair::V6 { src: 1, dst: 2 });

const KINDS: [(&[&[u8]], Flow, u8); 6] = [
    (&[&ETHERNET, &TCP], TCP_FLOW, 0),
    (&[&[]], Flow::Bare, 0),
    (&[&ETHERNET, &IP_IN_IP, &TCP], TCP_FLOW, 1),
    (&[&ETHERNET, &SIX_IN_IP, &SIX], SIX_FLOW, 1),
    (&[&ETHERNET, &IP_IN_IP, &SIX], OUTER, 0),
    // GRE over IPv6 with destination options, and a TCP packet in it.
    (
        &[
            &ETHERNET6,
            &SIX_WITH_OPTIONS,
            &[47, 0, 0, 0, 0, 0, 0, 0],
            &[0, 0, 8, 0],
            &TCP,
        ],
        TCP_FLOW,
        1,
    ),
];

#[test]
fn enters_each_kind_of_tunnel(rt: HostRuntime) -> Result<(), Fail> {
    for (i, &(pieces, flow, depth)) in KINDS.iter().enumerate() {
        is_found(&rt, rt.alloc(), pieces, flow, depth, i)?;
    }
    Ok(())
}

/// A header with its options, or with what stands between it and the packet, and whether the packet
/// is found.
const GRE_HEADERS: [(&[u8], bool); 12] = [
    (&[0, 0, 8, 0], true),
    (&[0x80, 0, 8, 0, 9, 9, 9, 9], true),
    (&[0x20, 0, 8, 0, 9, 9, 9, 9], true),
    (&[0x10, 0, 8, 0, 9, 9, 9, 9], true),
    (&[0xb0, 0, 8, 0, 9, 9, 9, 9, 9, 9, 9, 9, 9, 9, 9, 9], true),
    (&[0x0f, 0xf8, 8, 0], true),
    (&[0x80, 0, 8, 0], false),
    (&[0, 1, 8, 0], false),
    (&[0x40, 0, 8, 0], false),
    (&[0, 0, 0x86, 0xdd], false),
    (
        &[0, 0, 0x65, 0x58, 2, 0, 0, 0, 0, 2, 2, 0, 0, 0, 0, 1, 8, 0],
        true,
    ),
    (&[0, 0, 0x65, 0x58], false),
];

fn gre_is_read(
    rt: &impl Abort,
    alloc: Global,
    header: &[u8],
    is_entered: bool,
    case: usize,
) -> Result<(), Fail> {
    let (flow, depth) = if is_entered {
        (TCP_FLOW, 1)
    } else {
        (OUTER, 0)
    };
    is_found(
        rt,
        alloc,
        &[&ETHERNET, &GRE, header, &TCP],
        flow,
        depth,
        case,
    )
}

/// A header whose fields are cut.
const CUT_GRE: [&[u8]; 4] = [&ETHERNET, &GRE, &[0xb0, 0, 8, 0], &[9; 11]];

#[test]
fn reads_the_header_of_gre(rt: HostRuntime) -> Result<(), Fail> {
    for (i, &(header, is_entered)) in GRE_HEADERS.iter().enumerate() {
        gre_is_read(&rt, rt.alloc(), header, is_entered, i)?;
    }
    is_found(&rt, rt.alloc(), &CUT_GRE, OUTER, 0, 12)
}

/// Ports, a header with its flags, and the flow and the depth that are found.
const VXLANS: [([u8; 4], [u8; 12], Flow, u8); 4] = [
    (
        [4, 0, 0x12, 0xb5],
        [0, 0, 0, 0, 0x08, 0, 0, 0, 0, 0, 5, 0],
        TCP_FLOW,
        1,
    ),
    (
        [4, 0, 0x12, 0xb5],
        [0, 0, 0, 0, 0xff, 0, 0, 0, 0, 0, 5, 0],
        TCP_FLOW,
        1,
    ),
    (
        [4, 0, 0x12, 0xb5],
        [0, 0, 0, 0, 0xf7, 0, 0, 0, 0, 0, 5, 0],
        Flow::Four(OUTER_ENDS, Proto::Udp, 1024, 4789),
        0,
    ),
    (
        [4, 0, 0x12, 0xb6],
        [0, 0, 0, 0, 0x08, 0, 0, 0, 0, 0, 5, 0],
        Flow::Four(OUTER_ENDS, Proto::Udp, 1024, 4790),
        0,
    ),
];

#[test]
fn reads_the_header_of_vxlan(rt: HostRuntime) -> Result<(), Fail> {
    for (i, (ports, header, flow, depth)) in VXLANS.iter().enumerate() {
        let pieces = [&ETHERNET[..], &UDP_IN_IP, ports, header, &ETHERNET, &TCP];
        is_found(&rt, rt.alloc(), &pieces, *flow, *depth, i)?;
    }
    Ok(())
}

const FOUR_LEVELS: [&[u8]; 6] = [&ETHERNET, &IP_IN_IP, &IP_IN_IP, &IP_IN_IP, &IP_IN_IP, &TCP];

const FIVE_LEVELS: [&[u8]; 7] = [
    &ETHERNET, &IP_IN_IP, &IP_IN_IP, &IP_IN_IP, &IP_IN_IP, &IP_IN_IP, &TCP,
];

#[test]
fn enters_at_most_four_levels(rt: HostRuntime) -> Result<(), Fail> {
    is_found(&rt, rt.alloc(), &FOUR_LEVELS, TCP_FLOW, 4, 4)?;
    is_found(&rt, rt.alloc(), &FIVE_LEVELS, OUTER, 4, 5)
}

fn has_ends_and_network(rt: &impl Abort, tunnel: &[u8]) {
    assert!(rt; tunnel.len() == 88);
    same_items(
        rt,
        &tunnel[26..38],
        &[10, 0, 0, 1, 10, 0, 0, 2, 4, 0, 0x12, 0xb5],
    );
    same_items(rt, &tunnel[42..50], &[8, 0, 0, 0, 0, 0, 5, 0]);
}

/// A frame of 38 bytes.
const FRAME: [&[u8]; 2] = [&ETHERNET, &TCP];

fn tunneled(rt: &impl Abort, alloc: Global) -> Result<Vec<u8>, Fail> {
    let frame = joined(alloc, &FRAME)?;
    assert!(rt; frame.len() == 38);
    let mut tunnel = Vec::new(alloc);
    put_vxlan(&mut tunnel, 0x0a00_0001, 0x0a00_0002, 5, frame.as_slice())?;
    Ok(tunnel)
}

#[test]
fn puts_a_frame_into_a_vxlan(rt: HostRuntime) -> Result<(), Fail> {
    let tunnel = tunneled(&rt, rt.alloc())?;
    has_ends_and_network(&rt, &tunnel);
    is_found(&rt, rt.alloc(), &[tunnel.as_slice()], TCP_FLOW, 1, 0)?;
    a_tunnel_is_one_level_more();
    Ok(())
}

fn has_header_sum(rt: &impl Abort, tunnel: &[u8]) {
    assert!(rt; tunnel.len() == 74);
    let mut sum = 0u32;
    for i in 7..17usize {
        let high = u32::from(tunnel[2 * i]);
        let low = u32::from(tunnel[2 * i + 1]);
        sum = sum.wrapping_add(high * 256 + low);
    }
    same(rt, &(sum % 65_535), &0, 0);
}

#[test]
fn sums_up_the_header_that_it_puts(rt: HostRuntime) -> Result<(), Fail> {
    header_is_summed_up(&rt, rt.alloc(), 0)?;
    header_is_summed_up(&rt, rt.alloc(), 0x0a00_0001)?;
    header_is_summed_up(&rt, rt.alloc(), 0xffff_ffff)?;
    header_is_summed_up(&rt, rt.alloc(), 0xc0a8_0101)
}

// RFC 1071: the one's complement sum of a header with its checksum is all ones.
fn header_is_summed_up(rt: &impl Abort, alloc: Global, address: u32) -> Result<(), Fail> {
    let mut tunnel = Vec::new(alloc);
    put_vxlan(&mut tunnel, address, 0xffff_ffff, 0x00ff_ffff, &TCP)?;
    has_header_sum(rt, &tunnel);
    Ok(())
}
