//! Frames with their flows, worked out by hand from the layouts of the headers.
use crate::pieces::{SEGMENT, same};
use flow_dissector::{
    ETHERTYPE_IPV4, ETHERTYPE_IPV6, IpAt, Payload, dissect, dissect_ip, ip_of, payload_of,
};
use std::process::Abort;
use steer_base::{Flow, Pair, Proto};

// The ends of the segment.
const SEGMENT_PAIR: Pair = Pair::V4 {
    src: 0x420995bb,
    dst: 0xa18e6450,
};

const SEGMENT_FLOW: Flow = Flow::Four(SEGMENT_PAIR, Proto::Tcp, 2794, 1766);

// A SYN between the same ends, as an operating system writes it: with an identification, "do not
// fragment", checksums, and 20 bytes of options (segment size, selective acknowledgement,
// timestamps, scale).
const SYN: [u8; 74] = [
    0x02, 0, 0, 0, 0, 0x02, 0x02, 0, 0, 0, 0, 0x01, 0x08, 0x00, //
    0x45, 0, 0, 0x3c, 0x1c, 0x46, 0x40, 0, 0x40, 6, 0x40, 0xd3, //
    0x42, 0x09, 0x95, 0xbb, 0xa1, 0x8e, 0x64, 0x50, //
    0x0a, 0xea, 0x06, 0xe6, 0x5e, 0x2a, 0x11, 0x90, 0, 0, 0, 0, 0xa0, 0x02, 0xfa, 0xf0, 0x5d, 0xc2,
    0, 0, //
    0x02, 0x04, 0x05, 0xb4, 0x04, 0x02, 0x08, 0x0a, 0x3b, 0x1d, 0x55, 0x02, 0, 0, 0, 0, 0x01, 0x03,
    0x03, 0x07,
];

// The second IPv6 vector as TCP behind two tags: 3ffe:501:8::260:97ff:fe40:efab port 14230 to
// ff02::1 port 4739.
const TCP6: [u8; 82] = [
    0x02, 0, 0, 0, 0, 0x02, 0x02, 0, 0, 0, 0, 0x01, //
    0x88, 0xa8, 0x00, 0x01, 0x81, 0x00, 0x00, 0x02, 0x86, 0xdd, // a service tag, a VLAN tag, IPv6
    0x60, 0, 0, 0, 0, 0x14, 6, 0x40, //
    0x3f, 0xfe, 0x05, 0x01, 0x00, 0x08, 0, 0, 0x02, 0x60, 0x97, 0xff, 0xfe, 0x40, 0xef, 0xab, //
    0xff, 0x02, 0, 0, 0, 0, 0, 0, 0, 0, 0, 0, 0, 0, 0, 0x01, //
    0x37, 0x96, 0x12, 0x83, 0, 0, 0, 0, 0, 0, 0, 0, 0x50, 0, 0, 0, 0, 0, 0, 0, //
];

const TCP6_PAIR: Pair = Pair::V6 {
    src: 0x3ffe0501000800000260_97fffe40efab,
    dst: 0xff020000000000000000_000000000001,
};

// 10.0.0.1:5 to 10.0.0.2:6 over TCP, behind one tag and with four bytes of IP options: the tag
// ends at 18, the IP header at 42 and the ports at 46.
const TAGGED: [u8; 50] = [
    0x02, 0, 0, 0, 0, 0x02, 0x02, 0, 0, 0, 0, 0x01, 0x81, 0x00, 0x00, 0x07, 0x08, 0x00, //
    0x46, 0, 0, 0x20, 0, 0, 0, 0, 0x40, 6, 0, 0, //
    10, 0, 0, 1, 10, 0, 0, 2, 1, 1, 1, 0, // addresses, options
    0, 5, 0, 6, 0, 0, 0, 0,
];

// fe80::1 port 53 to fe80::2 port 54 over UDP, behind hop-by-hop options of 8 bytes and a
// routing header of 16: the IPv6 header ends at 54, the extensions at 62 and at 78, and the ports
// at 82.
const EXTENDED: [u8; 86] = [
    0x02, 0, 0, 0, 0, 0x02, 0x02, 0, 0, 0, 0, 0x01, 0x86, 0xdd, //
    0x60, 0, 0, 0, 0, 0x20, 0, 0x40, //
    0xfe, 0x80, 0, 0, 0, 0, 0, 0, 0, 0, 0, 0, 0, 0, 0, 0x01, //
    0xfe, 0x80, 0, 0, 0, 0, 0, 0, 0, 0, 0, 0, 0, 0, 0, 0x02, //
    43, 0, 1, 4, 0, 0, 0, 0, // a routing header follows
    17, 1, 0, 0, 0, 0, 0, 0, 0, 0, 0, 0, 0, 0, 0, 0, // UDP follows
    0, 53, 0, 54, 0, 8, 0, 0,
];

// An ARP frame, padded to the least length.
const ARP: [u8; 60] = [
    0x02, 0, 0, 0, 0, 0x02, 0x02, 0, 0, 0, 0, 0x01, 0x08, 0x06, 0, 0, 0, 0, 0, 0, //
    0, 0, 0, 0, 0, 0, 0, 0, 0, 0, 0, 0, 0, 0, 0, 0, 0, 0, 0, 0, //
    0, 0, 0, 0, 0, 0, 0, 0, 0, 0, 0, 0, 0, 0, 0, 0, 0, 0, 0, 0,
];

// The packet of `SEGMENT` behind three tags.
const THREE_TAGS: [u8; 66] = [
    0x02, 0, 0, 0, 0, 0x02, 0x02, 0, 0, 0, 0, 0x01, //
    0x88, 0xa8, 0, 1, 0x81, 0x00, 0, 2, 0x81, 0x00, 0, 3, 0x08, 0x00, //
    0x45, 0, 0, 0x28, 0, 0, 0, 0, 0x40, 6, 0, 0, //
    0x42, 0x09, 0x95, 0xbb, 0xa1, 0x8e, 0x64, 0x50, //
    0x0a, 0xea, 0x06, 0xe6, 0, 0, 0, 0, 0, 0, 0, 0, 0x50, 0, 0, 0, 0, 0, 0, 0,
];

fn has_flow(rt: &impl Abort, frame: &[u8], flow: Flow, case: usize) {
    same(rt, &dissect(frame), &flow, case);
}

/// Asserts the flow of a frame, and where its packet is.
fn is_read(rt: &impl Abort, frame: &[u8], flow: Flow, at: Option<IpAt>) {
    same(rt, &dissect(frame), &flow, frame.len());
    same(rt, &ip_of(frame), &at, frame.len());
}

fn has_payload(rt: &impl Abort, packet: &[u8], kind: u16, payload: Option<Payload>) {
    same(rt, &payload_of(packet, kind), &payload, packet.len());
}

const WHOLE: [(&[u8], Flow); 7] = [
    (&SEGMENT, SEGMENT_FLOW),
    (&SYN, SEGMENT_FLOW),
    (&TCP6, Flow::Four(TCP6_PAIR, Proto::Tcp, 14230, 4739)),
    (&ARP, Flow::Bare),
    (&THREE_TAGS, Flow::Bare),
    (&[], Flow::Bare),
    (&[0; 14], Flow::Bare),
];

#[test]
fn whole_frames(rt: HostRuntime) {
    for (i, (frame, flow)) in WHOLE.iter().enumerate() {
        has_flow(&rt, frame, *flow, i);
    }
}

// `SEGMENT` with one byte changed.
fn changed(at: usize, byte: u8) -> [u8; 54] {
    let mut frame = SEGMENT;
    if at < frame.len() {
        frame[at] = byte;
    }
    frame
}

const SEGMENT_ENDS: Flow = Flow::Two(SEGMENT_PAIR);

const BYTES: [(usize, u8, Flow); 15] = [
    (12, 0x86, Flow::Bare),
    (14, 0x44, Flow::Bare), // four words of header
    (14, 0x46, Flow::Four(SEGMENT_PAIR, Proto::Tcp, 0, 0)), // six words: ports come later
    (14, 0x4f, Flow::Bare), // fifteen words, of which ten are there
    (14, 0x55, Flow::Bare),
    (14, 0x65, Flow::Bare),
    (20, 0x20, SEGMENT_ENDS), // more fragments
    (20, 0x1f, SEGMENT_ENDS), // an offset's high bits
    (21, 0x01, SEGMENT_ENDS), // its lowest bit
    (21, 0xb9, SEGMENT_ENDS),
    (20, 0x40, SEGMENT_FLOW), // do not fragment
    (20, 0x80, SEGMENT_FLOW), // the bit that is reserved
    (23, 1, SEGMENT_ENDS),
    (23, 17, Flow::Four(SEGMENT_PAIR, Proto::Udp, 2794, 1766)),
    (23, 47, SEGMENT_ENDS),
];

#[test]
fn one_byte_of_the_ipv4_header(rt: HostRuntime) {
    for (i, &(at, byte, flow)) in BYTES.iter().enumerate() {
        has_flow(&rt, &changed(at, byte), flow, i);
    }
}

// `SEGMENT` with other addresses and ports.
fn between(ends: [u8; 12]) -> [u8; 54] {
    let mut frame = SEGMENT;
    frame[26..38].copy_from_slice(&ends);
    frame
}

// The other IPv4 vectors of the Toeplitz hash: bytes, and the numbers that they are.
const ENDS: [([u8; 12], (u32, u32, u16, u16)); 4] = [
    (
        [199, 92, 111, 2, 65, 69, 140, 83, 0x37, 0x96, 0x12, 0x83],
        (0xc75c6f02, 0x41458c53, 14230, 4739),
    ),
    (
        [24, 19, 198, 95, 12, 22, 207, 184, 0x32, 0x62, 0x94, 0x88],
        (0x1813c65f, 0x0c16cfb8, 12898, 38024),
    ),
    (
        [38, 27, 205, 30, 209, 142, 163, 6, 0xbc, 0x64, 0x08, 0xa9],
        (0x261bcd1e, 0xd18ea306, 48228, 2217),
    ),
    (
        [153, 39, 163, 191, 202, 188, 127, 2, 0xac, 0xdb, 0x05, 0x17],
        (0x9927a3bf, 0xcabc7f02, 44251, 1303),
    ),
];

#[test]
fn other_ends(rt: HostRuntime) {
    for &(ends, (src, dst, sport, dport)) in &ENDS {
        let flow = Flow::Four(Pair::V4 { src, dst }, Proto::Tcp, sport, dport);
        has_flow(&rt, &between(ends), flow, 0);
    }
}

const TAGGED_PAIR: Pair = Pair::V4 {
    src: 0x0a000001,
    dst: 0x0a000002,
};

const EXTENDED_PAIR: Pair = Pair::V6 {
    src: 0xfe80_0000_0000_0000_0000_0000_0000_0001,
    dst: 0xfe80_0000_0000_0000_0000_0000_0000_0002,
};

// What the first bytes of a frame are read as: the least length from which there is an IP header
// and from which there are ports, the flow without and with ports, and the length from which it is
// seen where the packet is.
#[derive(Clone, Copy)]
struct Growing {
    header: usize,
    ports: usize,
    two: Flow,
    four: Flow,
    at: IpAt,
}

impl Growing {
    fn flow(&self, len: usize) -> Flow {
        if len < self.header {
            Flow::Bare
        } else if len < self.ports {
            self.two
        } else {
            self.four
        }
    }

    fn at(&self, len: usize) -> Option<IpAt> {
        if len < self.at.start {
            None
        } else {
            Some(self.at)
        }
    }
}

// Asserts that each length of a frame is read as is wanted.
fn grows(rt: &impl Abort, frame: &[u8], wanted: &Growing) {
    for n in 0..=frame.len() {
        let (front, _) = frame.split_at(n);
        is_read(rt, front, wanted.flow(n), wanted.at(n));
    }
}

#[test]
fn every_length_of_a_tagged_frame(rt: HostRuntime) {
    let wanted = Growing {
        header: 42,
        ports: 46,
        two: Flow::Two(TAGGED_PAIR),
        four: Flow::Four(TAGGED_PAIR, Proto::Tcp, 5, 6),
        at: IpAt {
            kind: 0x0800,
            start: 18,
        },
    };
    grows(&rt, &TAGGED, &wanted);
}

#[test]
fn every_length_of_an_extended_frame(rt: HostRuntime) {
    let wanted = Growing {
        header: 54,
        ports: 82,
        two: Flow::Two(EXTENDED_PAIR),
        four: Flow::Four(EXTENDED_PAIR, Proto::Udp, 53, 54),
        at: IpAt {
            kind: 0x86dd,
            start: 14,
        },
    };
    grows(&rt, &EXTENDED, &wanted);
}

// Asserts that a packet of one kind has this payload once its bytes reach it, and that as one of
// the other kind it has none.
fn packet_grows(rt: &impl Abort, packet: &[u8], kind: u16, other: u16, payload: Payload) {
    for n in 0..=packet.len() {
        let (front, _) = packet.split_at(n);
        let reached = if n < payload.start {
            None
        } else {
            Some(payload)
        };
        has_payload(rt, front, kind, reached);
        has_payload(rt, front, other, None);
    }
}

// The same two packets from their IP header on.
#[test]
fn every_length_of_a_packet(rt: HostRuntime) {
    let (_, ipv4) = TAGGED.split_at(18);
    let tcp = Payload {
        proto: 6,
        start: 24,
    };
    packet_grows(&rt, ipv4, ETHERTYPE_IPV4, ETHERTYPE_IPV6, tcp);
    let (_, ipv6) = EXTENDED.split_at(14);
    let udp = Payload {
        proto: 17,
        start: 64,
    };
    packet_grows(&rt, ipv6, ETHERTYPE_IPV6, ETHERTYPE_IPV4, udp);
}

// An IPv6 packet with zero addresses: at most nine empty hop-by-hop options, of which the last
// names what follows it, and then ports.
fn with_extensions(count: usize, follows: u8) -> [u8; 116] {
    let mut packet = [0; 116];
    let start = 40 + 8 * count.min(9);
    packet[0] = 0x60;
    packet[if count == 0 { 6 } else { start - 8 }] = follows;
    packet[start + 1] = 7;
    packet[start + 3] = 8;
    packet
}

fn has_extensions(
    rt: &impl Abort,
    packet: &[u8],
    flow: Flow,
    payload: Option<Payload>,
    count: usize,
) {
    same(rt, &dissect_ip(packet, ETHERTYPE_IPV6), &flow, count);
    has_payload(rt, packet, ETHERTYPE_IPV6, payload);
}

const NO_PAIR: Pair = Pair::V6 { src: 0, dst: 0 };

// How many extensions, what follows them, the flow, and the payload.
const EXTENSIONS: [(usize, u8, Flow, Option<Payload>); 7] = [
    (
        8,
        6,
        Flow::Four(NO_PAIR, Proto::Tcp, 7, 8),
        Some(Payload {
            proto: 6,
            start: 104,
        }),
    ),
    (9, 6, Flow::Two(NO_PAIR), None),
    (0, 44, Flow::Two(NO_PAIR), None),
    (1, 44, Flow::Two(NO_PAIR), None),
    (8, 44, Flow::Two(NO_PAIR), None),
    (
        0,
        59,
        Flow::Two(NO_PAIR),
        Some(Payload {
            proto: 59,
            start: 40,
        }),
    ),
    (
        8,
        41,
        Flow::Two(NO_PAIR),
        Some(Payload {
            proto: 41,
            start: 104,
        }),
    ),
];

#[test]
fn extensions(rt: HostRuntime) {
    for &(count, follows, flow, payload) in &EXTENSIONS {
        let packet = with_extensions(count, follows);
        has_extensions(&rt, &packet, flow, payload, count);
    }
}

#[test]
fn payloads(rt: HostRuntime) {
    let (_, whole) = SEGMENT.split_at(14);
    let changed = changed(21, 0xb9);
    let (_, fragment) = changed.split_at(14);
    let tcp = Payload {
        proto: 6,
        start: 20,
    };
    has_payload(&rt, whole, 0x0800, Some(tcp));
    has_payload(&rt, fragment, 0x0800, None);
    has_payload(&rt, whole, 0x86dd, None);
    has_payload(&rt, whole, 0x0806, None);
    same(
        &rt,
        &dissect_ip(fragment, ETHERTYPE_IPV4),
        &Flow::Two(SEGMENT_PAIR),
        0,
    );
}
