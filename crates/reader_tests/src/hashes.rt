//! The vectors of Microsoft's verification suite for the RSS hash.
use crate::pieces::same;
use std::process::Abort;
use std::test::Fail;
use steer_base::{Flow, Pair, Proto};
use toeplitz::{Key, Kinds, TabledKey, verification_key};

const ALL: Kinds = Kinds(0b11_1111);

const ADDRESSES: Kinds = Kinds(0b00_1001);

/// A pair of IPv4 addresses by their bytes.
macro_rules! v4 {
    ([$a:expr, $b:expr, $c:expr, $d:expr], [$e:expr, $f:expr, $g:expr, $h:expr]) => {
        Pair::V4 {
            src: $a << 24 | $b << 16 | $c << 8 | $d,
            dst: $e << 24 | $f << 16 | $g << 8 | $h,
        }
    };
}

/// A pair of addresses, two ports, and the hash without and with the ports.
type Vector = (Pair, u16, u16, u32, u32);

const VECTORS: [Vector; 8] = [
    (
        v4!([66, 9, 149, 187], [161, 142, 100, 80]),
        2794,
        1766,
        0x323e8fc2,
        0x51ccc178,
    ),
    (
        v4!([199, 92, 111, 2], [65, 69, 140, 83]),
        14230,
        4739,
        0xd718262a,
        0xc626b0ea,
    ),
    (
        v4!([24, 19, 198, 95], [12, 22, 207, 184]),
        12898,
        38024,
        0xd2d0a5de,
        0x5c2b394a,
    ),
    (
        v4!([38, 27, 205, 30], [209, 142, 163, 6]),
        48228,
        2217,
        0x82989176,
        0xafc7327f,
    ),
    (
        v4!([153, 39, 163, 191], [202, 188, 127, 2]),
        44251,
        1303,
        0x5d1809c5,
        0x10e828a2,
    ),
    (
        Pair::V6 {
            src: 0x3ffe_2501_0200_1fff_0000_0000_0000_0007,
            dst: 0x3ffe_2501_0200_0003_0000_0000_0000_0001,
        },
        2794,
        1766,
        0x2cc18cd5,
        0x40207d3d,
    ),
    (
        Pair::V6 {
            src: 0x3ffe_0501_0008_0000_0260_97ff_fe40_efab,
            dst: 0xff02_0000_0000_0000_0000_0000_0000_0001,
        },
        14230,
        4739,
        0x0f0c461c,
        0xdde51bbf,
    ),
    (
        Pair::V6 {
            src: 0x3ffe_1900_4545_0003_0200_f8ff_fe21_67cf,
            dst: 0xfe80_0000_0000_0000_0200_f8ff_fe21_67cf,
        },
        44251,
        38024,
        0x4b61e985,
        0x02d1feef,
    ),
];

/// Asserts that the flow has this hash, by the key and by its table.
fn has_hash(
    rt: &impl Abort,
    key: &Key,
    tabled: &TabledKey,
    flow: Flow,
    kinds: Kinds,
    hash: Option<u32>,
) {
    same(rt, &(flow, key.hash(&flow, kinds)), &(flow, hash), 0);
    same(rt, &(flow, tabled.hash(&flow, kinds)), &(flow, hash), 1);
}

/// Asserts the hashes of a pair, alone and as the ends of a flow with ports.
fn has_hashes(rt: &impl Abort, key: &Key, tabled: &TabledKey, vector: &Vector) {
    let (pair, sport, dport, addresses, with_ports) = *vector;
    let (two, tcp) = (Flow::Two(pair), Flow::Four(pair, Proto::Tcp, sport, dport));
    let udp = Flow::Four(pair, Proto::Udp, sport, dport);
    has_hash(rt, key, tabled, two, ALL, Some(addresses));
    has_hash(rt, key, tabled, tcp, ADDRESSES, Some(addresses));
    has_hash(rt, key, tabled, tcp, ALL, Some(with_ports));
    has_hash(rt, key, tabled, udp, ALL, Some(with_ports));
}

#[test]
fn gives_the_published_hashes(rt: HostRuntime) -> Result<(), Fail> {
    let key = verification_key();
    let tabled = TabledKey::make(rt.alloc(), &key)?;
    for vector in &VECTORS {
        has_hashes(&rt, &key, &tabled, vector);
    }
    Ok(())
}

const FIRST: Pair = v4!([66, 9, 149, 187], [161, 142, 100, 80]);

const LONG: Pair = Pair::V6 { src: 1, dst: 2 };

const UNHASHED: [(Flow, u8); 8] = [
    (Flow::Bare, 0xff),
    (Flow::Two(FIRST), 0b11_1110),
    (Flow::Two(LONG), 0b11_0111),
    (Flow::Four(FIRST, Proto::Tcp, 1, 2), 0b11_1100),
    (Flow::Four(FIRST, Proto::Udp, 1, 2), 0b11_1010),
    (Flow::Four(LONG, Proto::Tcp, 1, 2), 0b10_0111),
    (Flow::Four(LONG, Proto::Udp, 1, 2), 0b01_0111),
    (Flow::Two(FIRST), 0b1100_0000),
];

#[test]
fn gives_no_hash_where_no_kind_is_on(rt: HostRuntime) -> Result<(), Fail> {
    let key = verification_key();
    let tabled = TabledKey::make(rt.alloc(), &key)?;
    for &(flow, kinds) in &UNHASHED {
        has_hash(&rt, &key, &tabled, flow, Kinds(kinds), None);
    }
    Ok(())
}
