//! An IPv6 packet (RFC 8200), over at most eight extension headers.
ghost use Rattle.std.specs.Prelude.{◌≡◌, ◌+◌, ◌≤◌, length, drop, slice_index, IsTrue, IfSome};
ghost use Rattle.std.specs.Option.{option_map};
ghost use Rattle.flow_dissector.specs.Ipv6.{is_ipv6, ipv6_address, is_extension, after_extensions};
ghost use Rattle.flow_dissector.specs.Ipv6.{ipv6_payload, ipv6_flow};
ghost use Rattle.flow_dissector.specs.Places.{payload_from};

use crate::payload::Payload;
use crate::ports::flow_between;
use byteorder::{BigEndian, ByteOrder};
use steer_base::{Flow, Pair};

/// How many bytes the fixed header has.
const HEADER: usize = 40;

/// The most extension headers that are skipped.
const MAX_EXTENSIONS: usize = 8;

/// The number of a hop-by-hop options header.
const HOP_BY_HOP: u8 = 0;

/// The number of a routing header.
const ROUTING: u8 = 43;

/// The number of a fragment header.
const FRAGMENT: u8 = 44;

/// The number of a destination options header.
const DESTINATION_OPTIONS: u8 = 60;

#[tactic(auto, unfolding(crate::specs::Ipv6::is_ipv6))]
pub fn is_ipv6(packet: &[u8]) -> bool
    ensures { result ≡ is_ipv6 packet.now }
{
    packet.len() >= HEADER && packet[0] / 16 == 6
}

// Whether a header with this number is walked.
fn is_extension(next: u8) -> bool
    ensures { result ≡ is_extension next }
{
    next == HOP_BY_HOP || next == ROUTING || next == DESTINATION_OPTIONS
}

// What the extensions behind the fixed header carry.
fn after_extensions(packet: &[u8]) -> Option<Payload>
    requires { 40 ≤ length packet.now }
    ensures payload { option_map (payload_from packet.now) result
        ≡ after_extensions 8 (slice_index packet.now 6) (drop 40 packet.now) }
    ensures within { IfSome result (λ at. at.start ≤ length packet.now) }
{
    let mut next = packet[6];
    let mut start = HEADER;
    let mut left = MAX_EXTENSIONS;
    while is_extension(next) {
        let (_, rest) = packet.split_at(start);
        if left == 0 || rest.len() < 2 {
            return None;
        }
        let extra = usize::from(rest[1]);
        let len = (extra + 1) * 8;
        if rest.len() < len {
            return None;
        }
        next = rest[0];
        start += len;
        left -= 1;
    }
    Some(Payload { proto: next, start })
}

#[tactic(auto, unfolding(crate::specs::Ipv6::is_ipv6, crate::specs::Ipv6::ipv6_payload))]
pub fn ipv6_payload(packet: &[u8]) -> Option<Payload>
    requires { IsTrue (is_ipv6 packet.now) }
    ensures payload { option_map (payload_from packet.now) result ≡ ipv6_payload packet.now }
    ensures within { IfSome result (λ at. at.start ≤ length packet.now) }
{
    match after_extensions(packet) {
        Some(payload) if payload.proto != FRAGMENT => Some(payload),
        _ => None,
    }
}

#[tactic(auto, unfolding(crate::specs::Ipv6::ipv6_address))]
fn address(packet: &[u8], at: usize) -> u128
    requires { at + 16 ≤ length packet.now }
    ensures { result ≡ ipv6_address (drop at packet.now) }
{
    let (_, bytes) = packet.split_at(at);
    BigEndian::read_u128(bytes)
}

#[tactic(auto, unfolding(crate::specs::Ipv6::is_ipv6, crate::specs::Ipv6::ipv6_flow))]
pub fn ipv6_flow(packet: &[u8]) -> Flow
    ensures { result ≡ ipv6_flow packet.now }
{
    if !is_ipv6(packet) {
        return Flow::Bare;
    }
    let src = address(packet, 8);
    let dst = address(packet, 24);
    flow_between(Pair::V6 { src, dst }, packet, ipv6_payload(packet))
}
