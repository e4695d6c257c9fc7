//! The flow of a frame and of an IP packet, and the payload of an IP packet.
ghost use Rattle.std.specs.Prelude.{◌≡◌, ◌≤◌, length, IsTrue, IfSome};
ghost use Rattle.std.specs.Option.{option_map};
ghost use Rattle.flow_dissector.specs.Ethernet.{is_ip};
ghost use Rattle.flow_dissector.specs.Frame.{payload_in, ip_flow, carried_flow, flow_of};
ghost use Rattle.flow_dissector.specs.Places.{ip_at, packet_from, payload_at, payload_from};

use crate::ethernet::{ETHERTYPE_IPV4, ETHERTYPE_IPV6, ip_of};
use crate::ipv4::{ipv4_flow, ipv4_payload, is_ipv4};
use crate::ipv6::{ipv6_flow, ipv6_payload, is_ipv6};
use crate::payload::Payload;
use steer_base::Flow;

/// The flow of an Ethernet frame (IEEE 802.1Q, RFC 791, RFC 8200): `Bare` where it carries no whole
/// IP header, `Two` for a fragment and for what has no ports, else `Four`. Total lengths, payload
/// lengths and checksums are not looked at.
#[tactic(auto, unfolding(crate::specs::Frame::flow_of))]
pub fn dissect(frame: &[u8]) -> Flow
    ensures flow { result ≡ flow_of frame.now }
    ensures from_place { result
        ≡ carried_flow (option_map (packet_from frame.now) (ip_at frame.now)) }
{
    match ip_of(frame) {
        None => Flow::Bare,
        Some(at) => dissect_ip(&frame[at.start..], at.kind),
    }
}

/// The flow of an IP packet, where `kind` is `ETHERTYPE_IPV4` or `ETHERTYPE_IPV6`.
#[tactic(auto, unfolding(crate::specs::Frame::ip_flow))]
pub fn dissect_ip(packet: &[u8], kind: u16) -> Flow
    requires { IsTrue (is_ip kind) }
    ensures { result ≡ ip_flow kind packet.now }
{
    if kind == ETHERTYPE_IPV4 {
        ipv4_flow(packet)
    } else {
        ipv6_flow(packet)
    }
}

/// Where the payload of an IP packet begins, and its protocol, where `kind` is `ETHERTYPE_IPV4` or
/// `ETHERTYPE_IPV6`. `None` where the headers are not whole, for a fragment, where more than eight
/// IPv6 extensions stand before it, and for every other kind.
#[tactic(auto, unfolding(crate::specs::Frame::payload_in))]
pub fn payload_of(packet: &[u8], kind: u16) -> Option<Payload>
    ensures at { result ≡ payload_at kind packet.now }
    ensures payload { option_map (payload_from packet.now) result ≡ payload_in kind packet.now }
    ensures within { IfSome result (λ at. at.start ≤ length packet.now) }
{
    if kind == ETHERTYPE_IPV4 && is_ipv4(packet) {
        ipv4_payload(packet)
    } else if kind == ETHERTYPE_IPV6 && is_ipv6(packet) {
        ipv6_payload(packet)
    } else {
        None
    }
}
