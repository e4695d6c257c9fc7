//! An IPv4 packet (RFC 791).
ghost use Rattle.std.specs.Prelude.{◌≡◌, ◌≤◌, length, IsTrue, IfSome};
ghost use Rattle.std.specs.Option.{option_map};
ghost use Rattle.flow_dissector.specs.Ipv4.{is_ipv4, ipv4_header_len, ipv4_payload, ipv4_flow};
ghost use Rattle.flow_dissector.specs.Places.{payload_from};

use crate::payload::Payload;
use crate::ports::flow_between;
use byteorder::{BigEndian, ByteOrder};
use steer_base::{Flow, Pair};

/// The bit of a packet that may not be cut. Below it stand the bit that says that more fragments
/// follow, and the offset of a fragment.
const DONT_FRAGMENT: u16 = 0x4000;

/// How many bytes a header has at the least.
const MIN_HEADER: usize = 20;

/// The bytes of a word, the unit in which a header tells its length.
const WORD: usize = 4;

// How many bytes the header says that it has.
fn header_len(packet: &[u8]) -> usize
    requires { 1 ≤ length packet.now }
    ensures { result ≡ ipv4_header_len packet.now }
{
    WORD * usize::from(packet[0] % 16)
}

#[tactic(auto, unfolding(crate::specs::Ipv4::is_ipv4))]
pub fn is_ipv4(packet: &[u8]) -> bool
    ensures { result ≡ is_ipv4 packet.now }
{
    packet.len() >= MIN_HEADER
        && packet[0] / 16 == 4
        && header_len(packet) >= MIN_HEADER
        && header_len(packet) <= packet.len()
}

#[tactic(auto, unfolding(crate::specs::Ipv4::is_ipv4, crate::specs::Ipv4::ipv4_payload))]
pub fn ipv4_payload(packet: &[u8]) -> Option<Payload>
    requires { IsTrue (is_ipv4 packet.now) }
    ensures payload { option_map (payload_from packet.now) result ≡ ipv4_payload packet.now }
    ensures within { IfSome result (λ at. at.start ≤ length packet.now) }
{
    if BigEndian::read_u16(&packet[6..]) % DONT_FRAGMENT != 0 {
        return None;
    }
    Some(Payload {
        proto: packet[9],
        start: header_len(packet),
    })
}

#[tactic(auto, unfolding(crate::specs::Ipv4::is_ipv4, crate::specs::Ipv4::ipv4_flow))]
pub fn ipv4_flow(packet: &[u8]) -> Flow
    ensures { result ≡ ipv4_flow packet.now }
{
    if !is_ipv4(packet) {
        return Flow::Bare;
    }
    let src = BigEndian::read_u32(&packet[12..]);
    let dst = BigEndian::read_u32(&packet[16..]);
    flow_between(Pair::V4 { src, dst }, packet, ipv4_payload(packet))
}
