//! Virtual extensible LANs (RFC 7348).
ghost use Rattle.std.specs.Prelude.{◌≡◌, ◌≤◌, length, IsTrue, IfSome};
ghost use Rattle.std.specs.Option.{option_map};
ghost use Rattle.flow_dissector.specs.Ethernet.{is_ip};
ghost use Rattle.flow_dissector.specs.Places.{packet_from};
ghost use Rattle.tunnel_dissector.specs.Vxlan.{is_vxlan, vxlan_held};

use crate::place::behind;
use byteorder::{BigEndian, ByteOrder};
use flow_dissector::{IpAt, ip_of};

/// The UDP port to which VXLAN segments are sent.
const PORT: u16 = 4789;

/// The number of bytes of a UDP header.
const UDP_HEADER: usize = 8;

/// The number of bytes of a VXLAN header.
const VXLAN_HEADER: usize = 8;

/// Whether a UDP segment begins with whole headers, is sent to the port of VXLAN, and has the flag
/// of a valid network identifier.
#[tactic(auto, unfolding(crate::specs::Vxlan::is_vxlan))]
fn is_vxlan(segment: &[u8]) -> bool
    ensures { result ≡ is_vxlan segment.now }
{
    segment.len() >= UDP_HEADER + VXLAN_HEADER
        && BigEndian::read_u16(&segment[2..]) == PORT
        && segment[UDP_HEADER] / 8 % 2 == 1
}

/// Finds the IP packet in the Ethernet frame that a UDP segment carries for a VXLAN (RFC 7348). The
/// result counts from the front of `segment`, which is the payload of an IP packet. `None` if the
/// UDP or the VXLAN header is incomplete, the destination port is not 4789, the flag of a valid
/// network identifier is not set, or the frame has no IP packet. The identifier is not looked at.
#[tactic(auto, unfolding(crate::specs::Vxlan::is_vxlan, crate::specs::Vxlan::vxlan_held))]
pub fn vxlan_held(segment: &[u8]) -> Option<IpAt>
    ensures packet { option_map (packet_from segment.now) result ≡ vxlan_held segment.now }
    ensures within { IfSome result (λ at. at.start ≤ length segment.now) }
    ensures kind { IfSome result (λ at. IsTrue (is_ip at.kind)) }
{
    if !is_vxlan(segment) {
        return None;
    }
    let len = UDP_HEADER + VXLAN_HEADER;
    behind(segment, len, ip_of(&segment[len..]))
}
