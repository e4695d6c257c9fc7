//! The IP packet that an IP packet holds.
ghost use Rattle.std.specs.Prelude.{◌≡◌, ◌≤◌, length, IsTrue, IfSome};
ghost use Rattle.std.specs.Option.{option_map};
ghost use Rattle.flow_dissector.specs.Ethernet.{is_ip};
ghost use Rattle.flow_dissector.specs.Places.{packet_from};
ghost use Rattle.tunnel_dissector.specs.Levels.{held_by, held_in, entered};

use crate::gre::gre_held;
use crate::place::behind;
use crate::vxlan::vxlan_held;
use flow_dissector::{ETHERTYPE_IPV4, ETHERTYPE_IPV6, IpAt, dissect_ip, payload_of};
use steer_base::Flow;

/// The protocol number of IPv4 in IP.
const IPV4: u8 = 4;

/// The protocol number of UDP.
const UDP: u8 = 17;

/// The protocol number of IPv6 in IP.
const IPV6: u8 = 41;

/// The protocol number of generic routing encapsulation.
const GRE: u8 = 47;

/// Where the IP packet begins that a payload of this protocol holds.
#[tactic(auto, unfolding(crate::specs::Levels::held_by))]
fn held_by(proto: u8, payload: &[u8]) -> Option<IpAt>
    ensures packet { option_map (packet_from payload.now) result
        ≡ held_by (record { kind = proto; bytes = payload.now }) }
    ensures within { IfSome result (λ at. at.start ≤ length payload.now) }
    ensures kind { IfSome result (λ at. IsTrue (is_ip at.kind)) }
{
    match proto {
        IPV4 => Some(IpAt {
            kind: ETHERTYPE_IPV4,
            start: 0,
        }),
        IPV6 => Some(IpAt {
            kind: ETHERTYPE_IPV6,
            start: 0,
        }),
        GRE => gre_held(payload),
        UDP => vxlan_held(payload),
        _ => None,
    }
}

/// Where the IP packet begins that the payload of an IP packet holds.
#[tactic(auto, unfolding(crate::specs::Levels::held_in))]
fn held_in(packet: &[u8], kind: u16) -> Option<IpAt>
    ensures packet { option_map (packet_from packet.now) result ≡ held_in kind packet.now }
    ensures within { IfSome result (λ at. at.start ≤ length packet.now) }
    ensures kind { IfSome result (λ at. IsTrue (is_ip at.kind)) }
{
    let payload = payload_of(packet, kind)?;
    let held = held_by(payload.proto, &packet[payload.start..]);
    behind(packet, payload.start, held)
}

/// Finds the next level of a tunnel: the IP packet that the payload of an IP packet holds. `kind`
/// is the EtherType of `packet`, and the result counts from its front. `None` if the payload is of
/// no tunnel protocol that is entered, or what it holds has no complete IP header.
#[tactic(auto, unfolding(crate::specs::Levels::entered))]
pub fn entered(packet: &[u8], kind: u16) -> Option<IpAt>
    ensures packet { option_map (packet_from packet.now) result ≡ entered kind packet.now }
    ensures within { IfSome result (λ at. at.start ≤ length packet.now) }
    ensures kind { IfSome result (λ at. IsTrue (is_ip at.kind)) }
{
    let at = held_in(packet, kind)?;
    match dissect_ip(&packet[at.start..], at.kind) {
        Flow::Bare => None,
        _ => Some(at),
    }
}
