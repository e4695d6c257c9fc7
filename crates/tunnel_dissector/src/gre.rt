//! Generic routing encapsulation (RFC 2784, RFC 2890).
ghost use Rattle.std.specs.Prelude.{◌≡◌, ◌≤◌, length, IsTrue, IfSome};
ghost use Rattle.std.specs.Option.{option_map};
ghost use Rattle.flow_dissector.specs.Ethernet.{is_ip};
ghost use Rattle.flow_dissector.specs.Places.{packet_from};
ghost use Rattle.tunnel_dissector.specs.Gre.{is_gre, gre_header_len, typed, gre_held};

use crate::place::behind;
use byteorder::{BigEndian, ByteOrder};
use flow_dissector::{ETHERTYPE_IPV4, ETHERTYPE_IPV6, IpAt, ip_of};

/// The type of a bridged Ethernet frame.
const ETHERTYPE_BRIDGED: u16 = 0x6558;

/// The bytes of a header without options: flags, version and type.
const MIN_HEADER: usize = 4;

/// How many bytes the header says that it has: each of three flags, for a checksum, a key and a
/// sequence number, adds 4.
fn header_len(bytes: &[u8]) -> usize
    requires { 1 ≤ length bytes.now }
    ensures { result ≡ gre_header_len bytes.now }
{
    let flags = bytes[0];
    let options = flags / 128 % 2 + flags / 32 % 2 + flags / 16 % 2;
    MIN_HEADER + 4 * usize::from(options)
}

/// Whether bytes begin with a whole header of version 0 and without routing.
#[tactic(auto, unfolding(crate::specs::Gre::is_gre))]
fn is_gre(bytes: &[u8]) -> bool
    ensures { result ≡ is_gre bytes.now }
{
    bytes.len() >= MIN_HEADER
        && bytes[1] % 8 == 0
        && bytes[0] / 64 % 2 == 0
        && header_len(bytes) <= bytes.len()
}

/// Where the IP packet begins in bytes of this type: an IP packet itself, or an Ethernet frame.
#[tactic(auto, unfolding(crate::specs::Gre::typed))]
fn typed(kind: u16, bytes: &[u8]) -> Option<IpAt>
    ensures packet { option_map (packet_from bytes.now) result ≡ typed kind bytes.now }
    ensures within { IfSome result (λ at. at.start ≤ length bytes.now) }
    ensures kind { IfSome result (λ at. IsTrue (is_ip at.kind)) }
{
    match kind {
        ETHERTYPE_IPV4 | ETHERTYPE_IPV6 => Some(IpAt { kind, start: 0 }),
        ETHERTYPE_BRIDGED => ip_of(bytes),
        _ => None,
    }
}

/// Finds the IP packet that a GRE header encapsulates (RFC 2784, with the key and the sequence
/// number of RFC 2890), either directly or in a bridged Ethernet frame (EtherType 0x6558). `bytes`
/// is the payload of an IP packet, and the result counts from its front. `None` if the header is
/// incomplete, has a version other than 0 or the routing flag, or encapsulates anything else. The
/// checksum is not verified.
#[tactic(auto, unfolding(crate::specs::Gre::is_gre, crate::specs::Gre::gre_held))]
pub fn gre_held(bytes: &[u8]) -> Option<IpAt>
    ensures packet { option_map (packet_from bytes.now) result ≡ gre_held bytes.now }
    ensures within { IfSome result (λ at. at.start ≤ length bytes.now) }
    ensures kind { IfSome result (λ at. IsTrue (is_ip at.kind)) }
{
    if !is_gre(bytes) {
        return None;
    }
    let len = header_len(bytes);
    let kind = BigEndian::read_u16(&bytes[2..]);
    behind(bytes, len, typed(kind, &bytes[len..]))
}
