//! From a frame to the IP packet in it, over at most two VLAN tags.
ghost use Rattle.std.specs.Prelude.{◌≡◌, ◌≤◌, length, drop, IfSome, IsTrue};
ghost use Rattle.std.specs.Option.{option_map};
ghost use Rattle.byteorder.specs.Endian.{big_number};
ghost use Rattle.flow_dissector.specs.Ethernet.{is_tag, is_ip, after_tags, packet_in};
ghost use Rattle.flow_dissector.specs.Places.{ip_at, packet_from};

use byteorder::{BigEndian, ByteOrder};

/// The type of a frame that carries IPv4.
pub const ETHERTYPE_IPV4: u16 = 0x0800;
/// The type of a frame that carries IPv6.
pub const ETHERTYPE_IPV6: u16 = 0x86dd;
/// The type of a VLAN tag (IEEE 802.1Q).
const ETHERTYPE_VLAN: u16 = 0x8100;
/// The type of a service tag, which stands before a VLAN tag (IEEE 802.1ad).
const ETHERTYPE_SERVICE: u16 = 0x88a8;

/// How many bytes a frame has before what it carries.
const ADDRESSES_AND_TYPE: usize = 14;

/// The most VLAN tags that are skipped.
const MAX_TAGS: usize = 2;

/// The bytes of a tag: its value, and the type of what it carries.
const TAG: usize = 4;

/// Where the IP packet of a frame begins.
#[derive(Clone, Copy, Debug, PartialEq, Eq)]
pub struct IpAt {
    /// `ETHERTYPE_IPV4` or `ETHERTYPE_IPV6`.
    pub kind: u16,
    /// The offset of the packet in the frame.
    pub start: usize,
}

fn is_tag(kind: u16) -> bool
    ensures { result ≡ is_tag kind }
{
    kind == ETHERTYPE_VLAN || kind == ETHERTYPE_SERVICE
}

// What at most two tags carry, whatever it is.
fn after_tags(frame: &[u8]) -> Option<IpAt>
    requires { 14 ≤ length frame.now }
    ensures packet { option_map (packet_from frame.now) result
        ≡ after_tags 2 (big_number 2 (drop 12 frame.now)) (drop 14 frame.now) }
    ensures within { IfSome result (λ at. at.start ≤ length frame.now) }
{
    let mut kind = BigEndian::read_u16(&frame[12..]);
    let mut start = ADDRESSES_AND_TYPE;
    let mut left = MAX_TAGS;
    while left > 0 && is_tag(kind) {
        let (_, rest) = frame.split_at(start);
        if rest.len() < TAG {
            return None;
        }
        kind = BigEndian::read_u16(&rest[2..]);
        start += TAG;
        left -= 1;
    }
    Some(IpAt { kind, start })
}

/// Where the IP packet of an Ethernet frame begins, behind at most two VLAN tags (IEEE 802.1Q,
/// IEEE 802.1ad). `None` where the frame is cut before it or carries something else.
#[tactic(auto, unfolding(crate::specs::Ethernet::packet_in))]
pub fn ip_of(frame: &[u8]) -> Option<IpAt>
    ensures at { result ≡ ip_at frame.now }
    ensures packet { option_map (packet_from frame.now) result ≡ packet_in frame.now }
    ensures within { IfSome result (λ at. at.start ≤ length frame.now) }
    ensures kind { IfSome result (λ at. IsTrue (is_ip at.kind)) }
{
    if frame.len() < ADDRESSES_AND_TYPE {
        return None;
    }
    match after_tags(frame) {
        Some(at) if at.kind == ETHERTYPE_IPV4 || at.kind == ETHERTYPE_IPV6 => Some(at),
        _ => None,
    }
}
