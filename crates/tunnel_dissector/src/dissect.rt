//! Entering the levels of a frame.
ghost use Rattle.std.specs.Prelude.{◌≡◌, ◌≤◌, length, IsTrue};
ghost use Rattle.flow_dissector.specs.Ethernet.{is_ip};
ghost use Rattle.tunnel_dissector.specs.Inner.{deepest, inner_of};

use crate::inner::Inner;
use crate::level::entered;
use flow_dissector::{dissect_ip, ip_of};
use steer_base::Flow;

/// The most levels that are entered.
const MAX_LEVELS: u8 = 4;

/// Returns the flow of the innermost packet of an Ethernet frame, and how many levels of tunnels
/// were entered to reach it: IPv4 and IPv6 in IP (RFC 2003, RFC 2473), GRE (RFC 2784, RFC 2890) and
/// VXLAN (RFC 7348), at most four. A level without a complete IP header is not entered; the flow is
/// then that of the packet around it. `Flow::Bare` if the frame itself has no such header. Lengths
/// and checksums in headers are not verified. Allocates nothing.
#[tactic(auto, unfolding(crate::specs::Inner::inner_of))]
pub fn dissect_inner(frame: &[u8]) -> Inner
    ensures { result ≡ inner_of frame.now }
{
    match ip_of(frame) {
        None => Inner {
            flow: Flow::Bare,
            depth: 0,
        },
        Some(at) => deepest(&frame[at.start..], at.kind),
    }
}

/// The flow of the innermost packet of an IP packet.
fn deepest(packet: &[u8], kind: u16) -> Inner
    requires { IsTrue (is_ip kind) }
    ensures { result ≡ deepest 4 kind packet.now }
{
    let mut kind = kind;
    let mut packet = packet;
    let mut depth = 0;
    while depth < MAX_LEVELS {
        let Some(at) = entered(packet, kind) else {
            return Inner {
                flow: dissect_ip(packet, kind),
                depth,
            };
        };
        packet = packet.split_at(at.start).1;
        kind = at.kind;
        depth += 1;
    }
    Inner {
        flow: dissect_ip(packet, kind),
        depth,
    }
}
