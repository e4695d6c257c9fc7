//! The flow that addresses and a payload make.
ghost use Rattle.std.specs.Prelude.{◌≡◌, ◌≤◌, length};
ghost use Rattle.std.specs.Option.{option_map, ForSome};
ghost use Rattle.flow_dissector.specs.Places.{payload_from};
ghost use Rattle.flow_dissector.specs.Ports.{flow_between, flow_with_ports};

use crate::payload::Payload;
use byteorder::{BigEndian, ByteOrder};
use steer_base::{Flow, Pair, Proto};

/// The protocol number of TCP.
const TCP: u8 = 6;

/// The protocol number of UDP.
const UDP: u8 = 17;

/// The bytes of the two ports, with which both headers begin.
const PORTS: usize = 4;

#[tactic(auto, unfolding(crate::specs::Ports::flow_with_ports))]
fn flow_with_ports(pair: Pair, proto: Proto, segment: &[u8]) -> Flow
    ensures { result ≡ flow_with_ports pair proto segment.now }
{
    if segment.len() < PORTS {
        return Flow::Two(pair);
    }
    let source = BigEndian::read_u16(segment);
    let destination = BigEndian::read_u16(&segment[2..]);
    Flow::Four(pair, proto, source, destination)
}

// The flow between two addresses of a packet with this payload.
#[tactic(auto, unfolding(crate::specs::Ports::flow_between))]
pub fn flow_between(pair: Pair, packet: &[u8], payload: Option<Payload>) -> Flow
    requires { ForSome payload (λ at. at.start ≤ length packet.now) }
    ensures { result ≡ flow_between pair (option_map (payload_from packet.now) payload) }
{
    match payload {
        None => Flow::Two(pair),
        Some(Payload { proto: TCP, start }) => flow_with_ports(pair, Proto::Tcp, &packet[start..]),
        Some(Payload { proto: UDP, start }) => flow_with_ports(pair, Proto::Udp, &packet[start..]),
        Some(_) => Flow::Two(pair),
    }
}
