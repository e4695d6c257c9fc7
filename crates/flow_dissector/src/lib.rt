//! Finds the flow of an Ethernet frame, and where the layers in it begin.
#![tactic(auto)]

mod ethernet;
mod frame;
mod ipv4;
mod ipv6;
mod laws;
mod payload;
mod ports;

pub use ethernet::{ETHERTYPE_IPV4, ETHERTYPE_IPV6, IpAt, ip_of};
pub use frame::{dissect, dissect_ip, payload_of};
pub use laws::{
    flow_is_of_the_payload, ipv4_fragment_has_no_ports, ipv6_fragment_has_no_ports,
    ports_end_the_flow,
};
pub use payload::Payload;
