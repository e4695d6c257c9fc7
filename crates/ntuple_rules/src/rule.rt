//! A rule.
use steer_base::RxQueue;

/// The packets that a rule is for.
#[derive(Clone, Copy, Debug, PartialEq, Eq)]
pub enum RuleKind {
    /// TCP over IPv4.
    Tcp4,
    /// UDP over IPv4.
    Udp4,
    /// TCP over IPv6.
    Tcp6,
    /// UDP over IPv6.
    Udp6,
    /// IPv4, whatever it carries.
    Ip4,
    /// IPv6, whatever it carries.
    Ip6,
}

/// An n-tuple filter: the packets of a kind whose fields agree with these under their masks go to a
/// receive queue. A bit of a field is compared if the bit of its mask is 1, so a mask of 0 accepts
/// each value.
#[derive(Clone, Copy, Debug, PartialEq, Eq)]
pub struct Rule {
    /// The version of IP and the protocol.
    pub kind: RuleKind,
    /// The source address. An IPv4 address or mask is in the low 32 bits, and the others are 0.
    pub src: u128,
    /// The mask of the source address.
    pub srcmask: u128,
    /// The destination address.
    pub dst: u128,
    /// The mask of the destination address.
    pub dstmask: u128,
    /// The source port. It is not compared if the kind is `Ip4` or `Ip6`.
    pub sport: u16,
    /// The mask of the source port.
    pub sportmask: u16,
    /// The destination port, likewise.
    pub dport: u16,
    /// The mask of the destination port.
    pub dportmask: u16,
    /// The receive queue that the packets go to, below the number of queues.
    pub queue: RxQueue,
}
