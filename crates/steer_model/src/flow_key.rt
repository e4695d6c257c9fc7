//! The keys by which flows are kept in maps.
ghost use Rattle.std.specs.Prelude.{◌≡◌};
ghost use Rattle.steer_model.specs.Capture.FlowKeys.{FlowFits, head_of, key_of, key_with, kind_of};

use steer_base::{Flow, Pair, Proto};

/// The number of ports.
pub const PORTS: u64 = 1 << 16;

/// The number of IPv4 addresses.
pub const ADDRESSES: u64 = 1 << 32;

/// The kind of a flow of addresses alone.
pub const NO_PORTS: u8 = 1;

/// The kind of a flow of TCP.
pub const TCP: u8 = 2;

/// The kind of a flow of UDP.
pub const UDP: u8 = 3;

/// A flow without IPv6 addresses. Of two of them the heads are compared first.
#[derive(Clone, Copy, PartialEq, Eq, PartialOrd, Ord)]
pub struct ShortKey {
    /// The kind of the flow and its ports.
    pub head: u64,
    /// The source and the destination address.
    pub addresses: u64,
}

/// A flow with IPv6 addresses. Of two of them the heads are compared first.
#[derive(Clone, Copy, PartialEq, Eq, PartialOrd, Ord)]
pub struct LongKey {
    /// The kind of the flow and its ports.
    pub head: u64,
    /// The source address.
    pub src: u128,
    /// The destination address.
    pub dst: u128,
}

/// A flow in a form that is compared in few instructions. Each flow has a key of its own.
#[derive(Clone, Copy)]
pub enum FlowKey {
    /// A flow without IPv6 addresses.
    Short(ShortKey),
    /// A flow with IPv6 addresses.
    Long(LongKey),
}

impl FlowKey {
    /// The key of a flow, which no other flow has.
    pub fn of(flow: Flow) -> FlowKey
        ensures key { result ≡ key_of flow }
        ensures fits { FlowFits flow }
        ensures only { (other : Flow) → FlowFits other → key_of other ≡ result → other ≡ flow }
    {
        match flow {
            Flow::Bare => FlowKey::Short(ShortKey {
                head: 0,
                addresses: 0,
            }),
            Flow::Two(pair) => FlowKey::with(pair, head(NO_PORTS, 0, 0)),
            Flow::Four(pair, proto, src, dst) => FlowKey::with(pair, head(kind(proto), src, dst)),
        }
    }

    // The key of a flow with these addresses and this head.
    fn with(pair: Pair, head: u64) -> FlowKey
        ensures { result ≡ key_with pair head }
    {
        match pair {
            Pair::V4 { src, dst } => {
                let addresses = u64::from(src) * ADDRESSES + u64::from(dst);
                FlowKey::Short(ShortKey { head, addresses })
            }
            Pair::V6 { src, dst } => FlowKey::Long(LongKey { head, src, dst }),
        }
    }
}

// The kind of a flow with ports.
fn kind(proto: Proto) -> u8
    ensures { result ≡ kind_of proto }
{
    match proto {
        Proto::Tcp => TCP,
        Proto::Udp => UDP,
    }
}

// The kind of a flow and its ports in one number.
fn head(kind: u8, src: u16, dst: u16) -> u64
    ensures { result ≡ head_of kind src dst }
{
    (u64::from(kind) * PORTS + u64::from(src)) * PORTS + u64::from(dst)
}
