//! The kinds of input that a network card hashes.
ghost use Rattle.std.specs.Prelude.{◌≡◌, ◌<◌};
ghost use Rattle.toeplitz.specs.Flows.{is_on as is_kind_on};
ghost use Rattle.toeplitz.specs.Flows.{address_kind, port_kind};

use steer_base::{Pair, Proto};

/// The kinds of input that are hashed, one bit for each: bit 0 is IPv4 addresses only, bit 1 TCP
/// over IPv4, bit 2 UDP over IPv4, and bits 3 to 5 are the same for IPv6. The TCP and UDP kinds
/// hash the ports too. The other two bits are ignored.
#[derive(Clone, Copy, Debug, PartialEq, Eq)]
pub struct Kinds(pub u8);

impl Kinds {
    // Whether the kind that hashes the two addresses only is enabled.
    #[inline(always)]
    pub(crate) fn has_addresses(self, pair: &Pair) -> bool
        ensures { result ≡ is_kind_on self.0 (address_kind pair.now) }
    {
        match pair {
            Pair::V4 { .. } => self.is_on(0),
            Pair::V6 { .. } => self.is_on(3),
        }
    }

    // Whether the kind that hashes the addresses and the ports is enabled.
    #[inline(always)]
    pub(crate) fn has_ports(self, pair: &Pair, proto: Proto) -> bool
        ensures { result ≡ is_kind_on self.0 (port_kind pair.now proto) }
    {
        match (pair, proto) {
            (Pair::V4 { .. }, Proto::Tcp) => self.is_on(1),
            (Pair::V4 { .. }, Proto::Udp) => self.is_on(2),
            (Pair::V6 { .. }, Proto::Tcp) => self.is_on(4),
            (Pair::V6 { .. }, Proto::Udp) => self.is_on(5),
        }
    }

    // Whether the kind of this bit is enabled.
    #[inline(always)]
    fn is_on(self, bit: u8) -> bool
        requires { bit < 8 }
        ensures { result ≡ is_kind_on self.0 bit }
    {
        self.0 >> bit & 1 == 1
    }
}
