//! The hash as the XOR of a word for each byte of the input.
ghost use Rattle.std.specs.Prelude.{◌≡◌, ◌<◌, ◌≤◌, ◌+◌, ◌++◌, ℕ, length};
ghost use Rattle.std.specs.Int.{to_be_bytes, w32, w128};
ghost use Rattle.std.specs.Option.{option_map};
ghost use Rattle.toeplitz.specs.Flows.{addresses, ports, input_of_addresses, hash_of_flow};
ghost use Rattle.toeplitz.specs.Tables.{word_of, xor_of_bytes};
ghost use Rattle.toeplitz.specs.Toeplitz.{hash_of};

use crate::kinds::Kinds;
use steer_base::{Flow, Pair};

// A key that knows what each byte at each index of the input adds to the hash.
pub trait Words {
    ghost key: { Self → ℕ };

    // What a byte at this index of the input adds to the hash.
    fn word(&self, place: usize, byte: u8) -> u32
        requires { place < 36 }
        ensures { result ≡ word_of (key self.now) place byte };

    // The hash of a flow, if a kind that applies to it is enabled. It copies no part of the flow.
    #[inline(always)]
    fn hash_flow(&self, flow: &Flow, kinds: Kinds) -> Option<u32>
        ensures { result ≡ hash_of_flow (key self.now) flow.now kinds.0 }
    {
        match flow {
            Flow::Bare => None,
            Flow::Two(pair) => self.hash_two(pair, kinds),
            Flow::Four(pair, proto, sport, dport) => {
                if kinds.has_ports(pair, *proto) {
                    Some(self.hash_four(pair, *sport, *dport))
                } else {
                    self.hash_two(pair, kinds)
                }
            }
        }
    }

    // The hash of the source address and then the destination address, if their kind is enabled.
    #[inline(never)]
    fn hash_two(&self, pair: &Pair, kinds: Kinds) -> Option<u32>
        ensures { result ≡ option_map (hash_of (key self.now))
            (input_of_addresses pair.now kinds.0) }
    {
        if kinds.has_addresses(pair) {
            Some(self.hash_addresses(pair))
        } else {
            None
        }
    }

    // The hash of the addresses, then the source port and then the destination port.
    #[inline(always)]
    fn hash_four(&self, pair: &Pair, sport: u16, dport: u16) -> u32
        ensures { result ≡ hash_of (key self.now) (addresses pair.now ++ ports sport dport) }
    {
        match pair {
            Pair::V4 { src, dst } => self.hash_v4(*src, *dst) ^ self.hash_ports(8, sport, dport),
            Pair::V6 { src, dst } => {
                let ports = self.hash_ports(32, sport, dport);
                self.hash_v6(*src, *dst) ^ ports
            }
        }
    }

    // What the two addresses add.
    #[inline(always)]
    fn hash_addresses(&self, pair: &Pair) -> u32
        ensures { result ≡ xor_of_bytes (key self.now) 0 (addresses pair.now) }
    {
        match pair {
            Pair::V4 { src, dst } => self.hash_v4(*src, *dst),
            Pair::V6 { src, dst } => self.hash_v6(*src, *dst),
        }
    }

    // What two addresses of IPv4 add.
    #[inline(always)]
    fn hash_v4(&self, src: u32, dst: u32) -> u32
        ensures { result ≡ xor_of_bytes (key self.now) 0
            (to_be_bytes w32 src ++ to_be_bytes w32 dst) }
    {
        self.hash_bytes(0, &src.to_be_bytes()) ^ self.hash_bytes(4, &dst.to_be_bytes())
    }

    // What two addresses of IPv6 add: long once its loops are unrolled, so that it stands apart.
    #[inline(never)]
    fn hash_v6(&self, src: u128, dst: u128) -> u32
        ensures { result ≡ xor_of_bytes (key self.now) 0
            (to_be_bytes w128 src ++ to_be_bytes w128 dst) }
    {
        self.hash_bytes(0, &src.to_be_bytes()) ^ self.hash_bytes(16, &dst.to_be_bytes())
    }

    // What the ports add, the first of their bytes at this index.
    #[inline(always)]
    fn hash_ports(&self, place: usize, sport: u16, dport: u16) -> u32
        requires { place ≤ 32 }
        ensures { result ≡ xor_of_bytes (key self.now) place (ports sport dport) }
    {
        self.hash_bytes(place, &sport.to_be_bytes())
            ^ self.hash_bytes(place + 2, &dport.to_be_bytes())
    }

    // What these bytes add, the first of them at this index.
    #[inline(always)]
    fn hash_bytes(&self, place: usize, bytes: &[u8]) -> u32
        requires { place + length bytes.now ≤ 36 }
        ensures { result ≡ xor_of_bytes (key self.now) place bytes.now }
    {
        let mut hash = 0;
        for at in 0..bytes.len() {
            hash ^= self.word(place + at, bytes[at]);
        }
        hash
    }
}
