//! The key of the hash.
ghost use Rattle.std.specs.Prelude.{◌≡◌, ◌+◌, ◌*◌, ◌-◌, ◌/◌, ◌%◌, ◌^◌, ◌<◌, ◌≤◌, length};
ghost use Rattle.toeplitz.specs.Toeplitz.{number_of, verification_key as the_verification_key};
ghost use Rattle.toeplitz.specs.Tables.{word_of};
ghost use Rattle.toeplitz.specs.Flows.{hash_of_flow};

use crate::kinds::Kinds;
use crate::words::Words;
use std::marker::Model;
use steer_base::Flow;

/// The 40 bytes of the key of Microsoft's verification suite for the RSS hash. It is the default
/// key of plans and of the commands `hash` and `place`.
pub const VERIFICATION_KEY: [u8; 40] = [
    0x6d, 0x5a, 0x56, 0xda, 0x25, 0x5b, 0x0e, 0xc2, 0x41, 0x67, 0x25, 0x3d, 0x43, 0xa3, 0x8f, 0xb0,
    0xd0, 0xca, 0x2b, 0xcb, 0xae, 0x7b, 0x30, 0xb4, 0x77, 0xcb, 0x2d, 0xa3, 0x80, 0x30, 0xf2, 0x0c,
    0x6a, 0x42, 0xb7, 0x3b, 0xbe, 0xac, 0x01, 0xfa,
];

// A window of the key has 32 bits: its value is below this.
const WINDOW: u64 = 1 << 32;

/// A key of 320 bits.
#[derive(Drop)]
pub struct Key {
    bytes: [u8; 40],
}

impl Model for Key {
    ghost use Rattle.std.specs.Prelude.{ℕ};

    ghost Value = { ℕ };

    ghost use Rattle.toeplitz.specs.Toeplitz.{number_of};

    ghost view = { λ key. number_of key.bytes };
}

impl Key {
    /// Makes the key of these bytes, the first byte the most significant.
    pub fn make(bytes: [u8; 40]) -> Self
        ensures { result ≡ number_of bytes }
    {
        Key { bytes }
    }

    /// The Toeplitz hash of a flow (Intel 82599 datasheet; Microsoft's description of the RSS
    /// hash). If their kind is enabled, the source address, destination address, source port and
    /// destination port are hashed in network order; otherwise only the two addresses, if theirs is
    /// enabled; otherwise there is no hash.
    pub fn hash(&self, flow: &Flow, kinds: Kinds) -> Option<u32>
        ensures { result ≡ hash_of_flow self.now flow.now kinds.0 }
    {
        self.hash_flow(flow, kinds)
    }

    // A copy of the key.
    pub(crate) fn copied(&self) -> Self
        ensures { result ≡ self.now }
    {
        Key { bytes: self.bytes }
    }
}

impl Words for Key {
    ghost key = { λ key. key };

    fn word(&self, place: usize, byte: u8) -> u32
        requires { place < 36 }
        ensures { result ≡ word_of self.now place byte }
    {
        let span = span(&self.bytes, place);
        let mut word = 0;
        for bit in 0..8u8 {
            if byte >> (7 - bit) & 1 == 1 {
                word ^= ((span >> (8 - bit)) % WINDOW) as u32;
            }
        }
        word
    }
}

/// The key of Microsoft's verification suite for the RSS hash.
pub fn verification_key() -> Key
    ensures number { result ≡ the_verification_key }
    ensures bytes { result ≡ number_of VERIFICATION_KEY }
{
    Key::make(VERIFICATION_KEY)
}

// The 40 bits of the key that hold the windows of the bits of the input byte at this index.
fn span(key: &[u8], place: usize) -> u64
    requires whole { length key.now ≡ 40 }
    requires within { place < 36 }
    ensures { result ≡ number_of key.now / 2 ^ (8 * (35 - place)) % 2 ^ 40 }
{
    number(&key[place..place + 5])
}

// At most 5 bytes as one number, the first byte the most significant.
fn number(bytes: &[u8]) -> u64
    requires { length bytes.now ≤ 5 }
    ensures { result ≡ number_of bytes.now }
{
    let mut number = 0;
    for byte in bytes {
        number = number * 256 + u64::from(*byte);
    }
    number
}
