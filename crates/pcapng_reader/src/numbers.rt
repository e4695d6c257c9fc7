//! The numbers in the fields of a block, in either byte order.
ghost use Rattle.std.specs.Prelude.{◌≡◌, ◌≤◌, ◌+◌, length};
ghost use Rattle.pcapng_reader.specs.Numbers.{u16_at, u32_at};

use byteorder::{BigEndian, ByteOrder, LittleEndian};

/// The 16-bit number at an offset, big-endian if `big`.
#[tactic(auto, unfolding(crate::specs::Numbers::u16_at))]
pub fn u16_at(big: bool, at: usize, bytes: &[u8]) -> u16
    requires { at + 2 ≤ length bytes.now }
    ensures { result ≡ u16_at big at bytes.now }
{
    let (_, field) = bytes.split_at(at);
    if big {
        BigEndian::read_u16(field)
    } else {
        LittleEndian::read_u16(field)
    }
}

/// The 32-bit number at an offset, big-endian if `big`.
#[tactic(auto, unfolding(crate::specs::Numbers::u32_at))]
pub fn u32_at(big: bool, at: usize, bytes: &[u8]) -> u32
    requires { at + 4 ≤ length bytes.now }
    ensures { result ≡ u32_at big at bytes.now }
{
    let (_, field) = bytes.split_at(at);
    if big {
        BigEndian::read_u32(field)
    } else {
        LittleEndian::read_u32(field)
    }
}
