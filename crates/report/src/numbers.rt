//! Numbers in hexadecimal digits, all of them at once.
ghost use Rattle.std.specs.Prelude.{◌≡◌, reverse};
ghost use Rattle.report.specs.Numbers.{hex_digits, hex8_of};
ghost use lib.Lanes.{digits_l};

use std::simd::prelude::*;

/// The lower case hexadecimal digits, twice.
const DIGITS: [u8; 32] = *b"0123456789abcdef0123456789abcdef";

/// The places of the halves of bytes where the higher halves come before the lower ones.
const HALVES: [usize; 32] = [
    0, 16, 1, 17, 2, 18, 3, 19, 4, 20, 5, 21, 6, 22, 7, 23, 8, 24, 9, 25, 10, 26, 11, 27, 12, 28,
    13, 29, 14, 30, 15, 31,
];

/// The bytes of a number, the most significant first.
#[inline(always)]
fn bytes_of(number: u128) -> u8x16
    ensures { result ≡ reverse (digits_l 256 16 number) }
{
    let words = u64x2::from_array([(number % (1 << 64)) as u64, (number >> 64) as u64]);
    words.to_le_bytes().reverse()
}

/// The digits of a number in base 16, the most significant first.
#[inline(always)]
fn halves_of(number: u128) -> u8x32
    ensures { result ≡ reverse (digits_l 16 32 number) }
{
    let bytes = bytes_of(number);
    let (high, low) = (bytes >> u8x16::splat(4), bytes & u8x16::splat(15));
    high.shuffle(low, HALVES)
}

/// The 32 lower case hexadecimal digits of a number.
#[inline(always)]
pub(crate) fn hex32(number: u128) -> [u8; 32]
    ensures { result ≡ hex_digits 32 number }
{
    let halves = halves_of(number);
    u8x32::from_array(DIGITS)
        .swizzle_dyn_within::<16>(halves)
        .to_array()
}

/// The 8 lower case hexadecimal digits of a number.
#[inline(always)]
pub fn hex8(number: u32) -> [u8; 8]
    ensures { result ≡ hex8_of number }
{
    u8x8::from_slice(&hex32(u128::from(number))[24..]).to_array()
}
