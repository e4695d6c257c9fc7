//! Copies a text into a room of bytes.
ghost use Rattle.std.specs.Prelude.{◌≡◌, ◌≤◌, ◌+◌, ◌++◌, length, take};

use std::simd::Simd;

/// Copies a text to a place in a room. A short one is two copies of a fixed size that may overlap,
/// which are a load and a store each.
#[inline(always)]
pub(crate) fn place(room: &mut [u8], at: usize, text: &[u8])
    requires { at + length text.now ≤ length room.old }
    ensures { take (at + length text.now) room.new ≡ take at room.old ++ text.now }
{
    let size = text.len();
    if size > 32 {
        room[at..at + size].copy_from_slice(text);
    } else if size >= 16 {
        place_ends::<16>(room, at, text);
    } else if size >= 8 {
        place_ends::<8>(room, at, text);
    } else if size >= 4 {
        place_ends::<4>(room, at, text);
    } else if size >= 2 {
        place_ends::<2>(room, at, text);
    } else if size == 1 {
        room[at] = text[0];
    }
}

// Copies a text by its first and its last N bytes.
#[inline(always)]
fn place_ends<const N: usize>(room: &mut [u8], at: usize, text: &[u8])
    requires fits { at + length text.now ≤ length room.old }
    requires covers { (N ≤ length text.now) × (length text.now ≤ N + N) }
    ensures { take (at + length text.now) room.new ≡ take at room.old ++ text.now }
{
    let last = text.len() - N;
    place_front::<N>(room, at, text);
    place_front::<N>(room, at + last, &text[last..]);
}

// Copies the first N bytes of a text.
#[inline(always)]
fn place_front<const N: usize>(room: &mut [u8], at: usize, text: &[u8])
    requires { (N ≤ length text.now) × (at + N ≤ length room.old) }
    ensures { take (at + N) room.new ≡ take at room.old ++ take N text.now }
{
    Simd::<u8, N>::from_slice(text).copy_to_slice(&mut room[at..]);
}
