//! A line that is built in memory and then written to a sink as one piece.
ghost use Rattle.std.specs.Prelude.{◌≡◌, ◌<◌, ◌≤◌, ◌+◌, ◌++◌, ◌^◌, [], length, decimal, IfOk, OnOk};
ghost use Rattle.std.specs.Prelude.{OnErr};
ghost use Rattle.std.specs.Io.KnownBytes.{Appends};
ghost use Rattle.outside_io.specs.Counts.{Rose};
ghost use Rattle.outside_io.specs.Sink.{AppendsSome};
ghost use Rattle.report.specs.Numbers.{hex_digits};

use crate::numbers::hex32;
use crate::place::place;
use itoa::write_digits;
use outside_io::{Sink, WriteFault, write_whole};
use std::alloc::Global;
use std::marker::Model;
use steer_base::OutOfMemory;

/// The most bytes that a line may have.
const ROOM: usize = 512;

/// The bytes of a line so far, at most 512. Their memory is allocated when the buffer is made; no
/// other call allocates.
#[derive(Drop)]
pub struct LineBuf {
    // The line, followed by bytes without meaning.
    room: Vec<u8>,
    // The number of bytes of the line.
    length: usize,
}

impl Model for LineBuf {
    ghost use Rattle.std.specs.Prelude.{ℕ, ◌≡◌, ◌≤◌, List, take, vec_len};

    ghost Value = { List ℕ };

    ghost view = { λ line. take line.length line.room.items };

    ghost invariant = { λ line. (vec_len line.room ≡ 512) × (line.length ≤ 512) };
}

impl LineBuf {
    /// An empty line with all its room.
    pub fn make(alloc: Global) -> Result<LineBuf, OutOfMemory>
        ensures { IfOk result (λ line. line ≡ []) }
    {
        let mut room = Vec::new(alloc);
        room.resize(ROOM, 0)?;
        Ok(LineBuf { room, length: 0 })
    }

    /// Empties the line.
    pub(crate) fn clear(&mut self)
        ensures { self.new ≡ [] }
    {
        self.length = 0;
    }

    /// Appends a text to the line.
    #[inline(always)]
    pub fn push(&mut self, text: &[u8])
        requires { length self.old + length text.now ≤ 512 }
        ensures { self.new ≡ self.old ++ text.now }
    {
        let end = self.length + text.len();
        place(&mut self.room, self.length, text);
        self.length = end;
    }

    /// Appends the decimal digits of a number to the line, at most 20.
    #[inline(always)]
    pub fn push_decimal(&mut self, number: u64)
        requires { length self.old + 20 ≤ 512 }
        ensures value { self.new ≡ self.old ++ decimal number }
        ensures grows { length self.new ≤ length self.old + 20 }
    {
        if number < 10 {
            self.push(&[b'0' + number as u8]);
        } else if number < 100 {
            self.push(&[b'0' + (number / 10) as u8, b'0' + (number % 10) as u8]);
        } else {
            self.push_digits(number);
        }
    }

    // Appends the decimal digits of a number from 1 on, each at its place.
    fn push_digits(&mut self, number: u64)
        requires positive { 0 < number }
        requires room { length self.old + 20 ≤ 512 }
        ensures value { self.new ≡ self.old ++ decimal number }
        ensures grows { length self.new ≤ length self.old + 20 }
    {
        let end = self.length + number.ilog10() as usize + 1;
        write_digits(number, &mut self.room, end);
        self.length = end;
    }

    /// Appends the lowest `digits` hexadecimal digits of a number to the line, the most significant
    /// first.
    #[inline(always)]
    pub fn push_hex(&mut self, number: u128, digits: u32)
        requires few { digits ≤ 32 }
        requires room { length self.old + digits ≤ 512 }
        ensures value { self.new ≡ self.old ++ hex_digits digits number }
        ensures grows { length self.new ≡ length self.old + digits }
    {
        self.push(&hex32(number)[32 - digits as usize..]);
    }

    /// Writes the line as one piece and clears it, even if the sink fails.
    pub fn write<K: Sink>(&mut self, out: &mut K) -> Result<(), WriteFault>
        ensures cleared { self.new ≡ [] }
        ensures whole { OnOk result (Appends (K.written out.old) (K.written out.new) self.old) }
        ensures part { OnErr result (AppendsSome (K.written out.old) (K.written out.new) self.old) }
        ensures fault { OnErr result (Rose (K.faults out.old) (K.faults out.new)) }
        ensures later { K.faults out.old ≤ K.faults out.new }
    {
        let done = write_whole(out, &self.room[..self.length]);
        self.clear();
        done
    }
}
