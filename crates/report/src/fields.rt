//! Appends fields to a line, each after a space.
ghost use Rattle.std.specs.Prelude.{◌≡◌, ◌≤◌, ◌+◌, ◌++◌, [], ◌∷◌, decimal, length};
ghost use Rattle.report.specs.Lines.{or_dash};
ghost use Rattle.report.specs.Pieces.{spaced};

use crate::line::LineBuf;

/// Begins a line with a word and a number.
#[inline(always)]
pub(crate) fn begin(buf: &mut LineBuf, word: &[u8], number: u64)
    requires { length word.now ≤ 8 }
    ensures text { buf.new ≡ word.now ++ spaced (decimal number ∷ []) }
    ensures short { length buf.new ≤ length word.now + 21 }
{
    buf.clear();
    buf.push(word);
    push_number(buf, number);
}

/// Appends a number to a line.
#[inline(always)]
pub(crate) fn push_number(buf: &mut LineBuf, number: u64)
    requires { length buf.old + 21 ≤ 512 }
    ensures text { buf.new ≡ buf.old ++ spaced (decimal number ∷ []) }
    ensures grows { length buf.new ≤ length buf.old + 21 }
{
    buf.push(b" ");
    buf.push_decimal(number);
}

/// Appends a word to a line.
#[inline(always)]
pub(crate) fn push_word(buf: &mut LineBuf, word: &[u8])
    requires { length buf.old + length word.now + 1 ≤ 512 }
    ensures text { buf.new ≡ buf.old ++ spaced (word.now ∷ []) }
    ensures grows { length buf.new ≤ length buf.old + length word.now + 1 }
{
    buf.push(b" ");
    buf.push(word);
}

/// Appends a word and a number to a line.
#[inline(always)]
pub(crate) fn push_named(buf: &mut LineBuf, name: &[u8], number: u64)
    requires { length buf.old + length name.now + 22 ≤ 512 }
    ensures text { buf.new ≡ buf.old ++ spaced (name.now ∷ decimal number ∷ []) }
    ensures grows { length buf.new ≤ length buf.old + length name.now + 22 }
{
    push_word(buf, name);
    push_number(buf, number);
}

/// Appends a text and the number after it to a line.
#[inline(always)]
pub(crate) fn push_after(buf: &mut LineBuf, text: &[u8], number: u64)
    requires { length buf.old + length text.now + 20 ≤ 512 }
    ensures text { buf.new ≡ buf.old ++ text.now ++ decimal number }
    ensures grows { length buf.new ≤ length buf.old + length text.now + 20 }
{
    buf.push(text);
    buf.push_decimal(number);
}

/// Appends a text and the number after it to a line, a dash if there is no number.
#[inline(always)]
pub(crate) fn push_option(buf: &mut LineBuf, text: &[u8], number: Option<u32>)
    requires { length buf.old + length text.now + 20 ≤ 512 }
    ensures text { buf.new ≡ buf.old ++ text.now ++ or_dash number }
    ensures grows { length buf.new ≤ length buf.old + length text.now + 20 }
{
    buf.push(text);
    match number {
        Some(number) => buf.push_decimal(u64::from(number)),
        None => buf.push(b"-"),
    }
}

/// Appends a text and the 8-bit number after it to a line, a dash if there is no number.
#[inline(always)]
pub(crate) fn push_lane(buf: &mut LineBuf, text: &[u8], number: Option<u8>)
    requires { length buf.old + length text.now + 20 ≤ 512 }
    ensures text { buf.new ≡ buf.old ++ text.now ++ or_dash number }
    ensures grows { length buf.new ≤ length buf.old + length text.now + 20 }
{
    buf.push(text);
    match number {
        Some(number) => buf.push_decimal(u64::from(number)),
        None => buf.push(b"-"),
    }
}
