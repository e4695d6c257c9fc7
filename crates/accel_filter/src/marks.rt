//! Which of the numbers below 4,096 are marked, by bits of machine words.
ghost use Rattle.std.specs.Prelude.{ℕ, ◌≡◌, ◌<◌, ◌≤◌, ◌==◌, ◌&&◌, ◌||◌, ◌+◌, ◌*◌, not, false};
ghost use Rattle.std.specs.Prelude.{IfNone, IfSome};
ghost use Rattle.std.specs.Slice.Scan.{HoldsNowhere};
ghost use Rattle.accel_filter.specs.Marks.{has_bit, marked};
ghost use Rattle.accel_filter.specs.Next.{IsNext};
ghost use Rattle.accel_filter.specs.declared.marks.TheConstants.{WORDS};
ghost use Rattle.accel_filter.specs.declared.table.TheConstants.{MAX_FILTERS};

use crate::table::MAX_FILTERS;

/// The number of words.
pub const WORDS: u32 = MAX_FILTERS / 64;

/// A set of numbers below 4,096: bit n mod 64 of word n / 64 is set if n is marked.
#[derive(Drop)]
pub struct Marks {
    words: [u64; WORDS as usize],
}

impl Marks {
    /// No number is marked.
    pub fn none() -> Marks
        ensures { (n : ℕ) → marked result n ≡ false }
    {
        Marks {
            words: [0; WORDS as usize],
        }
    }

    /// Marks a number.
    pub fn mark(&mut self, n: u32)
        requires { n < MAX_FILTERS }
        ensures { (k : ℕ) → marked self.new k ≡ (marked self.old k || n == k) }
    {
        self.words[n as usize / 64] |= 1 << (n % 64);
    }

    /// Takes the mark off a number.
    pub fn unmark(&mut self, n: u32)
        requires { n < MAX_FILTERS }
        ensures { (k : ℕ) → marked self.new k ≡ (marked self.old k && not (n == k)) }
    {
        self.words[n as usize / 64] &= !(1 << (n % 64));
    }

    /// The marks of the 64 numbers from 64 `place` on, as the bits of a word.
    pub fn word(&self, place: u32) -> u64
        requires { place < WORDS }
        ensures { (bit : ℕ) → bit < 64
            → has_bit result bit ≡ marked self.now (64 * place + bit) }
    {
        self.words[place as usize]
    }

    /// The first marked number from one on, if there is one. At most one step per word.
    pub fn next(&self, from: u32) -> Option<u32>
        ensures some { IfSome result (IsNext (marked self.now) from) }
        ensures none { IfNone result ((n : ℕ) → from ≤ n → marked self.now n ≡ false) }
    {
        let mut bit = from % 64;
        for place in from as usize / 64..WORDS as usize {
            if let Some(found) = next_bit(self.words[place], bit) {
                return Some(64 * place as u32 + found);
            }
            bit = 0;
        }
        None
    }
}

// The first bit from one on that is set in a word, if there is one.
fn next_bit(word: u64, from: u32) -> Option<u32>
    requires { from < 64 }
    ensures some { IfSome result (λ bit. (bit < 64) × IsNext (has_bit word) from bit) }
    ensures none { IfNone result (HoldsNowhere (has_bit word) from 64) }
{
    let left = word >> from;
    if left == 0 {
        return None;
    }
    Some(from + left.trailing_zeros())
}
