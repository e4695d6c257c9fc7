//! Lemmas about the definitions of this crate, each the contract of a function with an empty body.
ghost use Rattle.std.specs.Prelude.{ℕ, ◌≡◌, ◌≤◌, ◌<◌, ◌+◌, ◌-◌, ◌^◌, Bool, Option, nat_le};
ghost use Rattle.steer_base.specs.Counters.{distance, has_reached, number};
ghost use Rattle.steer_base.specs.Moves.{RuleMovesByThree};
ghost use Rattle.steer_base.specs.Sizes.{SizesAreNumbers};
ghost use Rattle.steer_base.specs.declared.limits.TheConstants.{MAX_PACKETS};

/// Lemma: two numbers of one counter compare like the counts at which it showed them, whatever
/// number the counter started at and however often it wrapped, for counts of at most
/// as many packets as a capture may have.
pub fn numbers_compare_as_counts()
    ensures { (start head tail more : ℕ) → start < 2 ^ 32 → head ≤ MAX_PACKETS → tail ≤ MAX_PACKETS
        → has_reached (number start head) (number start tail) more ≡ nat_le (tail + more) head }
{}

/// Lemma: a number determines the count at which it was shown, and two numbers the distance of
/// their counts, for all counts below 2^32.
pub fn a_number_tells_its_count()
    ensures count { (start count : ℕ) → start < 2 ^ 32 → count < 2 ^ 32
        → distance (number start count) start ≡ count }
    ensures apart { (start head tail : ℕ) → start < 2 ^ 32 → tail ≤ head → head < 2 ^ 32
        → distance (number start head) (number start tail) ≡ head - tail }
{}

/// Lemma: a class moves to the desired lane if and only if it has no lane, or another one that is
/// offline, or another one whose head has reached the recorded tail (kernel scaling chapter,
/// section RFS).
pub fn a_class_moves_in_three_cases_alone()
    ensures { RuleMovesByThree }
{}

/// Lemma: the size of a table, rounded up to a power of two, is a number of 32 bits.
pub fn rounded_sizes_are_numbers()
    ensures { SizesAreNumbers }
{}
