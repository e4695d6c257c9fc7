//! The remainder of a division.
ghost use Rattle.std.specs.Prelude.{◌≡◌, ◌%◌, ◌≤◌};

/// `value mod divisor`. Where the divisor is a power of two it is the low bits of the value: tables
/// and numbers of processors mostly are, and a division takes longer than a mask.
pub fn remainder(value: u32, divisor: u32) -> u32
    requires { 1 ≤ divisor }
    ensures { result ≡ value % divisor }
{
    let below = divisor - 1;
    if divisor & below == 0 {
        value & below
    } else {
        value % divisor
    }
}
