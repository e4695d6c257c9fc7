//! A set in a step text.
ghost use Rattle.std.specs.Prelude.{◌≡◌, ◌≤◌, ◌<◌, ◌^◌, is_some, Some, IsSome, IfOk, option_map};
ghost use Rattle.plan_reader.specs.Texts.{set_of, merged, numbers_of, parts};

use crate::faults::cause::Cause;
use crate::steps::cut::cut;
use crate::steps::words::is;
use crate::values::number::number_of;

/// Whether a token is numbers with commas between them.
fn is_list(token: &[u8]) -> bool
    ensures { result ≡ is_some (numbers_of (parts token.now)) }
{
    let mut rest = token;
    'parts: loop {
        let (first, after) = cut(rest, b',');
        if number_of(first).is_none() {
            return false;
        }
        let Some(after) = after else {
            return true;
        };
        rest = after;
    }
}

/// The bits of numbers with commas between them, which are all to be below the limit.
fn bits_of_list(token: &[u8], limit: u8) -> Result<u32, Cause>
    requires width { limit ≤ 32 }
    requires list { IsSome (numbers_of (parts token.now)) }
    ensures merged { option_map (merged limit) (numbers_of (parts token.now)) ≡ Some result }
    ensures within { IfOk result (λ bits. bits < 2 ^ limit) }
{
    let mut rest = token;
    let mut bits = 0u32;
    'parts: loop {
        let (first, after) = cut(rest, b',');
        let Some(number) = number_of(first) else {
            return Err(Cause::WrongKind);
        };
        if number >= u64::from(limit) {
            return Err(Cause::Range(number));
        }
        bits |= 1 << number;
        let Some(after) = after else {
            return Ok(bits);
        };
        rest = after;
    }
}

/// Whether a token is a set: numbers with commas between them, or a dash for none.
#[tactic(auto, unfolding(crate::specs::Texts::set_of))]
pub fn is_set(token: &[u8]) -> bool
    ensures { result ≡ is_some (set_of token.now) }
{
    is(token, "-") || is_list(token)
}

/// The set of a token as bits: bit n is number n. `Cause::Range` with the first number that is not
/// below the limit.
#[tactic(auto, unfolding(crate::specs::Texts::set_of))]
pub fn bits_of(token: &[u8], limit: u8) -> Result<u32, Cause>
    requires width { limit ≤ 32 }
    requires set { IsSome (set_of token.now) }
    ensures merged { option_map (merged limit) (set_of token.now) ≡ Some result }
    ensures within { IfOk result (λ bits. bits < 2 ^ limit) }
{
    if is(token, "-") {
        Ok(0)
    } else {
        bits_of_list(token, limit)
    }
}
