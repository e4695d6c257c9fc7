//! Numbers of a plan and of a step text, and their ranges.
ghost use Rattle.std.specs.Prelude.{◌≡◌, ◌<◌, ◌≤◌, IfOk};
ghost use Rattle.serde_json.specs.View.{view};
ghost use Rattle.plan_reader.specs.Causes.{below, in_range};
ghost use Rattle.plan_reader.specs.Readings.{whole, number_between, number_below};
ghost use Rattle.plan_reader.specs.Texts.{plain_number};

use crate::faults::cause::Cause;
use serde_json::Value;
use steer_base::decimal_number;

/// The number of a token of one to ten decimal digits without a sign; `None` for any other token.
pub fn number_of(token: &[u8]) -> Option<u64>
    ensures { result ≡ plain_number token.now }
{
    Some(decimal_number(token, 10)? as u64)
}

/// The number, if it is from `low` to `high`; otherwise `Cause::Range`.
pub fn in_range(low: u64, high: u64, number: u64) -> Result<u64, Cause>
    ensures gives { result ≡ in_range low high number }
    ensures within { IfOk result (λ n. (low ≤ n) × (n ≤ high)) }
{
    if low <= number && number <= high {
        Ok(number)
    } else {
        Err(Cause::Range(number))
    }
}

/// The number as an index, if it is below the size; otherwise `Cause::Range`.
pub fn index_below(size: u8, number: u64) -> Result<u8, Cause>
    ensures gives { result ≡ below size number }
    ensures within { IfOk result (λ n. n < size) }
{
    if number < u64::from(size) {
        Ok(number as u8)
    } else {
        Err(Cause::Range(number))
    }
}

/// The number as a count, if it is below the limit; otherwise `Cause::Range`.
pub fn count_below(limit: u32, number: u64) -> Result<u32, Cause>
    ensures gives { result ≡ below limit number }
    ensures within { IfOk result (λ n. n < limit) }
{
    if number < u64::from(limit) {
        Ok(number as u32)
    } else {
        Err(Cause::Range(number))
    }
}

/// A JSON number that is a whole number from 0 to 2^64 - 1; otherwise `Cause::WrongKind`.
pub fn whole(value: &Value) -> Result<u64, Cause>
    ensures { result ≡ whole (view value.now) }
{
    value.as_u64().ok_or(Cause::WrongKind)
}

/// A whole number from `low` to `high`.
pub fn number(value: &Value, low: u64, high: u64) -> Result<u64, Cause>
    ensures gives { result ≡ number_between low high (view value.now) }
    ensures within { IfOk result (λ n. (low ≤ n) × (n ≤ high)) }
{
    in_range(low, high, whole(value)?)
}

/// A whole number below a size.
pub fn number_below(value: &Value, size: u8) -> Result<u8, Cause>
    ensures gives { result ≡ number_below size (view value.now) }
    ensures within { IfOk result (λ n. n < size) }
{
    index_below(size, whole(value)?)
}
