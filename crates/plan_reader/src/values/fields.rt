//! The values at the keys of an object.
ghost use Rattle.std.specs.Prelude.{◌≡◌, ◌≤◌, ◌<◌, ◌^◌, All, Err, IfOk};
ghost use Rattle.serde_json.specs.View.{view};
ghost use Rattle.plan_reader.specs.Faults.{Gives, here, under};
ghost use Rattle.plan_reader.specs.Readings.{list_of, number_between, number_below, optional};
ghost use Rattle.plan_reader.specs.Readings.{required};
ghost use Rattle.plan_reader.specs.Readings.{set, whole};
ghost use Rattle.plan_reader.specs.Ranges.{HasLength};

use crate::faults::cause::Cause;
use crate::faults::fault::Refusal;
use crate::faults::placed::{here, placed};
use crate::settings::sizes::Sizes;
use crate::values::bits::{items, set};
use crate::values::member::{Member, each};
use crate::values::number::{number, number_below, whole};
use serde_json::Value;
use std::alloc::Global;
use steer_base::List;

/// A number from `low` to `high` at a required key.
#[tactic(auto, using(crate::proofs::Placed::gives_placed, crate::proofs::Placed::if_placed))]
pub fn required_number(
    alloc: Global,
    object: &Value,
    key: &str,
    low: u64,
    high: u64,
) -> Result<u64, Refusal>
    ensures gives { Gives result
        (required key.now (λ v. here (number_between low high v)) (view object.now)) }
    ensures within { IfOk result (λ n. (low ≤ n) × (n ≤ high)) }
{
    match object.get(key) {
        Some(value) => placed(alloc, key, here(alloc, number(value, low, high))),
        None => missing(alloc, key),
    }
}

/// A number from `low` to `high` at a key, or the default.
#[tactic(auto, using(crate::proofs::Placed::gives_placed, crate::proofs::Placed::if_placed))]
pub fn number_or(
    alloc: Global,
    object: &Value,
    key: &str,
    low: u64,
    high: u64,
    default: u64,
) -> Result<u64, Refusal>
    requires above { low ≤ default }
    requires beneath { default ≤ high }
    ensures gives { Gives result
        (optional key.now (λ v. here (number_between low high v)) default (view object.now)) }
    ensures within { IfOk result (λ n. (low ≤ n) × (n ≤ high)) }
{
    match object.get(key) {
        Some(value) => placed(alloc, key, here(alloc, number(value, low, high))),
        None => Ok(default),
    }
}

/// A number below a size at a required key.
#[tactic(auto, using(crate::proofs::Placed::gives_placed, crate::proofs::Placed::if_placed))]
pub fn required_below(alloc: Global, object: &Value, key: &str, size: u8) -> Result<u8, Refusal>
    ensures gives { Gives result
        (required key.now (λ v. here (number_below size v)) (view object.now)) }
    ensures within { IfOk result (λ n. n < size) }
{
    match object.get(key) {
        Some(value) => placed(alloc, key, here(alloc, number_below(value, size))),
        None => missing(alloc, key),
    }
}

/// A set of at most `most` numbers below `limit`, at a required key.
#[tactic(auto, using(crate::proofs::Placed::gives_placed, crate::proofs::Placed::if_placed))]
pub fn required_set(
    alloc: Global,
    object: &Value,
    key: &str,
    most: u64,
    limit: u8,
) -> Result<u32, Refusal>
    requires { limit ≤ 32 }
    ensures gives { Gives result (required key.now (set most limit) (view object.now)) }
    ensures within { IfOk result (λ bits. bits < 2 ^ limit) }
{
    match object.get(key) {
        Some(value) => placed(alloc, key, set(alloc, value, most, limit)),
        None => missing(alloc, key),
    }
}

/// A set of at most `most` numbers below `limit` at a key, or the empty one.
#[tactic(auto, using(crate::proofs::Placed::gives_placed, crate::proofs::Placed::if_placed))]
pub fn set_or_empty(
    alloc: Global,
    object: &Value,
    key: &str,
    most: u64,
    limit: u8,
) -> Result<u32, Refusal>
    requires { limit ≤ 32 }
    ensures gives { Gives result (optional key.now (set most limit) 0 (view object.now)) }
    ensures within { IfOk result (λ bits. bits < 2 ^ limit) }
{
    match object.get(key) {
        Some(value) => placed(alloc, key, set(alloc, value, most, limit)),
        None => Ok(0),
    }
}

/// The fault `Cause::Missing` at a required key that an object does not have.
#[tactic(auto, using(crate::proofs::Placed::gives_placed))]
pub fn missing<T>(alloc: Global, key: &str) -> Result<T, Refusal>
    ensures { Gives result (under key.now (here (Err Cause.Missing))) }
{
    placed(alloc, key, here(alloc, Err(Cause::Missing)))
}

/// A list of `low` to `high` members.
pub fn list<T: Member + Drop>(
    alloc: Global,
    sizes: Sizes,
    value: &Value,
    low: u64,
    high: u64,
) -> Result<List<T>, Refusal>
    requires cpus { sizes.cpus ≤ 32 }
    requires queues { sizes.queues ≤ 16 }
    ensures gives { Gives result (list_of (T.reading sizes) low high (view value.now)) }
    ensures within { IfOk result (λ list. All (T.IsWithin sizes) list) }
    ensures len { IfOk result (λ list. HasLength low high list) }
{
    let members = here(alloc, items(value, low, high))?;
    each(alloc, sizes, members)
}

/// Any whole number at a required key.
#[tactic(auto, using(crate::proofs::Placed::gives_placed))]
pub fn required_whole(alloc: Global, object: &Value, key: &str) -> Result<u64, Refusal>
    ensures { Gives result (required key.now (λ v. here (whole v)) (view object.now)) }
{
    match object.get(key) {
        Some(value) => placed(alloc, key, here(alloc, whole(value))),
        None => missing(alloc, key),
    }
}

/// A list of `low` to `high` members at a required key.
#[tactic(auto, using(crate::proofs::Placed::gives_placed, crate::proofs::Placed::if_placed))]
pub fn required_list<T: Member + Drop>(
    alloc: Global,
    sizes: Sizes,
    object: &Value,
    key: &str,
    low: u64,
    high: u64,
) -> Result<List<T>, Refusal>
    requires cpus { sizes.cpus ≤ 32 }
    requires queues { sizes.queues ≤ 16 }
    ensures gives { Gives result
        (required key.now (list_of (T.reading sizes) low high) (view object.now)) }
    ensures within { IfOk result (λ list. All (T.IsWithin sizes) list) }
    ensures len { IfOk result (λ list. HasLength low high list) }
{
    match object.get(key) {
        Some(value) => placed(alloc, key, list(alloc, sizes, value, low, high)),
        None => missing(alloc, key),
    }
}

/// A list of `low` to `high` members at a key, or the default.
#[tactic(auto, using(crate::proofs::Placed::gives_placed, crate::proofs::Placed::if_placed))]
pub fn list_or<T: Member + Drop>(
    alloc: Global,
    sizes: Sizes,
    object: &Value,
    key: &str,
    low: u64,
    high: u64,
    default: List<T>,
) -> Result<List<T>, Refusal>
    requires cpus { sizes.cpus ≤ 32 }
    requires queues { sizes.queues ≤ 16 }
    requires default_within { All (T.IsWithin sizes) default }
    requires default_len { HasLength low high default }
    ensures gives { Gives result
        (optional key.now (list_of (T.reading sizes) low high) default (view object.now)) }
    ensures within { IfOk result (λ list. All (T.IsWithin sizes) list) }
    ensures len { IfOk result (λ list. HasLength low high list) }
{
    match object.get(key) {
        Some(value) => placed(alloc, key, list(alloc, sizes, value, low, high)),
        None => Ok(default),
    }
}
