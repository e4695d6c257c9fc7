//! A list of numbers as a set.
ghost use Rattle.std.specs.Prelude.{◌≡◌, ◌≤◌, ◌<◌, ◌^◌, length, IfOk};
ghost use Rattle.serde_json.specs.View.{view, items_view};
ghost use Rattle.plan_reader.specs.Faults.{Gives, MapsTo};
ghost use Rattle.plan_reader.specs.Readings.{items, set, set_from};

use crate::faults::cause::Cause;
use crate::faults::fault::Refusal;
use crate::faults::placed::{here, numbered};
use crate::values::number::{in_range, number_below};
use serde_json::Value;
use std::alloc::Global;

/// The members of a JSON list. `Cause::WrongKind` for another value, and `Cause::Range` with their
/// number if it is not from `low` to `high`.
#[tactic(auto, using(crate::proofs::Views::lens))]
pub fn items(value: &Value, low: u64, high: u64) -> Result<&Vec<Value>, Cause>
    ensures gives { MapsTo (λ list. items_view list.now.items) result
        (items low high (view value.now)) }
    ensures within { IfOk result
        (λ list. (low ≤ length list.now.items) × (length list.now.items ≤ high)) }
{
    let list = value.as_array().ok_or(Cause::WrongKind)?;
    in_range(low, high, list.len() as u64)?;
    Ok(list)
}

/// A JSON list of at most `most` numbers below `limit`, as a set: bit n is number n.
pub fn set(alloc: Global, value: &Value, most: u64, limit: u8) -> Result<u32, Refusal>
    requires { limit ≤ 32 }
    ensures gives { Gives result (set most limit (view value.now)) }
    ensures within { IfOk result (λ bits. bits < 2 ^ limit) }
{
    let list = here(alloc, items(value, 0, most))?;
    bits_of_items(alloc, list, limit)
}

/// The set of numbers that are all below a limit.
fn bits_of_items(alloc: Global, items: &Vec<Value>, limit: u8) -> Result<u32, Refusal>
    requires { limit ≤ 32 }
    ensures gives { Gives result (set_from limit 0 0 (items_view items.now.items)) }
    ensures within { IfOk result (λ bits. bits < 2 ^ limit) }
{
    let mut bits = 0u32;
    for (position, item) in items.iter().enumerate() {
        let number = numbered(alloc, position, here(alloc, number_below(item, limit)))?;
        bits |= 1 << number;
    }
    Ok(bits)
}
