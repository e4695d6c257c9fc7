//! Objects and their keys.
ghost use Rattle.std.specs.Prelude.{◌≡◌, bytes_eq, map, option_map};
ghost use Rattle.std.specs.List.{list_any};
ghost use Rattle.serde_json.specs.View.{view, members_view};
ghost use Rattle.plan_reader.specs.Faults.{Gives};
ghost use Rattle.plan_reader.specs.Readings.{an_object, first_unknown, only};

use crate::faults::cause::Cause;
use crate::faults::fault::Refusal;
use crate::faults::placed::{here, placed};
use serde_json::{Map, Value};
use std::alloc::Global;

/// Refuses a JSON value that is not an object, as `Cause::WrongKind`.
pub fn an_object(alloc: Global, value: &Value) -> Result<(), Refusal>
    ensures { Gives result (an_object (view value.now)) }
{
    if value.is_object() {
        Ok(())
    } else {
        here(alloc, Err(Cause::WrongKind))
    }
}

/// Whether a key is among these.
fn is_known(keys: &[&str], key: &str) -> bool
    ensures { result ≡ list_any (bytes_eq key.now) (map (λ known. known.now) keys.now) }
{
    for known in keys {
        if key == *known {
            return true;
        }
    }
    false
}

/// The first key that is none of these.
fn unknown_key<'m>(object: &'m Map<String, Value>, keys: &[&str]) -> Option<&'m str>
    ensures { option_map (λ key. key.now) result
        ≡ first_unknown (λ key. list_any (bytes_eq key) (map (λ known. known.now) keys.now))
        (members_view object.now.entries) }
{
    for (key, _) in object.iter() {
        let key = key.as_str();
        if !is_known(keys, key) {
            return Some(key);
        }
    }
    None
}

/// Refuses an object with a key that is none of these, as `Cause::UnknownKey` at the first such
/// key.
#[tactic(auto, using(crate::proofs::Placed::gives_placed))]
pub fn only(alloc: Global, value: &Value, keys: &[&str]) -> Result<(), Refusal>
    ensures { Gives result (only (map (λ known. known.now) keys.now) (view value.now)) }
{
    let Some(object) = value.as_object() else {
        return Ok(());
    };
    match unknown_key(object, keys) {
        Some(key) => placed(alloc, key, here(alloc, Err(Cause::UnknownKey))),
        None => Ok(()),
    }
}
