//! The JSON value of a text, and the name of what is wrong with it.
ghost use Rattle.std.specs.Prelude.{◌≡◌, ◌==◌, ◌||◌, count_by, drop, nat_lt, Err};
ghost use Rattle.serde_json.specs.View.{view};
ghost use Rattle.plan_reader.specs.Faults.{GivesAs};
ghost use Rattle.plan_reader.specs.PlanTexts.{IsNamedOutside, json_of, value_of};

use crate::faults::cause::Cause;
use crate::faults::fault::Refusal;
use crate::faults::placed::here;
use crate::plan_fault::PlanFault;
use serde_json::Value;
use std::alloc::Global;
use steer_base::List;

/// The most opening brackets, of objects and arrays, of a text whose JSON value is made. An object
/// of one key takes some 940 bytes of memory, and one of 16 keys 3,500, so that the value of a text
/// of 16 MiB takes less than 1.2 GB.
const MOST_OPENING_BRACKETS: usize = 800_000;

/// Whether a text may have so many objects and arrays that its JSON value isn't made. A plan needs
/// at most 168 of them, and rules at most 4,098.
fn has_too_many_brackets(bytes: &[u8]) -> bool
    ensures { result
        ≡ nat_lt 800000 (count_by (λ byte. byte == 123 || byte == 91) bytes.now) }
{
    bytes
        .iter()
        .filter(|byte| **byte == b'{' || **byte == b'[')
        .count()
        > MOST_OPENING_BRACKETS
}

/// The JSON value of bytes.
fn value_of(alloc: Global, bytes: &[u8]) -> Result<Value, Refusal>
    ensures { GivesAs view result (json_of (value_of bytes.now)) }
{
    match Value::from_slice(alloc, bytes) {
        Ok(value) => Ok(value),
        Err(error) => {
            if error.is_memory() {
                return Err(Refusal::Memory);
            }
            here(alloc, Err(Cause::NotJson))
        }
    }
}

/// The JSON value of bytes (RFC 8259), or `Cause::NotJson`. A text with more opening brackets than
/// `MOST_OPENING_BRACKETS` is refused as if memory had run out, before its value is made.
pub fn bounded_value(alloc: Global, bytes: &[u8]) -> Result<Value, Refusal>
    ensures { GivesAs view result (json_of (value_of bytes.now)) }
{
    if has_too_many_brackets(bytes) {
        return Err(Refusal::Memory);
    }
    value_of(alloc, bytes)
}

/// The path without its first slash.
fn without_slash(path: List<u8>) -> List<u8>
    ensures { result ≡ drop 1 path }
{
    let mut bytes = path.into_vec();
    if !bytes.is_empty() {
        let _slash = bytes.remove(0);
    }
    List::from_vec(bytes)
}

/// The public fault of a refusal, whose path has no slash in front.
pub fn named(refusal: Refusal) -> PlanFault
    ensures { IsNamedOutside refusal result }
{
    let fault = match refusal {
        Refusal::Memory => return PlanFault::OutOfMemory,
        Refusal::Fault(fault) => fault,
    };
    let path = without_slash(fault.path);
    match fault.cause {
        Cause::NotJson => PlanFault::NotJson,
        Cause::Missing => PlanFault::Missing { path },
        Cause::WrongKind => PlanFault::WrongKind { path },
        Cause::Range(value) => PlanFault::Range { path, value },
        Cause::UnknownKey => PlanFault::UnknownKey { path },
        Cause::TooLong(steps) => PlanFault::TooLong { steps },
    }
}
