//! Answers that are passed on from where a value stands.
ghost use Rattle.std.specs.Prelude.{◌≡◌, Err};
ghost use Rattle.std.specs.Fmt.{decimal};
ghost use Rattle.plan_reader.specs.Faults.{Gives, IsPlaced, here, under};

use crate::faults::cause::Cause;
use crate::faults::fault::Refusal;
use std::alloc::Global;

/// The result of reading a value, with a cause as a fault at an empty path.
pub fn here<T>(alloc: Global, answer: Result<T, Cause>) -> Result<T, Refusal>
    ensures { Gives result (here answer) }
{
    match answer {
        Ok(value) => Ok(value),
        Err(cause) => Err(Refusal::here(alloc, cause)),
    }
}

/// The result of reading the value at a key, with the key in front of the path of a fault.
pub fn placed<T>(alloc: Global, segment: &str, answer: Result<T, Refusal>) -> Result<T, Refusal>
    ensures { IsPlaced segment.now answer result }
{
    match answer {
        Ok(value) => Ok(value),
        Err(refusal) => Err(refusal.under(alloc, segment)),
    }
}

/// The result of reading the member of a list at a position, from 0, with the position in front of
/// the path of a fault.
pub fn numbered<T>(alloc: Global, position: usize, answer: Result<T, Refusal>) -> Result<T, Refusal>
    ensures { IsPlaced (decimal position) answer result }
{
    match answer {
        Ok(value) => Ok(value),
        Err(refusal) => {
            let mut digits = itoa::Buffer::new();
            Err(refusal.under(alloc, digits.format(position)))
        }
    }
}
