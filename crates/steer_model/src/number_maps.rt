//! Maps from keys to numbers.
ghost use Rattle.std.specs.Prelude.{IfOk, OnErr};
ghost use Rattle.std.specs.BTreeMap.{IsUnchanged};
ghost use Rattle.steer_model.specs.Capture.NumberMaps.{IsNumberAt};

use std::collections::BTreeMap;
use steer_base::OutOfMemory;

/// The number at a key: the one that it has, else the next one.
pub fn number_at<K: Ord + Drop>(
    numbers: &mut BTreeMap<K, u32>,
    key: K,
    next: u32,
) -> Result<u32, OutOfMemory>
    ensures number { IfOk result (λ number.
        IsNumberAt K.cmp numbers.old numbers.new key next number) }
    ensures kept { OnErr result (IsUnchanged numbers.old numbers.new) }
{
    if let Some(number) = numbers.get(&key) {
        return Ok(*number);
    }
    match numbers.insert(key, next) {
        Ok(_) => Ok(next),
        Err(_) => Err(OutOfMemory),
    }
}
