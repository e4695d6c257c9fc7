//! The redirection table.
ghost use Rattle.std.specs.Prelude.{◌≡◌, ◌≤◌, ◌<◌, All, IfOk, codes, length};
ghost use Rattle.serde_json.specs.View.{view};
ghost use Rattle.steer_base.specs.Arrivals.{even_entries};
ghost use Rattle.plan_reader.specs.Faults.{Gives, here};
ghost use Rattle.plan_reader.specs.Ranges.{HasLength};
ghost use Rattle.plan_reader.specs.Readings.{list_of, number_below, optional};

use crate::faults::fault::Refusal;
use crate::plan::QueuePlan;
use crate::settings::sizes::Sizes;
use crate::values::fields::list_or;
use serde_json::Value;
use std::alloc::{AllocError, Global};
use steer_base::{List, RxQueue, even_entries};

/// The redirection table of a plan with these queues: 128 numbers of queues. If it is absent, entry
/// i is queue i modulo the number of queues.
pub fn reta_or_even(
    alloc: Global,
    queues: &List<QueuePlan>,
    value: &Value,
) -> Result<List<RxQueue>, Refusal>
    requires { HasLength 1 16 queues.now }
    ensures gives { Gives result (optional (codes "reta")
        (list_of (λ v. here (number_below (length queues.now) v)) 128 128)
        (even_entries (length queues.now)) (view value.now)) }
    ensures within { IfOk result (λ table. All (λ queue. queue < length queues.now) table) }
    ensures len { IfOk result (λ table. HasLength 128 128 table) }
{
    let count = queues.len() as u8;
    let sizes = Sizes {
        cpus: 0,
        queues: count,
        apps: 0,
        tx: 0,
    };
    let even = even_table(alloc, count)?;
    list_or(alloc, sizes, value, "reta", 128, 128, even)
}

/// The table whose entry i is i modulo the number of queues.
fn even_table(alloc: Global, queues: u8) -> Result<List<RxQueue>, AllocError>
    requires { 1 ≤ queues }
    ensures entries { IfOk result (λ table. table ≡ even_entries queues) }
    ensures within { IfOk result (λ table. All (λ queue. queue < queues) table) }
    ensures len { IfOk result (λ table. length table ≡ 128) }
{
    Ok(List::from_vec(even_entries(queues).to_vec(alloc)?))
}
