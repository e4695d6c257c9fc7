//! The members of a list.
ghost use Rattle.std.specs.Prelude.{◌≡◌, ◌≤◌, All, IfOk, Result, length};
ghost use Rattle.serde_json.specs.Data.{Data};
ghost use Rattle.serde_json.specs.View.{view, items_view};
ghost use Rattle.plan_reader.specs.Faults.{Gives};
ghost use Rattle.plan_reader.specs.Readings.{each};
ghost use Rattle.plan_reader.specs.declared.faults.fault.Fault.{Fault as AFault};
ghost use Rattle.plan_reader.specs.declared.settings.sizes.Sizes.{Sizes as TheSizes};

use crate::faults::fault::Refusal;
use crate::faults::placed::numbered;
use crate::settings::sizes::Sizes;
use serde_json::Value;
use std::alloc::Global;
use steer_base::List;

/// What a list of a plan may hold.
pub trait Member: Sized {
    // What a value says, under the sizes of the plan.
    ghost reading: { TheSizes → Data → Result Self AFault };

    // Whether it is within its ranges.
    ghost IsWithin: { TheSizes → Self → Type 0 };

    /// Reads a member.
    fn read(alloc: Global, sizes: Sizes, value: &Value) -> Result<Self, Refusal>
        requires cpus { sizes.cpus ≤ 32 }
        requires queues { sizes.queues ≤ 16 }
        ensures gives { Gives result (reading sizes (view value.now)) }
        ensures within { IfOk result (λ member. IsWithin sizes member) };
}

/// Reads each member of a list.
pub fn each<T: Member + Drop>(
    alloc: Global,
    sizes: Sizes,
    items: &Vec<Value>,
) -> Result<List<T>, Refusal>
    requires cpus { sizes.cpus ≤ 32 }
    requires queues { sizes.queues ≤ 16 }
    ensures gives { Gives result (each (T.reading sizes) 0 (items_view items.now.items)) }
    ensures within { IfOk result (λ list. All (T.IsWithin sizes) list) }
    ensures len { IfOk result (λ list. length list ≡ length items.now.items) }
{
    let mut members = Vec::with_capacity(alloc, items.len())?;
    for (position, item) in items.iter().enumerate() {
        let member = numbered(alloc, position, T::read(alloc, sizes, item))?;
        members.push(member)?;
    }
    Ok(List::from_vec(members))
}
