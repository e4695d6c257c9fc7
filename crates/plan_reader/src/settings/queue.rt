//! Reads the queues and the detached taps of a plan.
ghost use Rattle.std.specs.Prelude.{◌≡◌, ◌≤◌, IfOk};
ghost use Rattle.serde_json.specs.View.{view};
ghost use Rattle.plan_reader.specs.Faults.{Gives};
ghost use Rattle.plan_reader.specs.Ranges.{QueueIsWithin, TxIsWithin, DetachIsWithin};
ghost use Rattle.plan_reader.specs.Readings.{queue_plan, tx_of, detach_of};

use crate::faults::fault::Refusal;
use crate::plan::{QueuePlan, TxPlan};
use crate::values::fields::{required_below, required_number, required_set};
use crate::values::object::{an_object, only};
use serde_json::Value;
use std::alloc::Global;
use steer_base::{Cpu, CpuMask, Detach, MAX_FLOW_COUNT, MAX_PACKETS};

/// Reads a receive queue of a plan with this many processors.
#[tactic(auto, unfolding(crate::specs::Readings::queue_plan))]
pub fn queue_of(alloc: Global, cpus: u8, value: &Value) -> Result<QueuePlan, Refusal>
    requires { cpus ≤ 32 }
    ensures gives { Gives result (queue_plan cpus (view value.now)) }
    ensures within { IfOk result (QueueIsWithin cpus) }
{
    an_object(alloc, value)?;
    let home = required_below(alloc, value, "home", cpus)?;
    let mask = required_set(alloc, value, "mask", 32, cpus)?;
    let flows = required_number(alloc, value, "flows", 0, u64::from(MAX_FLOW_COUNT))?;
    only(alloc, value, &["home", "mask", "flows"])?;
    Ok(QueuePlan {
        home: Cpu(home),
        mask: CpuMask(mask),
        flows: flows as u32,
    })
}

/// Reads a transmit queue of a plan with this many processors and receive queues.
#[tactic(auto, unfolding(crate::specs::Readings::tx_of))]
pub fn tx_of(alloc: Global, cpus: u8, queues: u8, value: &Value) -> Result<TxPlan, Refusal>
    requires cpus { cpus ≤ 32 }
    requires queues { queues ≤ 16 }
    ensures gives { Gives result (tx_of cpus queues (view value.now)) }
    ensures within { IfOk result (TxIsWithin cpus queues) }
{
    an_object(alloc, value)?;
    let cpu_set = required_set(alloc, value, "cpus", 32, cpus)?;
    let served = required_set(alloc, value, "queues", 16, queues)?;
    only(alloc, value, &["cpus", "queues"])?;
    Ok(TxPlan {
        cpus: CpuMask(cpu_set),
        queues: served as u16,
    })
}

/// Reads which tap is detached, and after how many steps.
#[tactic(auto, unfolding(crate::specs::Readings::detach_of))]
pub fn detach_of(alloc: Global, value: &Value) -> Result<Detach, Refusal>
    ensures gives { Gives result (detach_of (view value.now)) }
    ensures within { IfOk result DetachIsWithin }
{
    an_object(alloc, value)?;
    let tap = required_number(alloc, value, "tap", 0, 31)?;
    let after = required_number(alloc, value, "after", 0, MAX_PACKETS as u64)?;
    only(alloc, value, &["tap", "after"])?;
    Ok(Detach {
        tap: tap as u32,
        after: after as u32,
    })
}
