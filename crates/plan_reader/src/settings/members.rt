//! What the lists of a plan hold.
use crate::faults::fault::Refusal;
use crate::faults::placed::here;
use crate::plan::{QueuePlan, TxPlan};
use crate::settings::queue::{detach_of, queue_of, tx_of};
use crate::settings::sizes::Sizes;
use crate::steps::reading::step_value;
use crate::values::member::Member;
use crate::values::number::number_below;
use serde_json::Value;
use std::alloc::Global;
use steer_base::{Cpu, Detach, RxQueue, Step};

impl Member for QueuePlan {
    ghost use Rattle.plan_reader.specs.Ranges.{QueueIsWithin};
    ghost use Rattle.plan_reader.specs.Readings.{queue_plan};

    ghost reading = { λ sizes d. queue_plan sizes.cpus d };

    ghost IsWithin = { λ sizes queue. QueueIsWithin sizes.cpus queue };

    fn read(alloc: Global, sizes: Sizes, value: &Value) -> Result<Self, Refusal> {
        queue_of(alloc, sizes.cpus, value)
    }
}

impl Member for TxPlan {
    ghost use Rattle.plan_reader.specs.Ranges.{TxIsWithin};
    ghost use Rattle.plan_reader.specs.Readings.{tx_of};

    ghost reading = { λ sizes d. tx_of sizes.cpus sizes.queues d };

    ghost IsWithin = { λ sizes tx. TxIsWithin sizes.cpus sizes.queues tx };

    fn read(alloc: Global, sizes: Sizes, value: &Value) -> Result<Self, Refusal> {
        tx_of(alloc, sizes.cpus, sizes.queues, value)
    }
}

impl Member for Detach {
    ghost use Rattle.plan_reader.specs.Ranges.{DetachIsWithin};
    ghost use Rattle.plan_reader.specs.Readings.{detach_of};

    ghost reading = { λ sizes d. detach_of d };

    ghost IsWithin = { λ sizes detach. DetachIsWithin detach };

    fn read(alloc: Global, _sizes: Sizes, value: &Value) -> Result<Self, Refusal> {
        detach_of(alloc, value)
    }
}

impl Member for Cpu {
    ghost use Rattle.std.specs.Prelude.{◌<◌};
    ghost use Rattle.plan_reader.specs.Faults.{here};
    ghost use Rattle.plan_reader.specs.Readings.{number_below};

    ghost reading = { λ sizes d. here (number_below sizes.cpus d) };

    ghost IsWithin = { λ sizes cpu. cpu < sizes.cpus };

    fn read(alloc: Global, sizes: Sizes, value: &Value) -> Result<Self, Refusal> {
        let cpu = here(alloc, number_below(value, sizes.cpus))?;
        Ok(Cpu(cpu))
    }
}

impl Member for RxQueue {
    ghost use Rattle.std.specs.Prelude.{◌<◌};
    ghost use Rattle.plan_reader.specs.Faults.{here};
    ghost use Rattle.plan_reader.specs.Readings.{number_below};

    ghost reading = { λ sizes d. here (number_below sizes.queues d) };

    ghost IsWithin = { λ sizes queue. queue < sizes.queues };

    fn read(alloc: Global, sizes: Sizes, value: &Value) -> Result<Self, Refusal> {
        let queue = here(alloc, number_below(value, sizes.queues))?;
        Ok(RxQueue(queue))
    }
}

impl Member for Step {
    ghost use Rattle.std.specs.Prelude.{◌≡◌, true};
    ghost use Rattle.plan_reader.specs.Faults.{here};
    ghost use Rattle.plan_reader.specs.Ranges.{step_is_within};
    ghost use Rattle.plan_reader.specs.Readings.{step_value};

    ghost reading = { λ sizes d. here (step_value sizes d) };

    ghost IsWithin = { λ sizes step. step_is_within sizes step ≡ true };

    fn read(alloc: Global, sizes: Sizes, value: &Value) -> Result<Self, Refusal> {
        here(alloc, step_value(sizes, value))
    }
}
