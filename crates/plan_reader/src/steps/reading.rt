//! The steps of a plan.
ghost use Rattle.std.specs.Prelude.{◌≡◌, ◌≤◌, IfOk, codes, true};
ghost use Rattle.serde_json.specs.View.{view, items_view};
ghost use Rattle.plan_reader.specs.Faults.{Gives};
ghost use Rattle.plan_reader.specs.Ranges.{StepsAreWithin, step_is_within};
ghost use Rattle.plan_reader.specs.Readings.{listed_steps, required, seed_of, step_value};
ghost use Rattle.plan_reader.specs.Readings.{read_steps};

use crate::faults::cause::Cause;
use crate::faults::fault::Refusal;
use crate::faults::placed::{here, placed};
use crate::plan::Steps;
use crate::settings::sizes::Sizes;
use crate::steps::text::step_of;
use crate::values::fields::{missing, required_number, required_whole};
use crate::values::member::each;
use crate::values::object::{an_object, only};
use serde_json::Value;
use std::alloc::Global;
use steer_base::{List, Step};

/// The number of steps a list may have.
const MOST_STEPS: usize = 1_000_000;

/// The step of a text.
pub fn step_value(sizes: Sizes, value: &Value) -> Result<Step, Cause>
    requires cpus { sizes.cpus ≤ 32 }
    requires queues { sizes.queues ≤ 16 }
    ensures gives { result ≡ step_value sizes (view value.now) }
    ensures within { IfOk result (λ step. step_is_within sizes step ≡ true) }
{
    let text = value.as_str().ok_or(Cause::WrongKind)?;
    step_of(sizes, text.as_bytes())
}

/// Steps of a seed.
#[tactic(auto, unfolding(crate::specs::Readings::seed_of))]
fn seed_of(alloc: Global, sizes: Sizes, value: &Value) -> Result<Steps, Refusal>
    ensures gives { Gives result (seed_of (view value.now)) }
    ensures within { IfOk result (StepsAreWithin sizes) }
{
    an_object(alloc, value)?;
    let seed = required_whole(alloc, value, "seed")?;
    let count = required_number(alloc, value, "count", 0, 999_999)?;
    only(alloc, value, &["seed", "count"])?;
    Ok(Steps::Seed {
        seed,
        count: count as u32,
    })
}

/// A list of steps.
#[tactic(auto, using(crate::proofs::Views::lens))]
fn listed_steps(alloc: Global, sizes: Sizes, items: &Vec<Value>) -> Result<Steps, Refusal>
    requires cpus { sizes.cpus ≤ 32 }
    requires queues { sizes.queues ≤ 16 }
    ensures gives { Gives result (listed_steps sizes (items_view items.now.items)) }
    ensures within { IfOk result (StepsAreWithin sizes) }
{
    if items.len() > MOST_STEPS {
        return here(alloc, Err(Cause::TooLong(items.len() as u64)));
    }
    let list: List<Step> = each(alloc, sizes, items)?;
    Ok(Steps::List(list))
}

/// The steps: a list of texts, or an object with a seed and a count.
#[tactic(auto, unfolding(crate::specs::Readings::read_steps))]
fn steps_of(alloc: Global, sizes: Sizes, value: &Value) -> Result<Steps, Refusal>
    requires cpus { sizes.cpus ≤ 32 }
    requires queues { sizes.queues ≤ 16 }
    ensures gives { Gives result (read_steps sizes (view value.now)) }
    ensures within { IfOk result (StepsAreWithin sizes) }
{
    match value.as_array() {
        Some(items) => listed_steps(alloc, sizes, items),
        None => seed_of(alloc, sizes, value),
    }
}

/// The steps of a plan.
#[tactic(auto, using(crate::proofs::Placed::gives_placed, crate::proofs::Placed::if_placed))]
pub fn required_steps(alloc: Global, sizes: Sizes, object: &Value) -> Result<Steps, Refusal>
    requires cpus { sizes.cpus ≤ 32 }
    requires queues { sizes.queues ≤ 16 }
    ensures gives { Gives result (required (codes "steps") (read_steps sizes) (view object.now)) }
    ensures within { IfOk result (StepsAreWithin sizes) }
{
    match object.get("steps") {
        Some(value) => placed(alloc, "steps", steps_of(alloc, sizes, value)),
        None => missing(alloc, "steps"),
    }
}
