//! The plan of a generated capture, as JSON text.
ghost use Rattle.std.specs.Prelude.{◌≡◌, ◌≤◌, IfOk, Ok};
ghost use Rattle.serde_json.specs.View.{view};
ghost use Rattle.serde_json.specs.Written.{compact_text};
ghost use Rattle.plan_reader.specs.PlanTexts.{plan_of};
ghost use Rattle.cap_gen.specs.PlanValues.{all_four, for_each, queue_value, tx_value, steps_value};
ghost use Rattle.cap_gen.specs.PlanValues.{plan_value};
ghost use Rattle.cap_gen.specs.Plans.{plan_for};

use serde_json::{Value, json};
use std::alloc::{AllocError, Global};

/// The numbers 0 to 3.
fn all_four(alloc: Global) -> Result<Value, AllocError>
    ensures { IfOk result (λ value. view value ≡ all_four) }
{
    json!(in alloc; [0u32, 1u32, 2u32, 3u32])
}

/// Receive queue `home`, with all four processors.
fn queue(alloc: Global, home: u32) -> Result<Value, AllocError>
    ensures { IfOk result (λ value. view value ≡ queue_value home) }
{
    let mask = all_four(alloc)?;
    json!(in alloc; {"flows": 256u32, "home": home, "mask": mask})
}

/// The four receive queues.
fn queues(alloc: Global) -> Result<Value, AllocError>
    ensures { IfOk result (λ value. view value ≡ for_each queue_value) }
{
    let first = queue(alloc, 0)?;
    let second = queue(alloc, 1)?;
    let third = queue(alloc, 2)?;
    let fourth = queue(alloc, 3)?;
    json!(in alloc; [first, second, third, fourth])
}

/// The transmit queue of a processor.
fn tx_queue(alloc: Global, cpu: u32) -> Result<Value, AllocError>
    ensures { IfOk result (λ value. view value ≡ tx_value cpu) }
{
    json!(in alloc; {"cpus": [cpu], "queues": []})
}

/// The four transmit queues.
fn tx_queues(alloc: Global) -> Result<Value, AllocError>
    ensures { IfOk result (λ value. view value ≡ for_each tx_value) }
{
    let first = tx_queue(alloc, 0)?;
    let second = tx_queue(alloc, 1)?;
    let third = tx_queue(alloc, 2)?;
    let fourth = tx_queue(alloc, 3)?;
    json!(in alloc; [first, second, third, fourth])
}

/// So many steps of a seed.
fn steps(alloc: Global, seed: u64, count: u32) -> Result<Value, AllocError>
    ensures { IfOk result (λ value. view value ≡ steps_value seed count) }
{
    json!(in alloc; {"count": count, "seed": seed})
}

/// The plan with so many steps of a seed.
fn plan_value(alloc: Global, seed: u64, count: u32) -> Result<Value, AllocError>
    ensures { IfOk result (λ value. view value ≡ plan_value seed count) }
{
    let apps = all_four(alloc)?;
    let queues = queues(alloc)?;
    let steps = steps(alloc, seed, count)?;
    let tx = tx_queues(alloc)?;
    json!(in alloc; {
        "apps": apps, "cpus": 4u32, "queues": queues, "sock": 1024u32, "steps": steps,
        "tx": tx, "workers": 4u32
    })
}

/// The text of that plan: JSON without blanks.
pub fn plan_text(alloc: Global, seed: u64, count: u32) -> Result<Vec<u8>, AllocError>
    requires { count ≤ 999999 }
    ensures text { IfOk result (λ text. text.items ≡ compact_text (plan_value seed count)) }
    ensures plan { IfOk result (λ text. plan_of text.items ≡ Ok (plan_for seed count)) }
{
    let value = plan_value(alloc, seed, count)?;
    value.to_vec(alloc)
}
