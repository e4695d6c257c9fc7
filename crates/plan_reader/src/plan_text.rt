//! The plan of bytes.
ghost use Rattle.std.specs.Prelude.{◌≡◌, ◌≢◌, IfOk, IfErr, Ok, Err};
ghost use Rattle.plan_reader.specs.Faults.{GivesAs};
ghost use Rattle.plan_reader.specs.Parts.{PartsAreWithin};
ghost use Rattle.plan_reader.specs.PlanTexts.{joined, plan_of, settings_of, settings_of_bytes};

use crate::faults::fault::Refusal;
use crate::json_text::{bounded_value, named};
use crate::plan::Plan;
use crate::plan_fault::PlanFault;
use crate::settings::parts::Parts;
use crate::steps::commands::commands_of;
use std::alloc::{AllocError, Global};

/// The fields of the plan of bytes. Their JSON value is given up at the end.
fn parts_of(alloc: Global, bytes: &[u8]) -> Result<Parts, Refusal>
    ensures gives { GivesAs joined result (settings_of_bytes bytes.now) }
    ensures within { IfOk result PartsAreWithin }
{
    let value = bounded_value(alloc, bytes)?;
    Parts::read(alloc, &value)
}

/// The plan of these fields.
fn plan_with(alloc: Global, parts: Parts) -> Result<Plan, AllocError>
    requires { PartsAreWithin parts }
    ensures { IfOk result (λ plan. settings_of plan ≡ joined parts) }
{
    let commands = commands_of(alloc, &parts.steps)?;
    let Parts {
        receive,
        tables,
        sends,
        steps,
    } = parts;
    let key = receive.key;
    Ok(Plan {
        cpus: receive.cpus,
        queues: receive.queues,
        key,
        kinds: receive.kinds,
        reta: receive.reta,
        sock: tables.sock,
        filters: tables.filters,
        backlog: tables.backlog,
        start: tables.start,
        limited: tables.limited,
        apps: sends.apps,
        tx: sends.tx,
        workers: sends.workers,
        tries: sends.tries,
        detach: sends.detach,
        steps,
        commands,
    })
}

/// Reads the plan of a JSON text (RFC 8259). The error is the first fault of the text in the order
/// of a plan's keys, with its path.
///
/// Memory may run out for any text; `OutOfMemory` says nothing about the plan. The JSON value of
/// the text, which can take a hundred times its bytes, is freed once the fields are read, before
/// the commands are listed. A text with more than 800,000 opening brackets, `{` and `[` together,
/// has the result `OutOfMemory`.
#[tactic(auto, unfolding(crate::specs::PlanTexts::plan_of))]
pub fn read_plan(alloc: Global, bytes: &[u8]) -> Result<Plan, PlanFault>
    ensures plan { IfOk result (λ plan. plan_of bytes.now ≡ Ok (settings_of plan)) }
    ensures fault { IfErr result
        (λ fault. fault ≢ PlanFault.OutOfMemory → plan_of bytes.now ≡ Err fault) }
{
    match parts_of(alloc, bytes) {
        Ok(parts) => match plan_with(alloc, parts) {
            Ok(plan) => Ok(plan),
            Err(_) => Err(PlanFault::OutOfMemory),
        },
        Err(refusal) => Err(named(refusal)),
    }
}
