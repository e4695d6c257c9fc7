//! Reads rules from JSON text.
ghost use Rattle.std.specs.Prelude.{◌≡◌, ◌≢◌, IfOk, IfErr, Ok, Err};
ghost use Rattle.serde_json.specs.View.{view};
ghost use Rattle.plan_reader.specs.Faults.{Gives};
ghost use Rattle.ntuple_rules.specs.Readings.{rules_in, rules_of, rules_of_bytes};
ghost use Rattle.ntuple_rules.specs.Ranges.{RulesAreWithin};

use crate::reading::truth_or_false;
use crate::rules::{MAX_RULES, Rules};
use plan_reader::faults::fault::Refusal;
use plan_reader::json_text::{bounded_value, named};
use plan_reader::values::fields::{number_or, required_list, required_number};
use plan_reader::values::object::{an_object, only};
use plan_reader::{PlanFault, Sizes};
use serde_json::Value;
use std::alloc::Global;

/// Reads the rules of a JSON value.
#[tactic(auto, unfolding(crate::specs::Readings::rules_in))]
fn rules_in(alloc: Global, value: &Value) -> Result<Rules, Refusal>
    ensures gives { Gives result (rules_in (view value.now)) }
    ensures within { IfOk result RulesAreWithin }
{
    an_object(alloc, value)?;
    let queues = required_number(alloc, value, "queues", 1, 16)? as u8;
    let kinds = number_or(alloc, value, "kinds", 0, 63, 63)? as u8;
    let symmetric = truth_or_false(alloc, value, "symmetric")?;
    let inner = truth_or_false(alloc, value, "inner")?;
    let sizes = Sizes {
        cpus: 0,
        queues,
        apps: 0,
        tx: 0,
    };
    let rules = required_list(alloc, sizes, value, "rules", 0, u64::from(MAX_RULES))?;
    only(
        alloc,
        value,
        &["queues", "kinds", "symmetric", "inner", "rules"],
    )?;
    Ok(Rules {
        queues,
        kinds,
        symmetric,
        inner,
        rules,
    })
}

/// Reads the rules of bytes. The memory of their JSON value is freed at the end.
fn rules_of_bytes(alloc: Global, bytes: &[u8]) -> Result<Rules, Refusal>
    ensures gives { Gives result (rules_of_bytes bytes.now) }
    ensures within { IfOk result RulesAreWithin }
{
    let value = bounded_value(alloc, bytes)?;
    rules_in(alloc, &value)
}

/// Reads the rules of a JSON text (RFC 8259): an object with the number of queues, the hash kinds
/// and the list of rules. The error is the first fault of the text, with its path.
///
/// Memory may run out for any text; `OutOfMemory` says nothing about the rules. The JSON value of
/// the text, which can take a hundred times its bytes, is freed once the rules are read. The result
/// for a text with more than 800,000 opening brackets, `{` and `[` together, is `OutOfMemory`.
#[tactic(auto, unfolding(crate::specs::Readings::rules_of))]
pub fn read_rules(alloc: Global, bytes: &[u8]) -> Result<Rules, PlanFault>
    ensures rules { IfOk result (λ rules. rules_of bytes.now ≡ Ok rules) }
    ensures fault { IfErr result
        (λ fault. fault ≢ PlanFault.OutOfMemory → rules_of bytes.now ≡ Err fault) }
    ensures within { IfOk result RulesAreWithin }
{
    match rules_of_bytes(alloc, bytes) {
        Ok(rules) => Ok(rules),
        Err(refusal) => Err(named(refusal)),
    }
}
