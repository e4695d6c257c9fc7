//! What the list of rules holds.
use crate::reading::rule_of;
use crate::rule::Rule;
use plan_reader::Sizes;
use plan_reader::faults::fault::Refusal;
use plan_reader::values::member::Member;
use serde_json::Value;
use std::alloc::Global;

impl Member for Rule {
    ghost use Rattle.std.specs.Prelude.{◌<◌};
    ghost use Rattle.ntuple_rules.specs.Readings.{rule_of};

    ghost reading = { λ sizes d. rule_of sizes.queues d };

    ghost IsWithin = { λ sizes rule. rule.queue < sizes.queues };

    fn read(alloc: Global, sizes: Sizes, value: &Value) -> Result<Self, Refusal> {
        rule_of(alloc, sizes.queues, value)
    }
}
