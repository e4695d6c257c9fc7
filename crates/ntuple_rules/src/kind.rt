//! The kind of a rule.
ghost use Rattle.std.specs.Prelude.{◌≡◌, codes};
ghost use Rattle.serde_json.specs.View.{view};
ghost use Rattle.plan_reader.specs.Faults.{Gives, here};
ghost use Rattle.plan_reader.specs.Readings.{required};
ghost use Rattle.ntuple_rules.specs.Readings.{is_ipv4, kind_named, kind_of};

use crate::rule::RuleKind;
use plan_reader::faults::cause::Cause;
use plan_reader::faults::fault::Refusal;
use plan_reader::faults::placed::{here, placed};
use plan_reader::values::fields::missing;
use serde_json::Value;
use std::alloc::Global;

/// The kind that a text names.
#[tactic(auto, unfolding(crate::specs::Readings::kind_named))]
fn kind_named(text: &str) -> Option<RuleKind>
    ensures { result ≡ kind_named text.now }
{
    match text {
        "tcp4" => Some(RuleKind::Tcp4),
        "udp4" => Some(RuleKind::Udp4),
        "tcp6" => Some(RuleKind::Tcp6),
        "udp6" => Some(RuleKind::Udp6),
        "ip4" => Some(RuleKind::Ip4),
        "ip6" => Some(RuleKind::Ip6),
        _ => None,
    }
}

/// The kind that a JSON string names: `tcp4`, `udp4`, `tcp6`, `udp6`, `ip4` or `ip6`. Every other
/// value is `Cause::WrongKind`.
#[tactic(auto, unfolding(crate::specs::Readings::kind_of))]
pub fn kind_of(value: &Value) -> Result<RuleKind, Cause>
    ensures { result ≡ kind_of (view value.now) }
{
    let text = value.as_str().ok_or(Cause::WrongKind)?;
    kind_named(text).ok_or(Cause::WrongKind)
}

/// Whether rules of this kind have IPv4 addresses; the others have IPv6 addresses.
pub fn is_ipv4(kind: RuleKind) -> bool
    ensures { result ≡ is_ipv4 kind }
{
    match kind {
        RuleKind::Tcp4 | RuleKind::Udp4 | RuleKind::Ip4 => true,
        RuleKind::Tcp6 | RuleKind::Udp6 | RuleKind::Ip6 => false,
    }
}

/// The kind at the key `kind` of a rule, which must have it.
#[tactic(auto, using(plan_reader::proofs::Placed::gives_placed))]
pub fn required_kind(alloc: Global, object: &Value) -> Result<RuleKind, Refusal>
    ensures { Gives result (required (codes "kind") (λ v. here (kind_of v)) (view object.now)) }
{
    match object.get("kind") {
        Some(value) => placed(alloc, "kind", here(alloc, kind_of(value))),
        None => missing(alloc, "kind"),
    }
}
