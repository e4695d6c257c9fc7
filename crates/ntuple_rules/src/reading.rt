//! Reading a rule.
ghost use Rattle.std.specs.Prelude.{◌≡◌, ◌<◌, ◌≤◌, false, codes, if◌then◌else◌, IfOk};
ghost use Rattle.serde_json.specs.View.{view};
ghost use Rattle.plan_reader.specs.Faults.{Gives, here};
ghost use Rattle.plan_reader.specs.Readings.{only, optional};
ghost use Rattle.ntuple_rules.specs.Readings.{address_at, address_of, ipv4_address, ipv6_address};
ghost use Rattle.ntuple_rules.specs.Readings.{port_at, rule_keys, rule_of, truth};

use crate::kind::{is_ipv4, required_kind};
use crate::rule::Rule;
use hex::FromHex;
use plan_reader::faults::cause::Cause;
use plan_reader::faults::fault::Refusal;
use plan_reader::faults::placed::{here, placed};
use plan_reader::values::fields::{number_or, required_below};
use plan_reader::values::object::{an_object, only};
use serde_json::Value;
use std::alloc::Global;
use steer_base::RxQueue;

/// A text of 8 hexadecimal digits in upper or lower case.
#[tactic(auto, unfolding(crate::specs::Readings::ipv4_address))]
fn ipv4_address(text: &str) -> Option<u128>
    ensures { result ≡ ipv4_address text.now }
{
    let bytes = <[u8; 4] as FromHex>::from_hex(text).ok()?;
    Some(u128::from(u32::from_be_bytes(bytes)))
}

/// A text of 32 hexadecimal digits in upper or lower case.
#[tactic(auto, unfolding(crate::specs::Readings::ipv6_address))]
fn ipv6_address(text: &str) -> Option<u128>
    ensures { result ≡ ipv6_address text.now }
{
    let bytes = <[u8; 16] as FromHex>::from_hex(text).ok()?;
    Some(u128::from_be_bytes(bytes))
}

/// An address or a mask.
#[tactic(auto, unfolding(crate::specs::Readings::address_of))]
fn address_of(ipv4: bool, value: &Value) -> Result<u128, Cause>
    ensures { result ≡ address_of ipv4 (view value.now) }
{
    let text = value.as_str().ok_or(Cause::WrongKind)?;
    let address = if ipv4 {
        ipv4_address(text)
    } else {
        ipv6_address(text)
    };
    address.ok_or(Cause::WrongKind)
}

/// An address or a mask at a key, 0 if it is absent.
#[tactic(auto, using(plan_reader::proofs::Placed::gives_placed))]
fn address_at(alloc: Global, ipv4: bool, object: &Value, key: &str) -> Result<u128, Refusal>
    ensures { Gives result (address_at ipv4 key.now (view object.now)) }
{
    match object.get(key) {
        Some(value) => placed(alloc, key, here(alloc, address_of(ipv4, value))),
        None => Ok(0),
    }
}

/// A port or a mask at a key, 0 if it is absent.
fn port_at(alloc: Global, object: &Value, key: &str) -> Result<u16, Refusal>
    ensures { Gives result (port_at key.now (view object.now)) }
{
    let port = number_or(alloc, object, key, 0, 65_535, 0)?;
    Ok(port as u16)
}

/// The JSON `true` or `false` at a key, `false` if the key is absent. Every other value is
/// `Cause::WrongKind`.
#[tactic(auto, using(plan_reader::proofs::Placed::gives_placed))]
pub fn truth_or_false(alloc: Global, object: &Value, key: &str) -> Result<bool, Refusal>
    ensures { Gives result (optional key.now (λ v. here (truth v)) false (view object.now)) }
{
    match object.get(key) {
        Some(value) => placed(alloc, key, here(alloc, truth(value))),
        None => Ok(false),
    }
}

/// `true` or `false`.
fn truth(value: &Value) -> Result<bool, Cause>
    ensures { result ≡ truth (view value.now) }
{
    value.as_bool().ok_or(Cause::WrongKind)
}

/// Refuses an object that has another key than a rule.
fn only_known(alloc: Global, value: &Value) -> Result<(), Refusal>
    ensures { Gives result (only rule_keys (view value.now)) }
{
    let keys = [
        "kind",
        "src",
        "srcmask",
        "dst",
        "dstmask",
        "sport",
        "sportmask",
        "dport",
        "dportmask",
        "queue",
    ];
    only(alloc, value, &keys)
}

/// Reads a rule of a card with this many receive queues: a JSON object with a kind, addresses and
/// ports with their masks, which are 0 if absent, and a queue. The error is the first fault in this
/// order; a key that a rule does not have comes last.
#[tactic(auto, unfolding(crate::specs::Readings::rule_of))]
pub fn rule_of(alloc: Global, queues: u8, value: &Value) -> Result<Rule, Refusal>
    ensures gives { Gives result (rule_of queues (view value.now)) }
    ensures within { IfOk result (λ rule. rule.queue < queues) }
{
    an_object(alloc, value)?;
    let kind = required_kind(alloc, value)?;
    let ipv4 = is_ipv4(kind);
    let src = address_at(alloc, ipv4, value, "src")?;
    let srcmask = address_at(alloc, ipv4, value, "srcmask")?;
    let dst = address_at(alloc, ipv4, value, "dst")?;
    let dstmask = address_at(alloc, ipv4, value, "dstmask")?;
    let sport = port_at(alloc, value, "sport")?;
    let sportmask = port_at(alloc, value, "sportmask")?;
    let dport = port_at(alloc, value, "dport")?;
    let dportmask = port_at(alloc, value, "dportmask")?;
    let queue = required_below(alloc, value, "queue", queues)?;
    only_known(alloc, value)?;
    Ok(Rule {
        kind,
        src,
        srcmask,
        dst,
        dstmask,
        sport,
        sportmask,
        dport,
        dportmask,
        queue: RxQueue(queue),
    })
}
