//! The fields of flows and rules, and their masks.
ghost use Rattle.std.specs.Prelude.{◌≡◌};
ghost use Rattle.ntuple_rules.specs.Groups.{fields_with, significant_bits, looked_at, masked};
ghost use Rattle.ntuple_rules.specs.Groups.{shape_of};
ghost use Rattle.ntuple_rules.specs.Matches.{fits_proto, fits_version};

use crate::rule::{Rule, RuleKind};
use steer_base::{Flow, Pair, Proto};

/// The fields that rules look at, or a mask of each.
#[derive(Clone, Copy, Debug, PartialEq, Eq, Hash)]
pub struct Fields {
    /// The source address. An IPv4 address is in the low 32 bits, and the other bits are 0.
    pub src: u128,
    /// The destination address, likewise.
    pub dst: u128,
    /// The source port, 0 if ports are not looked at.
    pub sport: u16,
    /// The destination port, 0 if ports are not looked at.
    pub dport: u16,
}

/// What the rules of a group have in common: their kind, and the mask of each field.
#[derive(Clone, Copy, Debug, PartialEq, Eq)]
pub struct Shape {
    /// The packets that the rules are for.
    pub kind: RuleKind,
    /// The bits of each field that the rules compare.
    pub mask: Fields,
}

/// The fields with each bit cleared that the mask does not have.
pub fn masked(mask: Fields, fields: Fields) -> Fields
    ensures { result ≡ masked mask fields }
{
    Fields {
        src: fields.src & mask.src,
        dst: fields.dst & mask.dst,
        sport: fields.sport & mask.sport,
        dport: fields.dport & mask.dport,
    }
}

/// The addresses of a pair, with these ports.
pub fn fields_with(pair: Pair, sport: u16, dport: u16) -> Fields
    ensures { result ≡ fields_with pair sport dport }
{
    match pair {
        Pair::V4 { src, dst } => Fields {
            src: u128::from(src),
            dst: u128::from(dst),
            sport,
            dport,
        },
        Pair::V6 { src, dst } => Fields {
            src,
            dst,
            sport,
            dport,
        },
    }
}

/// Whether the kind is that of every packet of this version of IP.
fn fits_version(kind: RuleKind, pair: Pair) -> bool
    ensures { result ≡ fits_version kind pair }
{
    match (kind, pair) {
        (RuleKind::Ip4, Pair::V4 { .. }) => true,
        (RuleKind::Ip6, Pair::V6 { .. }) => true,
        _ => false,
    }
}

/// Whether the kind is that of this protocol over this version of IP.
fn fits_proto(kind: RuleKind, pair: Pair, proto: Proto) -> bool
    ensures { result ≡ fits_proto kind pair proto }
{
    match (kind, pair, proto) {
        (RuleKind::Tcp4, Pair::V4 { .. }, Proto::Tcp) => true,
        (RuleKind::Udp4, Pair::V4 { .. }, Proto::Udp) => true,
        (RuleKind::Tcp6, Pair::V6 { .. }, Proto::Tcp) => true,
        (RuleKind::Udp6, Pair::V6 { .. }, Proto::Udp) => true,
        _ => false,
    }
}

/// The fields of a flow that a rule of this kind looks at, with ports 0 for `Ip4` and `Ip6`. `None`
/// if the kind is not for this flow's version of IP and protocol.
pub fn looked_at(kind: RuleKind, flow: Flow) -> Option<Fields>
    ensures { result ≡ looked_at kind flow }
{
    match flow {
        Flow::Bare => None,
        Flow::Two(pair) => {
            if fits_version(kind, pair) {
                Some(fields_with(pair, 0, 0))
            } else {
                None
            }
        }
        Flow::Four(pair, proto, sport, dport) => {
            if fits_version(kind, pair) {
                Some(fields_with(pair, 0, 0))
            } else if fits_proto(kind, pair, proto) {
                Some(fields_with(pair, sport, dport))
            } else {
                None
            }
        }
    }
}

/// The kind and the masks of a rule. The masks of the ports are 0 for `Ip4` and `Ip6`.
pub fn shape_of(rule: &Rule) -> Shape
    ensures { result ≡ shape_of rule.now }
{
    let has_ports = !matches!(rule.kind, RuleKind::Ip4 | RuleKind::Ip6);
    Shape {
        kind: rule.kind,
        mask: Fields {
            src: rule.srcmask,
            dst: rule.dstmask,
            sport: if has_ports { rule.sportmask } else { 0 },
            dport: if has_ports { rule.dportmask } else { 0 },
        },
    }
}

/// The fields of a rule under its masks. A flow of the rule's kind matches if its fields under the
/// same masks are equal to them.
pub fn key_of(rule: &Rule) -> Fields
    ensures { result ≡ significant_bits rule.now }
{
    let fields = Fields {
        src: rule.src,
        dst: rule.dst,
        sport: rule.sport,
        dport: rule.dport,
    };
    masked(shape_of(rule).mask, fields)
}
