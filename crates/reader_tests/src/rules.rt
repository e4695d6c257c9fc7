//! Rules by their texts, the faults of texts that have none, and the first matches of flows.
use crate::pieces::same;
use ntuple_rules::{
    Classifier, Rule, RuleKind, Rules, a_match_is_the_first, both_directions_fold_alike, fold,
    read_rules,
};
use plan_reader::PlanFault;
use std::alloc::{AllocError, Global};
use std::process::Abort;
use std::test::Fail;
use steer_base::{Flow, List, Pair, Proto, RxQueue};

/// Six rules, of which the fourth never matches first.
const SIX: &[u8] = b"{\"queues\":4,\"rules\":[\
{\"kind\":\"tcp4\",\"dport\":80,\"dportmask\":65535,\"queue\":1},\
{\"kind\":\"udp6\",\"src\":\"20010DB8000000000000000000000000\",\
\"srcmask\":\"ffffffff000000000000000000000000\",\"queue\":2},\
{\"kind\":\"ip4\",\"src\":\"0a000000\",\"srcmask\":\"ff000000\",\"sport\":5,\
\"sportmask\":65535,\"queue\":3},\
{\"kind\":\"tcp4\",\"dport\":80,\"dportmask\":65535,\"queue\":0},\
{\"kind\":\"ip6\",\"queue\":0},\
{\"kind\":\"ip4\",\"dst\":\"ffffffff\",\"dstmask\":\"00000001\",\"queue\":0}]}";

/// The words, the path and the number of a line that names a fault.
fn shown(fault: &PlanFault) -> (&str, &[u8], u64) {
    match fault {
        PlanFault::NotJson => ("not json", b"", 0),
        PlanFault::Missing { path } => ("missing", path.as_slice(), 0),
        PlanFault::WrongKind { path } => ("wrong kind", path.as_slice(), 0),
        PlanFault::Range { path, value } => ("range", path.as_slice(), *value),
        PlanFault::UnknownKey { path } => ("unknown key", path.as_slice(), 0),
        PlanFault::TooLong { steps } => ("too long", b"", *steps),
        PlanFault::OutOfMemory => ("out of memory", b"", 0),
    }
}

/// Whether the bytes have this fault.
fn has_fault(alloc: Global, text: &str, kind: &str, path: &str, value: u64) -> bool {
    match read_rules(alloc, text.as_bytes()) {
        Ok(_) => false,
        Err(fault) => {
            let (words, place, number) = shown(&fault);
            words == kind && place == path.as_bytes() && number == value
        }
    }
}

/// A text, and its fault: its words, its path and its number.
type TextFault<'a> = (&'a str, &'a str, &'a str, u64);

const FAULTS: [TextFault; 17] = [
    ("{", "not json", "", 0),
    ("[]", "wrong kind", "", 0),
    ("{}", "missing", "queues", 0),
    ("{\"queues\":17}", "range", "queues", 17),
    ("{\"queues\":0}", "range", "queues", 0),
    ("{\"queues\":1,\"kinds\":64}", "range", "kinds", 64),
    (
        "{\"queues\":1,\"symmetric\":1}",
        "wrong kind",
        "symmetric",
        0,
    ),
    ("{\"queues\":1,\"inner\":null}", "wrong kind", "inner", 0),
    ("{\"queues\":1}", "missing", "rules", 0),
    (
        "{\"queues\":1,\"rules\":[],\"zeal\":0}",
        "unknown key",
        "zeal",
        0,
    ),
    ("{\"queues\":1,\"rules\":[7]}", "wrong kind", "rules/0", 0),
    (
        "{\"queues\":1,\"rules\":[{\"queue\":0}]}",
        "missing",
        "rules/0/kind",
        0,
    ),
    (
        "{\"queues\":1,\"rules\":[{\"kind\":\"ip5\",\"queue\":9}]}",
        "wrong kind",
        "rules/0/kind",
        0,
    ),
    (
        "{\"queues\":1,\"rules\":[{\"kind\":\"ip6\",\"src\":\"0a000001\",\"queue\":0}]}",
        "wrong kind",
        "rules/0/src",
        0,
    ),
    (
        "{\"queues\":1,\"rules\":[{\"kind\":\"ip4\",\"sport\":65536,\"queue\":9}]}",
        "range",
        "rules/0/sport",
        65536,
    ),
    (
        "{\"queues\":1,\"rules\":[{\"kind\":\"ip4\",\"queue\":0},\
            {\"kind\":\"ip4\",\"queue\":1}]}",
        "range",
        "rules/1/queue",
        1,
    ),
    (
        "{\"queues\":1,\"rules\":[{\"kind\":\"ip4\",\"queue\":0,\"b\":0,\"a\":0}]}",
        "unknown key",
        "rules/0/a",
        0,
    ),
];

/// Asserts that each text has its fault.
fn are_refused(rt: &impl Abort, alloc: Global, cases: &[TextFault<'_>]) {
    for (i, &(text, kind, path, value)) in cases.iter().enumerate() {
        same(rt, &has_fault(alloc, text, kind, path, value), &true, i);
    }
}

#[test]
fn faults_of_rules(rt: HostRuntime) {
    are_refused(&rt, rt.alloc(), &FAULTS);
}

fn has_settings(rt: &impl Abort, rules: &Rules, numbers: (u8, u8), switches: (bool, bool)) {
    same(rt, &(rules.queues, rules.kinds), &numbers, 0);
    same(rt, &(rules.symmetric, rules.inner), &switches, 1);
}

fn has_second_of_six(rt: &impl Abort, rules: &Rules, wanted: Rule) {
    assert!(rt; rules.rules.len() == 6);
    same(rt, rules.rules.get(1), &wanted, 1);
}

#[test]
fn rules_have_their_fields_and_defaults(rt: HostRuntime) -> Result<(), Fail> {
    let rules = read_rules(rt.alloc(), SIX)?;
    has_settings(&rt, &rules, (4, 63), (false, false));
    let wanted = Rule {
        kind: RuleKind::Udp6,
        src: 0x2001_0db8 << 96,
        srcmask: 0xffff_ffff << 96,
        dst: 0,
        dstmask: 0,
        sport: 0,
        sportmask: 0,
        dport: 0,
        dportmask: 0,
        queue: RxQueue(2),
    };
    has_second_of_six(&rt, &rules, wanted);
    let text = b"{\"queues\":16,\"kinds\":0,\"symmetric\":true,\"inner\":true,\"rules\":[]}";
    let rules = read_rules(rt.alloc(), text)?;
    has_settings(&rt, &rules, (16, 0), (true, true));
    Ok(())
}

fn first_match(classifier: &Classifier, flow: &Flow) -> Option<u32> {
    classifier.find(flow)
}

/// A flow, and the number of the rule that it matches first.
type Match = (Flow, Option<u32>);

/// Asserts the first match of each flow.
fn are_found(rt: &impl Abort, classifier: &Classifier, matches: &[Match]) {
    for (i, (flow, wanted)) in matches.iter().enumerate() {
        same(rt, &first_match(classifier, flow), wanted, i);
    }
}

const INSIDE: Pair = Pair::V4 {
    src: 0x0a01_0203,
    dst: 2,
};

const OUTSIDE: Pair = Pair::V4 {
    src: 0x0b01_0203,
    dst: 2,
};

const ODD: Pair = Pair::V4 {
    src: 0x0b01_0203,
    dst: 3,
};

const KNOWN: Pair = Pair::V6 {
    src: 0x2001_0db8_0000_0000_0000_0000_0000_0001,
    dst: 2,
};

const UNKNOWN: Pair = Pair::V6 { src: 1, dst: 2 };

const OF_SIX: [Match; 11] = [
    (Flow::Bare, None),
    (Flow::Four(OUTSIDE, Proto::Tcp, 9, 80), Some(0)),
    (Flow::Four(INSIDE, Proto::Tcp, 5, 80), Some(0)),
    (Flow::Four(INSIDE, Proto::Tcp, 9, 81), Some(2)),
    (Flow::Four(INSIDE, Proto::Udp, 9, 80), Some(2)),
    (Flow::Two(INSIDE), Some(2)),
    (Flow::Two(OUTSIDE), None),
    (Flow::Two(ODD), Some(5)),
    (Flow::Four(KNOWN, Proto::Udp, 1, 1), Some(1)),
    (Flow::Four(KNOWN, Proto::Tcp, 1, 1), Some(4)),
    (Flow::Four(UNKNOWN, Proto::Udp, 1, 1), Some(4)),
];

#[test]
fn the_first_match_is_found(rt: HostRuntime) -> Result<(), Fail> {
    a_match_is_the_first();
    let rules = read_rules(rt.alloc(), SIX)?;
    let classifier = Classifier::make(rt.alloc(), &rules)?;
    are_found(&rt, &classifier, &OF_SIX);
    Ok(())
}

/// Three rules, of which the first and the last have the same masks.
const THREE: &[u8] = b"{\"queues\":4,\"rules\":[\
{\"kind\":\"tcp4\",\"dport\":80,\"dportmask\":65535,\"queue\":1},\
{\"kind\":\"ip4\",\"src\":\"0a000000\",\"srcmask\":\"ff000000\",\"queue\":2},\
{\"kind\":\"tcp4\",\"dport\":443,\"dportmask\":65535,\"queue\":3}]}";

const OF_THREE: [Match; 5] = [
    (Flow::Four(INSIDE, Proto::Tcp, 9, 80), Some(0)),
    (Flow::Four(INSIDE, Proto::Tcp, 9, 443), Some(1)),
    (Flow::Four(OUTSIDE, Proto::Tcp, 9, 80), Some(0)),
    (Flow::Four(OUTSIDE, Proto::Tcp, 9, 443), Some(2)),
    (Flow::Four(OUTSIDE, Proto::Udp, 9, 443), None),
];

#[test]
fn a_match_between_two_of_the_same_masks_is_found(rt: HostRuntime) -> Result<(), Fail> {
    let rules = read_rules(rt.alloc(), THREE)?;
    let classifier = Classifier::make(rt.alloc(), &rules)?;
    are_found(&rt, &classifier, &OF_THREE);
    Ok(())
}

/// A rule for one source address, with a mask of the destination port that no other such rule has.
fn rule_of_its_own(number: u8) -> Rule {
    Rule {
        kind: RuleKind::Tcp4,
        src: 0x0a00_0000 + u128::from(number),
        srcmask: 0xffff_ffff,
        dst: 0,
        dstmask: 0,
        sport: 0,
        sportmask: 0,
        dport: 0,
        dportmask: u16::from(number) + 1,
        queue: RxQueue(0),
    }
}

fn twenty_rules(alloc: Global) -> Result<Rules, AllocError> {
    let mut list = Vec::new(alloc);
    for number in 0..20 {
        list.push(rule_of_its_own(number))?;
    }
    Ok(Rules {
        queues: 1,
        kinds: 63,
        symmetric: false,
        inner: false,
        rules: List::from_vec(list),
    })
}

/// A flow over TCP from an address to a port.
macro_rules! to_port {
    ($src:expr, $dport:expr) => {
        Flow::Four(Pair::V4 { src: $src, dst: 7 }, Proto::Tcp, 9, $dport)
    };
}

const OF_TWENTY: [Match; 6] = [
    (to_port!(0x0a00_0002, 0), Some(2)),
    (to_port!(0x0a00_0010, 0), Some(16)),
    (to_port!(0x0a00_0013, 0), Some(19)),
    (to_port!(0x0a00_0013, 11), Some(19)),
    (to_port!(0x0a00_0013, 20), None),
    (to_port!(0x0a00_0014, 0), None),
];

#[test]
fn rules_of_many_masks_are_found(rt: HostRuntime) -> Result<(), Fail> {
    let rules = twenty_rules(rt.alloc())?;
    assert!(rt; rules.rules.len() == 20);
    let classifier = Classifier::make(rt.alloc(), &rules)?;
    are_found(&rt, &classifier, &OF_TWENTY);
    Ok(())
}

const TO: Pair = Pair::V4 {
    src: 0x4209_95bb,
    dst: 0xa18e_6450,
};

const FROM: Pair = Pair::V4 {
    src: 0xa18e_6450,
    dst: 0x4209_95bb,
};

const FOLDED: Pair = Pair::V4 {
    src: 0xe387_f1eb,
    dst: 0xe387_f1eb,
};

/// A flow and its fold.
const FOLDS: [(Flow, Flow); 4] = [
    (Flow::Bare, Flow::Bare),
    (
        Flow::Two(Pair::V6 { src: 6, dst: 3 }),
        Flow::Two(Pair::V6 { src: 5, dst: 5 }),
    ),
    (
        Flow::Four(TO, Proto::Tcp, 2794, 1766),
        Flow::Four(FOLDED, Proto::Tcp, 3084, 3084),
    ),
    (
        Flow::Four(FROM, Proto::Tcp, 1766, 2794),
        Flow::Four(FOLDED, Proto::Tcp, 3084, 3084),
    ),
];

#[test]
fn both_directions_have_one_fold(rt: HostRuntime) {
    both_directions_fold_alike();
    for (i, (flow, wanted)) in FOLDS.iter().enumerate() {
        same(&rt, &fold(flow), wanted, i);
    }
}
