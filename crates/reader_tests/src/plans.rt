//! Plans by their texts, and the faults of texts that are no plan.
use crate::pieces::{joined, same, same_items};
use plan_reader::{Plan, PlanFault, QueuePlan, Steps, TxPlan, read_plan};
use std::alloc::{AllocError, Global};
use std::process::Abort;
use std::test::Fail;
use steer_base::{AppId, Command, Cpu, CpuMask, RxQueue, Step, TxQueue};
use toeplitz::VERIFICATION_KEY;

/// A plan of four processors and one of all else, but for its further keys and its steps.
const SETTINGS: &str = "{\"cpus\":4,\"queues\":[{\"home\":0,\"mask\":[1],\"flows\":1}],\
\"sock\":4,\"apps\":[2],\"tx\":[{\"cpus\":[],\"queues\":[]}]";

/// That plan with further keys and these steps.
fn text_with(alloc: Global, more: &[u8], steps: &[u8]) -> Result<Vec<u8>, AllocError> {
    joined(
        alloc,
        &[SETTINGS.as_bytes(), more, b",\"steps\":", steps, b"}"],
    )
}

/// The words, the path and the number of a line that names a fault.
fn shown(fault: &PlanFault) -> (&str, &[u8], u64) {
    match fault {
        PlanFault::NotJson => ("not json", b"", 0),
        PlanFault::Missing { path } => ("missing", path.as_slice(), 0),
        PlanFault::WrongKind { path } => ("wrong kind", path.as_slice(), 0),
        PlanFault::Range { path, value } => ("range", path.as_slice(), *value),
        PlanFault::UnknownKey { path } => ("unknown key", path.as_slice(), 0),
        PlanFault::TooLong { steps } => ("too long", b"", *steps),
        PlanFault::OutOfMemory => ("out of memory", b"", 0),
    }
}

/// Whether the bytes have this fault.
fn has_fault(alloc: Global, bytes: &[u8], kind: &str, path: &str, value: u64) -> bool {
    match read_plan(alloc, bytes) {
        Ok(_) => false,
        Err(fault) => {
            let (words, place, number) = shown(&fault);
            words == kind && place == path.as_bytes() && number == value
        }
    }
}

/// Asserts that the bytes of a case have this fault.
fn is_refused(rt: &impl Abort, alloc: Global, bytes: &[u8], fault: (&str, &str, u64), case: usize) {
    let (kind, path, value) = fault;
    same(rt, &has_fault(alloc, bytes, kind, path, value), &true, case);
}

/// A text, and its fault: its words, its path and its number.
type TextFault<'a> = (&'a str, &'a str, &'a str, u64);

/// Asserts that each text has its fault.
fn texts_are_refused(rt: &impl Abort, alloc: Global, cases: &[TextFault<'_>]) {
    for (i, &(text, kind, path, value)) in cases.iter().enumerate() {
        is_refused(rt, alloc, text.as_bytes(), (kind, path, value), i);
    }
}

/// Texts that are refused whole, or by their first key.
const NO_PLANS: [TextFault; 8] = [
    ("{", "not json", "", 0),
    ("", "not json", "", 0),
    ("{\"cpus\":1e400}", "not json", "", 0),
    ("{\"zeal\":\"\\ud800\"}", "not json", "", 0),
    ("{}", "missing", "cpus", 0),
    ("[]", "wrong kind", "", 0),
    ("null", "wrong kind", "", 0),
    ("{\"cpus\":33}", "range", "cpus", 33),
];

#[test]
fn texts_that_are_no_plan(rt: HostRuntime) {
    texts_are_refused(&rt, rt.alloc(), &NO_PLANS);
    let no_text = b"{\"a\":\"\xff\"}";
    is_refused(&rt, rt.alloc(), no_text, ("not json", "", 0), 8);
}

/// Faults of a few keys.
const WHOLE_TEXTS: [TextFault; 8] = [
    ("{\"cpus\":0}", "range", "cpus", 0),
    ("{\"cpus\":null}", "wrong kind", "cpus", 0),
    ("{\"cpus\":-0}", "wrong kind", "cpus", 0),
    ("{\"cpus\":18446744073709551616}", "wrong kind", "cpus", 0),
    (
        "{\"cpus\":18446744073709551615}",
        "range",
        "cpus",
        18446744073709551615,
    ),
    ("{\"cpus\":1,\"cp\\u0075s\":34}", "range", "cpus", 34),
    (
        "{\"cpus\":4,\"queues\":[{}],\"zeal\":1}",
        "missing",
        "queues/0/home",
        0,
    ),
    ("{\"cpus\":4,\"queues\":[]}", "range", "queues", 0),
];

#[test]
fn faults_of_whole_texts(rt: HostRuntime) {
    texts_are_refused(&rt, rt.alloc(), &WHOLE_TEXTS);
}

/// A further key, steps, and the fault that they make: its words, its path and its number.
type Fault<'a> = (&'a str, &'a str, &'a str, &'a str, u64);

/// Asserts that each case has its fault.
fn are_refused(rt: &impl Abort, alloc: Global, cases: &[Fault<'_>]) -> Result<(), Fail> {
    for (i, case) in cases.iter().enumerate() {
        case_is_refused(rt, alloc, *case, i)?;
    }
    Ok(())
}

fn case_is_refused(rt: &impl Abort, alloc: Global, case: Fault<'_>, i: usize) -> Result<(), Fail> {
    let (more, steps, kind, path, value) = case;
    let text = text_with(alloc, more.as_bytes(), steps.as_bytes())?;
    is_refused(rt, alloc, &text, (kind, path, value), i);
    Ok(())
}

/// Faults of keys and of queues.
const KEYS: [Fault; 8] = [
    (",\"zeal\":1", "[]", "unknown key", "zeal", 0),
    (",\"zeal\":1,\"\":2", "[]", "unknown key", "", 0),
    (",\"sock\":4.0", "[]", "wrong kind", "sock", 0),
    (",\"sock\":-1", "[]", "wrong kind", "sock", 0),
    (",\"sock\":65537", "[]", "range", "sock", 65537),
    (
        ",\"queues\":[{\"home\":4,\"mask\":[],\"flows\":0}]",
        "[]",
        "range",
        "queues/0/home",
        4,
    ),
    (
        ",\"queues\":[{\"home\":0,\"mask\":[1,4],\"flows\":0}]",
        "[]",
        "range",
        "queues/0/mask/1",
        4,
    ),
    (
        ",\"queues\":[{\"home\":0,\"mask\":[],\"flows\":0,\"b\":0,\"a\":0}]",
        "[]",
        "unknown key",
        "queues/0/a",
        0,
    ),
];

#[test]
fn faults_of_keys(rt: HostRuntime) -> Result<(), Fail> {
    are_refused(&rt, rt.alloc(), &KEYS)
}

/// Faults of settings.
const SETTINGS_FAULTS: [Fault; 7] = [
    (",\"queues\":[7]", "[]", "wrong kind", "queues/0", 0),
    (",\"key\":\"6d5a\"", "[]", "wrong kind", "key", 0),
    (",\"reta\":[]", "[]", "range", "reta", 0),
    (",\"backlog\":0", "[]", "range", "backlog", 0),
    (",\"start\":4294967296", "[]", "range", "start", 4294967296),
    (",\"limited\":[true]", "[]", "wrong kind", "limited/0", 0),
    (",\"tx\":[{\"cpus\":[]}]", "[]", "missing", "tx/0/queues", 0),
];

#[test]
fn faults_of_settings(rt: HostRuntime) -> Result<(), Fail> {
    are_refused(&rt, rt.alloc(), &SETTINGS_FAULTS)
}

/// Faults of transmit queues and detaches.
const TRANSMIT_QUEUES: [Fault; 7] = [
    (
        ",\"tx\":[{\"cpus\":[],\"queues\":[1]}]",
        "[]",
        "range",
        "tx/0/queues/0",
        1,
    ),
    (",\"tx\":[{\"cpus\":1}]", "[]", "wrong kind", "tx/0/cpus", 0),
    (
        ",\"tx\":[{\"cpus\":[],\"queues\":[],\"zeal\":1}]",
        "[]",
        "unknown key",
        "tx/0/zeal",
        0,
    ),
    (
        ",\"detach\":[{\"tap\":0}]",
        "[]",
        "missing",
        "detach/0/after",
        0,
    ),
    (
        ",\"detach\":[{\"tap\":\"0\"}]",
        "[]",
        "wrong kind",
        "detach/0/tap",
        0,
    ),
    (
        ",\"detach\":[{\"tap\":0,\"after\":0,\"zeal\":1}]",
        "[]",
        "unknown key",
        "detach/0/zeal",
        0,
    ),
    (
        ",\"detach\":[{\"tap\":0,\"after\":0},{\"tap\":32}]",
        "[]",
        "range",
        "detach/1/tap",
        32,
    ),
];

#[test]
fn faults_of_transmit_queues_and_detaches(rt: HostRuntime) -> Result<(), Fail> {
    are_refused(&rt, rt.alloc(), &TRANSMIT_QUEUES)
}

/// Faults of steps.
const STEPS: [Fault; 10] = [
    ("", "4", "wrong kind", "steps", 0),
    ("", "{\"seed\":1}", "missing", "steps/count", 0),
    (
        "",
        "{\"seed\":1,\"count\":1000000}",
        "range",
        "steps/count",
        1000000,
    ),
    ("", "{\"seed\":1.0}", "wrong kind", "steps/seed", 0),
    (
        "",
        "{\"seed\":1,\"count\":1,\"zeal\":1}",
        "unknown key",
        "steps/zeal",
        0,
    ),
    ("", "[\"poll x\"]", "wrong kind", "steps/0", 0),
    ("", "[\"arrive\",\"poll 0 \"]", "wrong kind", "steps/1", 0),
    ("", "[\"mask 1 0,9,x\"]", "wrong kind", "steps/0", 0),
    ("", "[\"mask 1 0,9,8\"]", "range", "steps/0", 1),
    ("", "[\"mask 0 0,9,8\"]", "range", "steps/0", 9),
];

#[test]
fn faults_of_steps(rt: HostRuntime) -> Result<(), Fail> {
    are_refused(&rt, rt.alloc(), &STEPS)
}

/// `count` times a piece between two texts.
fn repeated(
    alloc: Global,
    first: &[u8],
    piece: &[u8],
    count: usize,
    last: &[u8],
) -> Result<Vec<u8>, AllocError> {
    let mut text = Vec::from_slice(alloc, first)?;
    for _ in 0..count {
        text.extend_from_slice(piece)?;
    }
    text.extend_from_slice(last)?;
    Ok(text)
}

/// Asserts the fault of a list of zeros, one and so many more.
fn list_is_refused(
    rt: &impl Abort,
    alloc: Global,
    more: usize,
    fault: (&str, &str, u64),
) -> Result<(), Fail> {
    let steps = repeated(alloc, b"[0", b",0", more, b"]")?;
    let text = text_with(alloc, b"", &steps)?;
    is_refused(rt, alloc, &text, fault, more);
    Ok(())
}

/// Asserts the fault of so many lists, each in the next.
fn depth_is_refused(rt: &impl Abort, alloc: Global, depth: usize, kind: &str) -> Result<(), Fail> {
    let open = repeated(alloc, b"", b"[", depth, b"")?;
    let text = repeated(alloc, &open, b"]", depth, b"")?;
    is_refused(rt, alloc, &text, (kind, "", 0), depth);
    Ok(())
}

#[test]
fn long_and_deep_texts(rt: HostRuntime) -> Result<(), Fail> {
    let alloc = rt.alloc();
    list_is_refused(&rt, alloc, 999_999, ("wrong kind", "steps/0", 0))?;
    list_is_refused(&rt, alloc, 1_000_000, ("too long", "", 1_000_001))?;
    depth_is_refused(&rt, alloc, 127, "wrong kind")?;
    depth_is_refused(&rt, alloc, 128, "not json")?;
    depth_is_refused(&rt, alloc, 200, "not json")
}

/// The plan of a text.
fn plan_from(alloc: Global, more: &[u8], steps: &[u8]) -> Result<Plan, Fail> {
    let text = text_with(alloc, more, steps)?;
    read_plan(alloc, &text).map_err(|_| Fail::new("a fault"))
}

#[test]
fn fields_are_read(rt: HostRuntime) -> Result<(), Fail> {
    let more = b",\"limited\":[3,0,3],\"tries\":64";
    let plan = plan_from(rt.alloc(), more, b"[\"sweep\"]")?;
    has_given_lists(&rt, &plan);
    has_given_numbers(&rt, &plan);
    Ok(())
}

fn has_given_lists(rt: &impl Abort, plan: &Plan) {
    let queue = QueuePlan {
        home: Cpu(0),
        mask: CpuMask(2),
        flows: 1,
    };
    let tx = TxPlan {
        cpus: CpuMask(0),
        queues: 0,
    };
    same_items(rt, plan.queues.as_slice(), &[queue]);
    same_items(rt, plan.tx.as_slice(), &[tx]);
    same_items(rt, plan.apps.as_slice(), &[Cpu(2)]);
}

fn has_given_numbers(rt: &impl Abort, plan: &Plan) {
    same(rt, &(plan.cpus, plan.sock, plan.tries), &(4, 4, 64), 0);
    same(rt, &plan.limited, &CpuMask(9), 1);
}

#[test]
fn keys_that_are_not_given_have_defaults(rt: HostRuntime) -> Result<(), Fail> {
    let plan = plan_from(rt.alloc(), b"", b"[]")?;
    same_items(&rt, &plan.key, &VERIFICATION_KEY);
    has_default_numbers(&rt, &plan);
    has_default_lists(&rt, &plan);
    Ok(())
}

fn has_default_numbers(rt: &impl Abort, plan: &Plan) {
    let numbers = (plan.kinds, plan.filters, plan.backlog, plan.start);
    same(rt, &numbers, &(63, 0, 1000, 0), 0);
    same(rt, &(plan.limited, plan.workers), &(CpuMask(0), 1), 1);
}

fn has_default_lists(rt: &impl Abort, plan: &Plan) {
    let lens = (plan.reta.len(), plan.detach.len(), plan.commands().len());
    same(rt, &lens, &(128, 0, 0), 2);
}

/// The one step of a list of steps.
fn only_step(plan: &Plan) -> Option<Step> {
    match &plan.steps {
        Steps::List(list) if list.len() == 1 => list.as_slice().first().copied(),
        _ => None,
    }
}

/// Lists of one step.
const STEP_TEXTS: [(&str, Step); 12] = [
    ("[\"arrive\"]", Step::Arrive),
    ("[\"record 0000000009\"]", Step::Record(9)),
    ("[\"pull 3\"]", Step::Pull(3)),
    ("[\"tretire 0\"]", Step::TRetire(0)),
    ("[\"expire\"]", Step::Give(Command::Expire)),
    (
        "[\"mask 0 3,0,3\"]",
        Step::Give(Command::Mask(RxQueue(0), CpuMask(9))),
    ),
    (
        "[\"mask 0 -\"]",
        Step::Give(Command::Mask(RxQueue(0), CpuMask(0))),
    ),
    (
        "[\"flows 0 32768\"]",
        Step::Give(Command::Flows(RxQueue(0), 32768)),
    ),
    ("[\"sock 65536\"]", Step::Give(Command::Sock(65536))),
    (
        "[\"xqueues 0 0\"]",
        Step::Give(Command::XQueues(TxQueue(0), 1)),
    ),
    (
        "[\"reta 127 0\"]",
        Step::Give(Command::Reta(127, RxQueue(0))),
    ),
    (
        "[\"stand 0 3\"]",
        Step::Give(Command::Stand(AppId(0), Cpu(3))),
    ),
];

fn have_their_steps(rt: &impl Abort, alloc: Global, texts: &[(&str, Step)]) -> Result<(), Fail> {
    for (i, &(text, step)) in texts.iter().enumerate() {
        has_step(rt, alloc, text.as_bytes(), step, i)?;
    }
    Ok(())
}

/// Asserts that a list of steps has one, and which it is.
fn has_step(
    rt: &impl Abort,
    alloc: Global,
    list: &[u8],
    step: Step,
    case: usize,
) -> Result<(), Fail> {
    let plan = plan_from(alloc, b"", list)?;
    same(rt, &only_step(&plan), &Some(step), case);
    Ok(())
}

#[test]
fn texts_of_steps(rt: HostRuntime) -> Result<(), Fail> {
    have_their_steps(&rt, rt.alloc(), &STEP_TEXTS)
}

#[test]
fn commands_of_a_list(rt: HostRuntime) -> Result<(), Fail> {
    let plan = plan_from(
        rt.alloc(),
        b"",
        b"[\"arrive\",\"sock 0\",\"sweep\",\"online 1\"]",
    )?;
    let wanted = [Command::Sock(0), Command::Online(Cpu(1))];
    same_items(&rt, plan.commands(), &wanted);
    Ok(())
}

/// Asserts that the plan has just these steps.
fn has_steps(rt: &impl Abort, plan: &Plan, wanted: &[Step]) {
    assert!(rt; plan.step_count() as usize == wanted.len());
    for (i, step) in wanted.iter().enumerate() {
        same(rt, &plan.step_at(i as u32), step, i);
    }
}

const OF_42: [Step; 7] = [
    Step::Poll(11),
    Step::Drain(2),
    Step::Arrive,
    Step::Arrive,
    Step::Drain(12),
    Step::Ship(0),
    Step::Sweep,
];

// The first words of the seed 42 that the generator's author prints are a15c02b7, 7b47f409,
// ba1d3330, 83d2f293, bfa4784b and cbed606e: the last digit is the event, and the others are its
// number, modulo 13 queues, 31 processors, and one of all else.
#[test]
fn steps_of_a_seed(rt: HostRuntime) -> Result<(), Fail> {
    let more = repeated(
        rt.alloc(),
        b",\"cpus\":31,\"queues\":[",
        b"{\"home\":0,\"mask\":[],\"flows\":0},",
        12,
        b"{\"home\":0,\"mask\":[],\"flows\":0}]",
    )?;
    let plan = plan_from(rt.alloc(), &more, b"{\"seed\":42,\"count\":6}")?;
    has_steps(&rt, &plan, &OF_42);
    same(&rt, &plan.commands().len(), &0, 0);
    Ok(())
}
