//! The command `replay` where a plan is refused, the desk or a sink fails, or both are slow.
use crate::calls::{Outcome, called_failing, called_over, comes_to, desk_of, same};
use crate::files::{FRAME_A, HEADER, file, front};
use crate::plans::{
    FOUR_REPORT, FOUR_STEPS, ONE_FLOW, REPLAY, SWEPT, four_packets, plan_of, replayed_files,
};
use crate::slow::{Slowly, called_slowly};
use std::alloc::Global;
use std::process::Abort;
use std::test::Fail;

/// A plan, and the line that names its fault.
const FAULTS: [(&[u8], &[u8]); 8] = [
    (b"{", b"plan: not json\n"),
    (b"7", b"plan: wrong kind \n"),
    (b"{}", b"plan: missing cpus\n"),
    (br#"{"cpus":33}"#, b"plan: range cpus 33\n"),
    (
        br#"{"cpus":4,"queues":[{"home":0,"mask":[1],"flows":1}],"sock":4.0,"apps":[2],
            "tx":[{"cpus":[],"queues":[]}],"steps":[]}"#,
        b"plan: wrong kind sock\n",
    ),
    (
        br#"{"cpus":4,"queues":[{"home":0,"mask":[1],"flows":1}],"sock":-1,"apps":[2],
            "tx":[{"cpus":[],"queues":[]}],"steps":[]}"#,
        b"plan: wrong kind sock\n",
    ),
    (
        br#"{"cpus":4,"queues":[{"home":0,"mask":[1],"flows":1}],"sock":65537,"apps":[2],
            "tx":[{"cpus":[],"queues":[]}],"steps":[]}"#,
        b"plan: range sock 65537\n",
    ),
    (
        br#"{"cpus":4,"queues":[{"home":4,"mask":[1],"flows":1}]}"#,
        b"plan: range queues/0/home 4\n",
    ),
];

// The capture is missing each time: the plan is refused before it is asked for.
fn is_no_plan(
    rt: &impl Abort,
    alloc: Global,
    plan: &[u8],
    line: &[u8],
    case: usize,
) -> Result<(), Fail> {
    let got = called_over(alloc, &REPLAY, &[("p.json", plan)], &[])?;
    comes_to(rt, &got, 3, b"", line, case);
    Ok(())
}

fn are_no_plans(rt: &impl Abort, alloc: Global, cases: &[(&[u8], &[u8])]) -> Result<(), Fail> {
    for (case, &(plan, line)) in cases.iter().enumerate() {
        is_no_plan(rt, alloc, plan, line, case)?;
    }
    Ok(())
}

#[test]
fn what_is_no_plan_is_named(rt: HostRuntime) -> Result<(), Fail> {
    let alloc = rt.alloc();
    are_no_plans(&rt, alloc, &FAULTS)?;
    let brackets = vec![in alloc; b'['; 200]?;
    is_no_plan(&rt, alloc, &brackets, b"plan: not json\n", 8)?;
    let mut zeal = b"\"zeal\":1,".to_vec(alloc)?;
    zeal.extend_from_slice(ONE_FLOW)?;
    steps_are_refused(
        &rt,
        alloc,
        &zeal,
        FOUR_STEPS,
        b"plan: unknown key zeal\n",
        9,
    )?;
    let steps = br#""poll x","poll 0""#;
    steps_are_refused(
        &rt,
        alloc,
        ONE_FLOW,
        steps,
        b"plan: wrong kind steps/0\n",
        10,
    )
}

fn steps_are_refused(
    rt: &impl Abort,
    alloc: Global,
    settings: &[u8],
    steps: &[u8],
    line: &[u8],
    case: usize,
) -> Result<(), Fail> {
    let plan = plan_of(alloc, settings, steps)?;
    is_no_plan(rt, alloc, &plan, line, case)
}

#[test]
fn each_file_has_its_status(rt: HostRuntime) -> Result<(), Fail> {
    let alloc = rt.alloc();
    let (plan, capture) = four_packets(alloc)?;
    let long = vec![in alloc; b' '; 16_777_217]?;
    let got = replayed_files(alloc, &long, &capture, &[])?;
    comes_to(&rt, &got, 8, b"", b"plan too long\n", 0);
    let got = replayed_files(alloc, &plan, front(&HEADER, 23), &[])?;
    comes_to(&rt, &got, 4, b"", b"capture: short header 23\n", 1);
    let got = replayed_files(alloc, &plan, &capture, &[1])?;
    comes_to(&rt, &got, 5, b"", b"read fault\n", 2);
    let got = replayed_files(alloc, &plan, &capture, &[5])?;
    comes_to(&rt, &got, 5, b"", b"read fault\n", 3);
    Ok(())
}

#[test]
fn a_write_that_fails_leaves_the_lines_before_it(rt: HostRuntime) -> Result<(), Fail> {
    let mut before = 0;
    for failing in 1..14u64 {
        write_fails(&rt, rt.alloc(), failing, before)?;
        before = next_line(FOUR_REPORT, before);
    }
    same(&rt, &before, &FOUR_REPORT.len(), 14);
    Ok(())
}

// The write of this number fails, and so many bytes of the report go out.
fn write_fails(rt: &impl Abort, alloc: Global, failing: u64, before: usize) -> Result<(), Fail> {
    let got = four_failing(alloc, failing)?;
    let out = front(FOUR_REPORT, before);
    comes_to(rt, &got, 6, out, b"write fault\n", failing as usize);
    Ok(())
}

// What the replay of four packets of one flow comes to, where a write fails.
fn four_failing(alloc: Global, failing: u64) -> Result<Outcome, Fail> {
    let (plan, capture) = four_packets(alloc)?;
    failing_at(alloc, &plan, &capture, failing)
}

// What the replay of these files comes to, where the write of this number fails.
fn failing_at(alloc: Global, plan: &[u8], capture: &[u8], failing: u64) -> Result<Outcome, Fail> {
    let mut desk = desk_of(alloc, &[("p.json", plan), ("a.pcap", capture)], &[])?;
    called_failing(alloc, &REPLAY, &mut desk, &[failing], &[])
}

// Where the line after this place ends.
fn next_line(text: &[u8], from: usize) -> usize {
    let rest = text.get(from..).unwrap_or(&[]);
    match rest.iter().position(|byte| *byte == b'\n') {
        Some(at) => from.saturating_add(at).saturating_add(1),
        None => text.len(),
    }
}

#[test]
fn a_swept_packet_stops_at_the_third_write(rt: HostRuntime) -> Result<(), Fail> {
    let alloc = rt.alloc();
    let plan = plan_of(alloc, SWEPT, b"\"sweep\"")?;
    let capture = file(alloc, &[&FRAME_A])?;
    let got = failing_at(alloc, &plan, &capture, 3)?;
    let lines =
        b"steer 1\np 0 q 0 via reta class - want - head - tail - cpu 1 why plain at 1 app 0 \
        in 1 place inbox\n";
    comes_to(&rt, &got, 6, lines, b"write fault\n", 0);
    Ok(())
}

#[test]
fn one_byte_at_a_time_gives_the_same_report(rt: HostRuntime) -> Result<(), Fail> {
    let alloc = rt.alloc();
    let (plan, capture) = four_packets(alloc)?;
    let got = called_slowly(alloc, &REPLAY, Slowly::make(plan, capture))?;
    comes_to(&rt, &got, 0, FOUR_REPORT, b"", 0);
    Ok(())
}
