//! Runs on thousands of packets.
ghost use Rattle.std.specs.Prelude.{◌≤◌, length};
ghost use Rattle.steer_base.specs.declared.limits.TheConstants.{MAX_PACKETS};
ghost use Rattle.steer_model.specs.State.Ranges.{AreOfFlows};

use crate::captures::generated;
use crate::counts::all_came_through;
use crate::holds::{Hold, Holding, Thread, Until};
use crate::runs::{check_of, ran, run_of};
use crate::texts::{all_are_through, same_text};
use cap_gen::{Generated, generate};
use good_check::first_fault;
use history::History;
use history_check::is_regular;
use plan_reader::{Plan, read_plan};
use std::alloc::{AllocError, Global};
use std::process::Abort;
use std::sync::Wait;
use std::test::Fail;
use std::thread::Threads;
use steer_base::{OutOfMemory, Packet};

// Each of two workers waits for the other, so that a thread that plays both waits in vain.
const EACH_OTHER: [Hold; 2] = [
    (Thread::Worker(1), 1, Until::Called(Thread::Worker(2), 1)),
    (Thread::Worker(2), 1, Until::Called(Thread::Worker(1), 1)),
];

// Asserts that a history of a plan without commands is regular, and that no clause of a good
// history fails.
fn is_good(
    rt: &impl Abort,
    alloc: Global,
    plan: &Plan,
    packets: &[Packet],
    history: &History,
) -> Result<(), OutOfMemory>
    requires few { length packets.now ≤ MAX_PACKETS }
    requires flows { AreOfFlows packets.now }
{
    let apps = plan.apps.len() as u8;
    assert!(rt; is_regular(alloc, history, packets, apps)?);
    assert!(rt; plan.commands().is_empty());
    let fault = first_fault(alloc, plan, packets, None, history)?;
    assert!(rt; fault.is_none());
    Ok(())
}

// Runs a plan without commands, and asserts that all packets come through and that the history is
// good.
fn runs_well<R: Threads + Wait + Sync + Abort>(
    rt: &R,
    alloc: Global,
    plan: &Plan,
    packets: &[Packet],
    pace: &Holding,
) -> Result<(), OutOfMemory>
    requires few { length packets.now ≤ MAX_PACKETS }
    requires flows { AreOfFlows packets.now }
{
    let history = ran(rt, alloc, plan, packets, pace)?;
    all_came_through(rt, &history, packets.len());
    is_good(rt, alloc, plan, packets, &history)
}

// The report of a run of generated input, of which `check` says that it is good.
fn checked_report<R: Threads + Wait + Sync + Abort>(
    rt: &R,
    alloc: Global,
    made: &Generated,
    pace: &Holding,
) -> Result<Vec<u8>, Fail> {
    let got = run_of(rt, alloc, &made.plan, &made.capture, Vec::new(alloc), pace)?;
    assert!(rt; got.status == 0 && got.err.is_empty());
    assert!(rt; !pace.ran_out());
    let verdict = check_of(rt, alloc, &made.plan, &made.capture, &got.out)?;
    same_text(rt, &verdict.out, b"check good\n", 0);
    Ok(got.out)
}

#[test]
fn workers_run_beside_each_other(rt: HostRuntime) -> Result<(), Fail> {
    let alloc = rt.alloc();
    let made = generate(alloc, 7, 4096, 64)?;
    let pace = Holding::make(&EACH_OTHER, 4);
    let report = checked_report(&rt, alloc, &made, &pace)?;
    assert!(rt; pace.calls(Thread::Worker(1)) > 0 && pace.calls(Thread::Worker(2)) > 0);
    all_are_through(&rt, &report, 4096);
    Ok(())
}

#[test]
fn a_large_run_ends(rt: HostRuntime) -> Result<(), Fail> {
    let alloc = rt.alloc();
    let made = generate(alloc, 9, 131_072, 512)?;
    let pace = Holding::make(&[], 4);
    let report = checked_report(&rt, alloc, &made, &pace)?;
    all_are_through(&rt, &report, 131_072);
    Ok(())
}

// Puts so many of an item behind the text, with commas between them.
fn repeat(text: &mut Vec<u8>, item: &[u8], count: u8) -> Result<(), AllocError> {
    for i in 0..count {
        if i > 0 {
            text.push(b',')?;
        }
        text.extend_from_slice(item)?;
    }
    Ok(())
}

// 16 receive queues, 32 processors, applications and transmit queues, and eight workers.
fn wide_plan(alloc: Global) -> Result<Vec<u8>, AllocError> {
    let mut text = br#"{"cpus":32,"queues":["#.to_vec(alloc)?;
    let queue = br#"{"home":0,"mask":[0,1,2,3,4,5,6,7,8,9,10,11,12,13,14,15,16,17,18,19,20,21,22,
        23,24,25,26,27,28,29,30,31],"flows":256}"#;
    repeat(&mut text, queue.as_slice(), 16)?;
    text.extend_from_slice(
        br#"],"sock":1024,"filters":256,"backlog":64,"apps":[0,1,2,3,4,5,6,7,8,9,10,11,12,13,14,15,
        16,17,18,19,20,21,22,23,24,25,26,27,28,29,30,31],"tx":["#,
    )?;
    repeat(&mut text, br#"{"cpus":[],"queues":[]}"#, 32)?;
    text.extend_from_slice(br#"],"workers":8,"steps":[]}"#)?;
    Ok(text)
}

#[test]
fn a_wide_plan_brings_all_packets_through(rt: HostRuntime) -> Result<(), Fail> {
    let alloc = rt.alloc();
    let plan = read_plan(alloc, &wide_plan(alloc)?)?;
    let packets = generated(alloc, &plan, 20_000, 500)?;
    let pace = Holding::make(&[], plan.workers);
    assert!(rt; (plan.workers, packets.len()) == (8, 20_000));
    runs_well(&rt, alloc, &plan, &packets, &pace)?;
    Ok(())
}
