//! Runs of plans, by the top call and by `run_threads`.
ghost use Rattle.std.specs.Prelude.{◌≤◌, IfOk, length};
ghost use Rattle.history.specs.Regular.{Regular};
ghost use Rattle.steer_base.specs.declared.limits.TheConstants.{MAX_PACKETS};
ghost use Rattle.steer_model.specs.State.Ranges.{AreOfFlows};

use crate::holds::Holding;
use history::History;
use outside_io::{MemoryDesk, MemorySink};
use plan_reader::Plan;
use std::alloc::Global;
use std::process::Abort;
use std::sync::Wait;
use std::test::Fail;
use std::thread::Threads;
use steer_base::{OutOfMemory, Packet};
use steer_top::{steer, steer_in_memory};
use taps::Tap;
use workers::run_threads;

/// The history of a run, in which no hold may run out.
pub fn ran<R: Threads + Wait + Sync + Abort>(
    rt: &R,
    alloc: Global,
    plan: &Plan,
    packets: &[Packet],
    pace: &Holding,
) -> Result<History, OutOfMemory>
    requires few { length packets.now ≤ MAX_PACKETS }
    requires flows { AreOfFlows packets.now }
    ensures regular { IfOk result (Regular packets.now (length plan.now.apps)) }
{
    let history = run_threads(rt, alloc, plan, packets, None, pace)?;
    assert!(rt; !pace.ran_out());
    Ok(history)
}

/// The bytes for which a sink of a test has room.
const ROOM: usize = 67_108_864;

/// What a call of the program came to.
#[derive(Drop)]
pub struct Outcome {
    /// Its status.
    pub status: u8,
    /// What went to standard output.
    pub out: Vec<u8>,
    /// What went to standard error.
    pub err: Vec<u8>,
}

/// The words of a call.
pub fn words_of(alloc: Global, texts: &[&str]) -> Result<Vec<String>, Fail> {
    let mut words = Vec::new(alloc);
    for text in texts {
        words.push(String::from_str(alloc, *text)?)?;
    }
    Ok(words)
}

// These files, each a name and its bytes.
fn files_of(alloc: Global, files: &[(&str, &[u8])]) -> Result<Vec<(String, Vec<u8>)>, Fail> {
    let mut held = Vec::new(alloc);
    for (name, bytes) in files {
        held.push((String::from_str(alloc, *name)?, bytes.to_vec(alloc)?))?;
    }
    Ok(held)
}

/// A desk with these files, whose calls with these numbers fail.
pub fn desk_of(
    alloc: Global,
    files: &[(&str, &[u8])],
    failing: &[u64],
) -> Result<MemoryDesk, Fail> {
    let held = files_of(alloc, files)?;
    Ok(MemoryDesk::make(held, failing.to_vec(alloc)?))
}

/// What a call of these words comes to, over these files, with these taps and this pace.
pub fn called_over<R: Threads + Wait + Sync>(
    rt: &R,
    alloc: Global,
    texts: &[&str],
    files: &[(&str, &[u8])],
    taps: Vec<Box<dyn Tap>>,
    pace: &Holding,
) -> Result<Outcome, Fail> {
    let words = words_of(alloc, texts)?;
    let held = files_of(alloc, files)?;
    let called = steer_in_memory(rt, alloc, &words, held, ROOM, taps, pace)?;
    Ok(Outcome {
        status: called.status,
        out: called.out.bytes().to_vec(alloc)?,
        err: called.err.bytes().to_vec(alloc)?,
    })
}

/// What a call of these words comes to, over this desk, where the writes of these numbers fail,
/// with these taps and this pace.
pub fn called<R: Threads + Wait + Sync>(
    rt: &R,
    alloc: Global,
    texts: &[&str],
    mut desk: MemoryDesk,
    failing: &[u64],
    taps: Vec<Box<dyn Tap>>,
    pace: &Holding,
) -> Result<Outcome, Fail> {
    let words = words_of(alloc, texts)?;
    let mut out = MemorySink::make(alloc, ROOM, failing.to_vec(alloc)?)?;
    let mut err = MemorySink::make(alloc, ROOM, Vec::new(alloc))?;
    let status = steer(rt, alloc, &words, &mut desk, &mut out, &mut err, taps, pace);
    Ok(Outcome {
        status,
        out: out.bytes().to_vec(alloc)?,
        err: err.bytes().to_vec(alloc)?,
    })
}

/// What a run of this plan on this capture comes to, with these taps.
pub fn run_of<'a, R: Threads + Wait + Sync>(
    rt: &R,
    alloc: Global,
    plan: &'a [u8],
    capture: &'a [u8],
    taps: Vec<Box<dyn Tap>>,
    pace: &Holding,
) -> Result<Outcome, Fail> {
    let files = [("p.json", plan), ("a.pcap", capture)];
    called_over(rt, alloc, &["run", "p.json", "a.pcap"], &files, taps, pace)
}

/// What `check` comes to by this plan and this capture of this report.
pub fn check_of<'a, R: Threads + Wait + Sync>(
    rt: &R,
    alloc: Global,
    plan: &'a [u8],
    capture: &'a [u8],
    report: &'a [u8],
) -> Result<Outcome, Fail> {
    let files = [("p.json", plan), ("a.pcap", capture), ("report", report)];
    let texts = ["check", "p.json", "a.pcap", "report"];
    let pace = Holding::make(&[], 1);
    called_over(rt, alloc, &texts, &files, Vec::new(alloc), &pace)
}
