//! The command `run` where words, files, the desk, the sink or a tap are at fault.
use crate::captures::of_one_flow;
use crate::holds::Holding;
use crate::runs::{Outcome, called, desk_of, run_of, words_of};
use crate::texts::same_text;
use history::PacketLine;
use outside_io::MemorySink;
use std::alloc::Global;
use std::process::Abort;
use std::sync::Wait;
use std::test::Fail;
use std::thread::Threads;
use steer_base::OutOfMemory;
use steer_top::steer_live;
use taps::{PerCpu, Tap, TapText};

const PLAN: &[u8] = br#"{"cpus":3,"queues":[{"home":0,"mask":[1],"flows":0}],"sock":0,"apps":[2],
    "tx":[{"cpus":[],"queues":[]}],"steps":["sweep"]}"#;

const RUN: [&str; 3] = ["run", "p.json", "a.pcap"];

const USAGE: &[u8] = b"usage: steer hash CAPTURE [QUEUES [KINDS]] | replay PLAN CAPTURE | run PLAN \
    CAPTURE | gen SEED PACKETS FLOWS | check PLAN CAPTURE REPORT | place RULES CAPTURE\n";

const FIRST_LINES: &[u8] = b"steer 1
p 0 q 0 via reta class - want - head - tail - cpu 1 why plain at 1 app 0 in 1 place inbox
";

const OTHER_LINES: &[u8] = b"r 0 app 0 rxq 0 cpu 2 pick 0 head - tail 0 tx 0 why unset at 1 port 1
queue 0 arrived 1 taken 1
cpu 0 accepted 0 pulled 0 delivered 0 retired 0 dropped 0
cpu 1 accepted 1 pulled 1 delivered 1 retired 1 dropped 0
cpu 2 accepted 0 pulled 0 delivered 0 retired 0 dropped 0
tx 0 accepted 1 pulled 1 delivered 1 retired 1
";

/// What goes wrong in a call: the calls of the desk, and the writes of standard output, that fail.
#[derive(Clone, Copy)]
struct Failing {
    desk: &'static [u64],
    out: &'static [u64],
}

/// Nothing goes wrong.
const NOTHING: Failing = Failing {
    desk: &[],
    out: &[],
};

/// A call: its words, its plan, its capture, what fails, its status, and what went to standard
/// output and to standard error.
type Call<'a> = (
    &'a [&'a str],
    &'a [u8],
    &'a [u8],
    Failing,
    u8,
    &'a [u8],
    &'a [u8],
);

fn comes_to(rt: &impl Abort, got: &Outcome, status: u8, out: &[u8], err: &[u8], case: usize) {
    assert!(rt; got.status == status, "case {case}: {}", got.status);
    same_text(rt, &got.out, out, case);
    same_text(rt, &got.err, err, case);
}

// These calls of the desk and these writes fail.
fn fails(desk: &'static [u64], out: &'static [u64]) -> Failing {
    Failing { desk, out }
}

// What a run of the plan on one packet comes to, with these taps.
fn observed<R: Threads + Wait + Sync>(
    rt: &R,
    alloc: Global,
    taps: Vec<Box<dyn Tap>>,
) -> Result<Outcome, Fail> {
    let capture = of_one_flow(alloc, 1)?;
    run_of(rt, alloc, PLAN, &capture, taps, &Holding::make(&[], 1))
}

#[test]
fn each_fault_has_its_status(rt: HostRuntime) -> Result<(), Fail> {
    let alloc = rt.alloc();
    let capture = of_one_flow(alloc, 1)?;
    let long = vec![in alloc; b' '; 16_777_217]?;
    let cases: [Call<'_>; 11] = [
        (&["run"], PLAN, &capture, NOTHING, 2, b"", USAGE),
        (&["run", "p.json"], PLAN, &capture, NOTHING, 2, b"", USAGE),
        (
            &["run", "-p", "a.pcap"],
            PLAN,
            &capture,
            NOTHING,
            2,
            b"",
            USAGE,
        ),
        (
            &["run", "p.json", "a.pcap", "x"],
            PLAN,
            &capture,
            NOTHING,
            2,
            b"",
            USAGE,
        ),
        (&RUN, b"{", b"", NOTHING, 3, b"", b"plan: not json\n"),
        (
            &RUN,
            PLAN,
            b"abc",
            NOTHING,
            4,
            b"",
            b"capture: short header 3\n",
        ),
        (
            &RUN,
            PLAN,
            &capture,
            fails(&[1], &[]),
            5,
            b"",
            b"read fault\n",
        ),
        (
            &RUN,
            PLAN,
            &capture,
            fails(&[5], &[]),
            5,
            b"",
            b"read fault\n",
        ),
        (
            &RUN,
            PLAN,
            &capture,
            fails(&[], &[1]),
            6,
            b"",
            b"write fault\n",
        ),
        (
            &RUN,
            PLAN,
            &capture,
            fails(&[], &[3]),
            6,
            FIRST_LINES,
            b"write fault\n",
        ),
        (&RUN, &long, &capture, NOTHING, 8, b"", b"plan too long\n"),
    ];
    for (case, (texts, plan, capture, failing, status, out, err)) in cases.into_iter().enumerate() {
        let desk = desk_of(
            alloc,
            &[("p.json", plan), ("a.pcap", capture)],
            failing.desk,
        )?;
        let (taps, pace) = (Vec::new(alloc), Holding::make(&[], 1));
        let got = called(&rt, alloc, texts, desk, failing.out, taps, &pace)?;
        comes_to(&rt, &got, status, out, err, case);
    }
    Ok(())
}

#[test]
fn the_call_for_runs_serves_no_other_command(rt: HostRuntime) -> Result<(), Fail> {
    let alloc = rt.alloc();
    let words = words_of(alloc, &["replay", "p.json", "a.pcap"])?;
    let capture = of_one_flow(alloc, 1)?;
    let mut desk = desk_of(alloc, &[("p.json", PLAN), ("a.pcap", &capture)], &[])?;
    let mut out = MemorySink::make(alloc, 1000, Vec::new(alloc))?;
    let mut err = MemorySink::make(alloc, 1000, Vec::new(alloc))?;
    let (taps, pace) = (Vec::new(alloc), Holding::make(&[], 1));
    let status = steer_live(
        &rt, alloc, &words, &mut desk, &mut out, &mut err, taps, &pace,
    );
    assert!(rt; status == 2);
    same_text(&rt, out.bytes(), b"", 0);
    same_text(&rt, err.bytes(), USAGE, 0);
    Ok(())
}

#[test]
fn taps_are_shown_the_lines_of_a_run(rt: HostRuntime) -> Result<(), Fail> {
    let alloc = rt.alloc();
    let tap: Box<dyn Tap> = Box::new(alloc, PerCpu::make(alloc))?;
    let mut taps = Vec::new(alloc);
    taps.push(tap)?;
    let got = observed(&rt, alloc, taps)?;
    let mut text = FIRST_LINES.to_vec(alloc)?;
    text.extend_from_slice(OTHER_LINES)?;
    text.extend_from_slice(b"tap 0 bytes 16\ncpu 1 packets 1\nend 1 of 1\n")?;
    comes_to(&rt, &got, 0, &text, b"", 0);
    Ok(())
}

// A tap that finds no memory for a line.
#[derive(Drop)]
struct Poor {
    alloc: Global,
}

impl Tap for Poor {
    ghost use Rattle.std.specs.Prelude.{[]};

    ghost text = { λ tap lines. [] };

    fn note(&mut self, _: &PacketLine) -> Result<(), OutOfMemory> {
        Err(OutOfMemory)
    }

    fn finish(&mut self) -> Result<TapText, OutOfMemory> {
        Ok(TapText {
            bytes: Vec::new(self.alloc),
        })
    }
}

#[test]
fn a_tap_without_memory_ends_the_run(rt: HostRuntime) -> Result<(), Fail> {
    let alloc = rt.alloc();
    let tap: Box<dyn Tap> = Box::new(alloc, Poor { alloc })?;
    let mut taps = Vec::new(alloc);
    taps.push(tap)?;
    let got = observed(&rt, alloc, taps)?;
    comes_to(&rt, &got, 7, b"", b"out of memory\n", 0);
    Ok(())
}
