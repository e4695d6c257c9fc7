//! The command `check` on files in memory.
ghost use Rattle.std.specs.Prelude.{None};
ghost use Rattle.outside_io.specs.Counts.{last_count};

use crate::calls::{
    Outcome, called, called_failing, called_over, comes_to, desk_of, get_the_usage, same,
};
use crate::files::{FOUR_FRAMES, HEADER, file, front};
use crate::plans::{
    FOUR_REPORT, FOUR_STEPS, ONE_FLOW, SWEPT, capture_of, four_packets, plan_of, replayed,
};
use outside_io::{Begin, Desk, Got};
use std::alloc::Global;
use std::process::Abort;
use std::test::Fail;

/// The row of the packet that `SWEPT` sweeps through.
const SWEPT_ROW: &[u8] =
    b"p 0 q 0 via reta class - want - head - tail - cpu 1 why plain at 1 app 0 in 1 place inbox\n";

/// The report of that sweep after this row.
const SWEPT_REST: &[u8] = b"r 0 app 0 rxq 0 cpu 2 pick 0 head - tail 0 tx 0 why unset at 1 port 1
queue 0 arrived 1 taken 1
cpu 0 accepted 0 pulled 0 delivered 0 retired 0 dropped 0
cpu 1 accepted 1 pulled 1 delivered 1 retired 1 dropped 0
cpu 2 accepted 0 pulled 0 delivered 0 retired 0 dropped 0
tx 0 accepted 1 pulled 1 delivered 1 retired 1
end 1 of 1
";

/// Steering without a flow table and without RFS.
const PLAIN: &[u8] =
    br#""cpus":4,"queues":[{"home":0,"mask":[1],"flows":0}],"sock":0,"apps":[2],"tx":[{"cpus":[],
        "queues":[]}]"#;

const CHECK: [&str; 4] = ["check", "p.json", "a.pcap", "r.txt"];

/// What `check` comes to with a plan of these settings and steps, the frames of these letters, and
/// this report.
fn checked(
    alloc: Global,
    settings: &[u8],
    steps: &[u8],
    letters: &[u8],
    report: &[u8],
) -> Result<Outcome, Fail> {
    let plan = plan_of(alloc, settings, steps)?;
    let capture = capture_of(alloc, letters)?;
    let report = report.to_vec(alloc)?;
    let files = [
        ("p.json", plan.as_slice()),
        ("a.pcap", capture.as_slice()),
        ("r.txt", report.as_slice()),
    ];
    called_over(alloc, &CHECK, &files, &[])
}

/// The report of that sweep with this row for its packet.
fn swept_report(alloc: Global, row: &[u8]) -> Result<Vec<u8>, Fail> {
    let mut report = b"steer 1\n".to_vec(alloc)?;
    report.extend_from_slice(row)?;
    report.extend_from_slice(SWEPT_REST)?;
    Ok(report)
}

/// A row for the packet of that sweep, and the verdict.
const ROWS: [(&[u8], &[u8]); 5] = [
    (SWEPT_ROW, b"check good\n"),
    // The rule gives no such reason.
    (
        b"p 0 q 0 via reta class - want - head - tail - cpu 1 why unset at 1 app 0 in 1 place \
inbox\n",
        b"check bad 3\n",
    ),
    // There is no second place at processor 1.
    (
        b"p 0 q 0 via reta class - want - head - tail - cpu 1 why plain at 2 app 0 in 1 place \
inbox\n",
        b"check not a report\n",
    ),
    // A number is written in one way.
    (
        b"p 0 q 0 via reta class - want - head - tail - cpu 01 why plain at 1 app 0 in 1 place \
inbox\n",
        b"check not a report\n",
    ),
    (b"", b"check not a report\n"),
];

/// Settings, steps, a letter for each frame, a report, and the verdict.
type Judged<'a> = (&'a [u8], &'a [u8], &'a [u8], &'a [u8], &'a [u8]);

fn is_judged(rt: &impl Abort, alloc: Global, case: Judged<'_>, number: usize) -> Result<(), Fail> {
    let (settings, steps, letters, report, verdict) = case;
    let got = checked(alloc, settings, steps, letters, report)?;
    comes_to(rt, &got, 0, verdict, b"", number);
    Ok(())
}

fn row_is_judged(
    rt: &impl Abort,
    alloc: Global,
    row: &[u8],
    verdict: &[u8],
    case: usize,
) -> Result<(), Fail> {
    let report = swept_report(alloc, row)?;
    let judged = (
        SWEPT,
        b"\"sweep\"".as_slice(),
        b"a".as_slice(),
        report.as_slice(),
        verdict,
    );
    is_judged(rt, alloc, judged, case)
}

#[test]
fn reports_of_a_sweep_are_judged(rt: HostRuntime) -> Result<(), Fail> {
    for (case, &(row, verdict)) in ROWS.iter().enumerate() {
        row_is_judged(&rt, rt.alloc(), row, verdict, case)?;
    }
    Ok(())
}

const OTHERS: [Judged; 4] = [
    // Packet 3 is in a backlog.
    (ONE_FLOW, FOUR_STEPS, b"aaaa", FOUR_REPORT, b"check bad 8\n"),
    // The plan has commands, whatever the report is.
    (
        PLAIN,
        br#""arrive","poll 0","pull 1","mask 0 2","deliver 1","retire 1","mask 0 2""#,
        b"a",
        b"",
        b"check not checked\n",
    ),
    (PLAIN, b"\"sweep\"", b"a", b"", b"check not a report\n"),
    (
        PLAIN,
        b"\"sweep\"",
        b"a",
        b"steer 1\n",
        b"check not a report\n",
    ),
];

#[test]
fn other_reports_are_judged(rt: HostRuntime) -> Result<(), Fail> {
    for (i, case) in OTHERS.iter().enumerate() {
        is_judged(&rt, rt.alloc(), *case, i)?;
    }
    Ok(())
}

/// Steps that are replayed, those of the plan by which the report is checked, a letter for each
/// frame, and the verdict.
type Replayed<'a> = (&'a [u8], &'a [u8], &'a [u8], &'a [u8]);

const REPLAYS: [Replayed; 6] = [
    (b"\"sweep\"", b"\"sweep\"", b"aaaa", b"check good\n"),
    // The second packet has not arrived.
    (b"\"arrive\"", b"\"arrive\"", b"aa", b"check bad 1\n"),
    // A packet was taken, and has no choice.
    (
        b"\"arrive\",\"take 0\"",
        b"\"arrive\",\"take 0\"",
        b"a",
        b"check bad 3\n",
    ),
    // A packet still has to be replied to.
    (
        b"\"arrive\",\"poll 0\",\"drain 1\"",
        b"\"arrive\",\"poll 0\",\"drain 1\"",
        b"a",
        b"check bad 8\n",
    ),
    // The application replied and recorded no flow.
    (
        b"\"arrive\",\"poll 0\",\"drain 1\",\"reply 0\",\"sweep\"",
        b"\"sweep\"",
        b"a",
        b"check bad 9\n",
    ),
    // A command was given that the plan does not have.
    (
        b"\"offline 3\",\"sweep\"",
        b"\"sweep\"",
        b"a",
        b"check bad 10\n",
    ),
];

fn replay_is_judged(
    rt: &impl Abort,
    alloc: Global,
    case: Replayed<'_>,
    number: usize,
) -> Result<(), Fail> {
    let (steps, others, letters, verdict) = case;
    let replay = replayed(alloc, ONE_FLOW, steps, letters)?;
    same(rt, &replay.status, &0, number);
    let judged = (ONE_FLOW, others, letters, replay.out.as_slice(), verdict);
    is_judged(rt, alloc, judged, number)
}

#[test]
fn reports_of_replays_are_judged(rt: HostRuntime) -> Result<(), Fail> {
    for (i, case) in REPLAYS.iter().enumerate() {
        replay_is_judged(&rt, rt.alloc(), *case, i)?;
    }
    Ok(())
}

/// What `check` comes to on the files of four packets and this capture, where calls of the desk and
/// writes fail.
fn failing(alloc: Global, capture: &[u8], reads: &[u64], writes: &[u64]) -> Result<Outcome, Fail> {
    let plan = plan_of(alloc, ONE_FLOW, FOUR_STEPS)?;
    let capture = capture.to_vec(alloc)?;
    let report = Vec::new(alloc);
    let files = [
        ("p.json", plan.as_slice()),
        ("a.pcap", capture.as_slice()),
        ("r.txt", report.as_slice()),
    ];
    let mut desk = desk_of(alloc, &files, reads)?;
    called_failing(alloc, &CHECK, &mut desk, writes, &[])
}

fn read_fails(rt: &impl Abort, alloc: Global, capture: &[u8], call: u64) -> Result<(), Fail> {
    let got = failing(alloc, capture, &[call], &[])?;
    comes_to(rt, &got, 5, b"", b"read fault\n", call as usize);
    Ok(())
}

const WORDS: [&[&str]; 4] = [
    &["check", "p.json", "a.pcap"],
    &["check", "p.json", "a.pcap", ""],
    &["check", "p.json", "-a", "r.txt"],
    &["check", "p.json", "a.pcap", "r.txt", "r.txt"],
];

#[test]
fn each_file_has_its_status(rt: HostRuntime) -> Result<(), Fail> {
    let alloc = rt.alloc();
    let capture = file(alloc, &FOUR_FRAMES)?;
    // The desk is asked for the plan in its calls 1 to 3, for the capture in 4 to 6, and for the
    // report in 7 and 8.
    read_fails(&rt, alloc, &capture, 1)?;
    read_fails(&rt, alloc, &capture, 4)?;
    read_fails(&rt, alloc, &capture, 7)?;
    read_fails(&rt, alloc, &capture, 8)?;
    let got = failing(alloc, front(&HEADER, 23), &[7], &[])?;
    comes_to(&rt, &got, 4, b"", b"capture: short header 23\n", 4);
    let got = failing(alloc, &capture, &[], &[1])?;
    comes_to(&rt, &got, 6, b"", b"write fault\n", 5);
    get_the_usage(&rt, alloc, &WORDS)
}

// A file of a call.
#[derive(Clone, Copy)]
enum Asked {
    Plan,
    Capture,
    Report,
}

// A desk with a plan and a capture, and a report of zeros of which this many bytes are left. It
// tells no bytes.
#[derive(Drop)]
struct LongReport {
    plan: Vec<u8>,
    capture: Vec<u8>,
    left: usize,
    asked: Asked,
    at: usize,
}

impl Desk for LongReport {
    ghost held = { λ _ _. None };

    ghost left = { λ _. None };

    ghost taken = { λ _. last_count };

    ghost reads = { λ _. last_count };

    ghost faults = { λ _. 0 };

    fn begin(&mut self, name: &str) -> Begin {
        self.at = 0;
        self.asked = if name == "p.json" {
            Asked::Plan
        } else if name == "a.pcap" {
            Asked::Capture
        } else {
            Asked::Report
        };
        Begin::Ok
    }

    fn read(&mut self, buf: &mut [u8]) -> Got {
        let byte = match self.asked {
            Asked::Plan => self.plan.get(self.at).copied(),
            Asked::Capture => self.capture.get(self.at).copied(),
            Asked::Report => {
                let count = buf.len().min(self.left);
                self.left -= count;
                return if count == 0 {
                    Got::End
                } else {
                    Got::Bytes(count)
                };
            }
        };
        match byte {
            Some(byte) => {
                buf[0] = byte;
                self.at = self.at.saturating_add(1);
                Got::Bytes(1)
            }
            None => Got::End,
        }
    }
}

#[test]
fn a_report_that_is_too_long_is_refused(rt: HostRuntime) -> Result<(), Fail> {
    let (plan, capture) = four_packets(rt.alloc())?;
    let mut desk = LongReport {
        plan,
        capture,
        left: 268_435_457,
        asked: Asked::Plan,
        at: 0,
    };
    let got = called(rt.alloc(), &CHECK, &mut desk)?;
    comes_to(&rt, &got, 8, b"", b"report too long\n", 0);
    Ok(())
}
