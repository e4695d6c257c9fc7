//! Plans of the tests, and their replays.
use crate::calls::{Outcome, called_over, comes_to, same, same_bytes};
use crate::files::{ARP, FOUR_FRAMES, FRAME_A, FRAME_B, file};
use std::alloc::Global;
use std::process::Abort;
use std::test::Fail;

/// The settings and the steps of a plan, a letter for each frame of a capture, and a report or
/// lines of it.
pub type Case<'a> = (&'a [u8], &'a [u8], &'a [u8], &'a [u8]);

/// One receive queue with one flow entry, steered to processor 1; its application stands on
/// processor 2.
pub const ONE_FLOW: &[u8] =
    br#""cpus":4,"queues":[{"home":0,"mask":[1],"flows":1}],"sock":4,"apps":[2],"tx":[{"cpus":[],
        "queues":[]}]"#;

/// Steps of four packets, of which the last one moves.
pub const FOUR_STEPS: &[u8] =
    br#""arrive","poll 0","record 0","arrive","poll 0","pull 1","deliver 1","arrive","poll 0",
        "drain 1","arrive","poll 0""#;

/// The report of these steps on four packets of one flow.
pub const FOUR_REPORT: &[u8] = b"steer 1
p 0 q 0 via reta class 0 want - head - tail 0 cpu 1 why unset at 1 app 0 in 1 place inbox
p 1 q 0 via reta class 0 want 2 head 0 tail 1 cpu 1 why kept at 2 app 0 in 2 place inbox
p 2 q 0 via reta class 0 want 2 head 0 tail 2 cpu 1 why kept at 3 app 0 in 3 place inbox
p 3 q 0 via reta class 0 want 2 head 3 tail 3 cpu 2 why passed at 1 app 0 in - place backlog
queue 0 arrived 4 taken 4
cpu 0 accepted 0 pulled 0 delivered 0 retired 0 dropped 0
cpu 1 accepted 3 pulled 3 delivered 3 retired 3 dropped 0
cpu 2 accepted 1 pulled 0 delivered 0 retired 0 dropped 0
cpu 3 accepted 0 pulled 0 delivered 0 retired 0 dropped 0
tx 0 accepted 0 pulled 0 delivered 0 retired 0
w app 0 entry 0 cpu 2
end 4 of 4
";

/// The end of that report.
const FOUR_END: &[u8] = b"end 4 of 4\n";

/// That report up to its last line.
pub fn four_lines() -> &'static [u8] {
    FOUR_REPORT.strip_suffix(FOUR_END).unwrap_or(FOUR_REPORT)
}

/// Plain packet steering of one queue, and one packet that is swept through.
pub const SWEPT: &[u8] =
    br#""cpus":3,"queues":[{"home":0,"mask":[1],"flows":0}],"sock":0,"apps":[2],"tx":[{"cpus":[],
        "queues":[]}]"#;

/// A plan with these settings and steps.
pub fn plan_of(alloc: Global, settings: &[u8], steps: &[u8]) -> Result<Vec<u8>, Fail> {
    let mut plan = Vec::new(alloc);
    plan.extend_from_slice(b"{")?;
    plan.extend_from_slice(settings)?;
    plan.extend_from_slice(b",\"steps\":[")?;
    plan.extend_from_slice(steps)?;
    plan.extend_from_slice(b"]}")?;
    Ok(plan)
}

/// The frame of a letter: `a` and `b` are those of two flows, and every other one has no flow.
fn frame_of(letter: u8) -> &'static [u8] {
    match letter {
        b'a' => &FRAME_A,
        b'b' => &FRAME_B,
        _ => &ARP,
    }
}

/// A capture of the frames of these letters.
pub fn capture_of(alloc: Global, letters: &[u8]) -> Result<Vec<u8>, Fail> {
    let mut frames = Vec::new(alloc);
    for letter in letters {
        frames.push(frame_of(*letter))?;
    }
    file(alloc, &frames)
}

/// The words of a replay.
pub const REPLAY: [&str; 3] = ["replay", "p.json", "a.pcap"];

/// What the replay of a plan with these settings and steps on the frames of these letters comes to.
pub fn replayed(
    alloc: Global,
    settings: &[u8],
    steps: &[u8],
    letters: &[u8],
) -> Result<Outcome, Fail> {
    let plan = plan_of(alloc, settings, steps)?;
    let capture = capture_of(alloc, letters)?;
    replayed_files(alloc, &plan, &capture, &[])
}

/// What the replay of these files comes to, where the desk's calls of these numbers fail.
pub fn replayed_files(
    alloc: Global,
    plan: &[u8],
    capture: &[u8],
    failing: &[u64],
) -> Result<Outcome, Fail> {
    let files = [("p.json", plan), ("a.pcap", capture)];
    called_over(alloc, &REPLAY, &files, failing)
}

/// Asserts that the replay of each case has just its report.
pub fn are_reported(rt: &impl Abort, alloc: Global, cases: &[Case<'_>]) -> Result<(), Fail> {
    for (i, case) in cases.iter().enumerate() {
        is_reported(rt, alloc, *case, i)?;
    }
    Ok(())
}

fn is_reported(rt: &impl Abort, alloc: Global, case: Case<'_>, number: usize) -> Result<(), Fail> {
    let (settings, steps, letters, report) = case;
    let got = replayed(alloc, settings, steps, letters)?;
    comes_to(rt, &got, 0, report, b"", number);
    Ok(())
}

fn has_line(text: &[u8], line: &[u8]) -> bool {
    text.split(|byte| *byte == b'\n').any(|found| found == line)
}

/// Whether each of these lines is one of the text.
pub fn has_lines(text: &[u8], lines: &[u8]) -> bool {
    lines
        .split(|byte| *byte == b'\n')
        .all(|line| has_line(text, line))
}

/// Asserts that the report of each case has its lines.
pub fn have_lines(rt: &impl Abort, alloc: Global, cases: &[Case<'_>]) -> Result<(), Fail> {
    for (i, case) in cases.iter().enumerate() {
        is_with_lines(rt, alloc, *case, i)?;
    }
    Ok(())
}

/// Asserts that the report of a case has its lines.
pub fn is_with_lines(
    rt: &impl Abort,
    alloc: Global,
    case: Case<'_>,
    number: usize,
) -> Result<(), Fail> {
    let (settings, steps, letters, lines) = case;
    let got = replayed(alloc, settings, steps, letters)?;
    same(rt, &got.status, &0, number);
    same(rt, &has_lines(&got.out, lines), &true, number);
    same_bytes(rt, &got.err, b"", number);
    Ok(())
}

/// The files of four packets of one flow and their plan.
pub fn four_packets(alloc: Global) -> Result<(Vec<u8>, Vec<u8>), Fail> {
    let plan = plan_of(alloc, ONE_FLOW, FOUR_STEPS)?;
    let capture = file(alloc, &FOUR_FRAMES)?;
    Ok((plan, capture))
}
