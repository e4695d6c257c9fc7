//! The verdict on a report, for a plan and the packets of a capture.
ghost use Rattle.std.specs.Prelude.{◌≡◌, ◌≤◌, IfOk, length};
ghost use Rattle.good_check.specs.Cases.{input};
ghost use Rattle.report_verdict.specs.Verdicts.{IsVerdict, verdict_of};
ghost use Rattle.steer_base.specs.declared.limits.TheConstants.{MAX_PACKETS};
ghost use Rattle.steer_model.specs.State.Ranges.{AreOfFlows};

use crate::halves::JudgesHistories;
use crate::verdict::Verdict;
use plan_reader::Plan;
use report_check::candidate;
use std::alloc::Global;
use steer_base::{OutOfMemory, Packet};

// The verdict on a history that was found: whether it has the bytes as its report, and the first
// clause that it fails.
fn verdict_of(written: bool, fault: Option<u8>) -> Verdict
    ensures { result ≡ verdict_of written fault }
{
    if !written {
        return Verdict::NotReport;
    }
    match fault {
        Some(clause) => Verdict::Bad(clause),
        None => Verdict::Good,
    }
}

/// The verdict on `bytes` as a report of a run of this plan over these packets of a capture. There
/// are at most `MAX_PACKETS` packets, each flow number is below the number of packets, and all
/// packets of a flow have one hash. `cut` is the length of a cut record at the end of the capture.
/// Of a plan with commands the bytes are not looked at. `work` says whether work in two halves is
/// done on two threads.
#[tactic(auto, using(crate::proofs::JudgingLemmas::is_verdict))]
pub fn judge<W: JudgesHistories>(
    work: &W,
    alloc: Global,
    plan: &Plan,
    packets: &[Packet],
    cut: Option<u32>,
    bytes: &[u8],
) -> Result<Verdict, OutOfMemory>
    requires few { length packets.now ≤ MAX_PACKETS }
    requires flows { AreOfFlows packets.now }
    ensures { IfOk result (IsVerdict (input plan.now packets.now cut) bytes.now) }
{
    if !plan.commands().is_empty() {
        return Ok(Verdict::NotChecked);
    }
    let apps = plan.apps.len() as u8;
    let Some(printed) = candidate(work, alloc, bytes, packets, apps, plan.start)? else {
        return Ok(Verdict::NotReport);
    };
    let (written, fault) = work.compared_and_judged(alloc, plan, packets, cut, bytes, &printed)?;
    Ok(verdict_of(written, fault))
}
