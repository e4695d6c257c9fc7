//! The two halves of the judging of a history.
ghost use Rattle.std.specs.Prelude.{◌≡◌, ◌≤◌, IfOk, None, length, true};
ghost use Rattle.std.specs.Option.{ForSome};
ghost use Rattle.good_check.specs.Cases.{input};
ghost use Rattle.good_check.specs.Faults.{HasFirstFault, HasNoFault};
ghost use Rattle.report.specs.Report.{report};
ghost use Rattle.report_verdict.specs.Verdicts.{IsJudged, IsToJudge};
ghost use Rattle.steer_base.specs.declared.limits.TheConstants.{MAX_PACKETS};
ghost use Rattle.steer_model.specs.State.Ranges.{AreOfFlows};

use good_check::first_fault;
use plan_reader::Plan;
use report_check::{InTurn, OnThreads, Printed, ReadsSections, is_written};
use std::alloc::Global;
use std::thread::{Threads, join};
use steer_base::{OutOfMemory, Packet};

/// How a history is judged that may have bytes as its report.
pub trait JudgesHistories: ReadsSections {
    /// Whether just these bytes are written of the history, and the first clause that it fails.
    fn compared_and_judged(
        &self,
        alloc: Global,
        plan: &Plan,
        packets: &[Packet],
        cut: Option<u32>,
        bytes: &[u8],
        printed: &Printed,
    ) -> Result<(bool, Option<u8>), OutOfMemory>
        requires few { length packets.now ≤ MAX_PACKETS }
        requires flows { AreOfFlows packets.now }
        requires candidate { IsToJudge (input plan.now packets.now cut) bytes.now
            printed.now.history printed.now.texts.items }
        ensures { IfOk result (λ r. IsJudged (input plan.now packets.now cut) bytes.now
            printed.now.history printed.now.texts.items r.0 r.1) };
}

impl JudgesHistories for InTurn {
    fn compared_and_judged(
        &self,
        alloc: Global,
        plan: &Plan,
        packets: &[Packet],
        cut: Option<u32>,
        bytes: &[u8],
        printed: &Printed,
    ) -> Result<(bool, Option<u8>), OutOfMemory> {
        let apps = plan.apps.len() as u8;
        let (h, texts) = (&printed.history, printed.texts.as_slice());
        let written = is_written(alloc, bytes, packets, apps, h, texts)?;
        let fault = first_fault(alloc, plan, packets, cut, h)?;
        Ok((written, fault))
    }
}

impl<R: Threads> JudgesHistories for OnThreads<'_, R> {
    fn compared_and_judged(
        &self,
        alloc: Global,
        plan: &Plan,
        packets: &[Packet],
        cut: Option<u32>,
        bytes: &[u8],
        printed: &Printed,
    ) -> Result<(bool, Option<u8>), OutOfMemory> {
        let apps = plan.apps.len() as u8;
        let (h, texts) = (&printed.history, printed.texts.as_slice());
        let (written, fault) = join(
            self.0,
            || -> Result<bool, OutOfMemory> { is_written(alloc, bytes, packets, apps, h, texts) },
            || -> Result<Option<u8>, OutOfMemory> { first_fault(alloc, plan, packets, cut, h) },
        );
        Ok((written?, fault?))
    }
}
