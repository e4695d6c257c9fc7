//! The command `check`: the plan is read, then the capture, then the report, and then the verdict
//! on the report goes out.
ghost use Rattle.std.specs.Prelude.{◌≡◌, ◌≤◌, ℕ, List};
ghost use Rattle.outside_io.specs.Desk.{GoesOnTelling};
ghost use Rattle.replay.specs.Meanings.{Meaning};
ghost use Rattle.report_verdict.specs.VerdictText.{verdict_text};
ghost use Rattle.steer_top.specs.Calls.{course};
ghost use Rattle.steer_top.specs.Commands.{check_words_of};
ghost use Rattle.steer_top.specs.Endings.{EndsCommand, EndsWriting};
ghost use Rattle.steer_top.specs.Words.CommandWords.{Check};

use crate::command::CheckCommand;
use crate::ending::Ending;
use crate::file::{take_packets, take_plan, take_report};
use outside_io::{Desk, Sink, WriteFault};
use report::LineBuf;
use report_verdict::{JudgesHistories, Verdict, judge};
use std::alloc::Global;
use steer_base::OutOfMemory;

/// Reads the plan, the capture and the report, takes all memory, and writes the verdict. The report
/// is read in every case. How the two halves of the judging are done is up to `work`.
pub fn check_file<W: JudgesHistories, D: Desk, K: Sink>(
    work: &W,
    alloc: Global,
    command: &CheckCommand,
    desk: &mut D,
    out: &mut K,
) -> Ending
    ensures ends { (taps : List Meaning)
        → EndsCommand result (Check (check_words_of command.now))
        (course D.held D.asked D.faults desk.old desk.new K.faults K.written out.old out.new taps) }

    ensures held { D.held desk.new ≡ D.held desk.old }
    ensures told { GoesOnTelling (D.left desk.old) (D.left desk.new) }
    ensures desk_later { D.faults desk.old ≤ D.faults desk.new }
    ensures out_later { K.faults out.old ≤ K.faults out.new }
{
    let plan = match take_plan(alloc, command.plan, desk) {
        Ok(plan) => plan,
        Err(ending) => return ending,
    };
    let captured = match take_packets(alloc, &plan, command.capture, desk) {
        Ok(captured) => captured,
        Err(ending) => return ending,
    };
    let report = match take_report(alloc, command.report, desk) {
        Ok(report) => report,
        Err(ending) => return ending,
    };
    match judge(work, alloc, &plan, &captured.packets, captured.cut, &report) {
        Ok(verdict) => write_verdict(alloc, verdict, out),
        Err(OutOfMemory) => Ending::OutOfMemory,
    }
}

// Takes the memory for a line, and writes the verdict.
fn write_verdict<K: Sink>(alloc: Global, verdict: Verdict, out: &mut K) -> Ending
    ensures ends { EndsWriting result (verdict_text verdict)
        (K.faults out.old) (K.faults out.new) (K.written out.old) (K.written out.new) }
    ensures later { K.faults out.old ≤ K.faults out.new }
{
    let Ok(mut line) = LineBuf::make(alloc) else {
        return Ending::OutOfMemory;
    };
    verdict.push(&mut line);
    match line.write(out) {
        Ok(()) => Ending::Done,
        Err(WriteFault) => Ending::WriteFault,
    }
}
