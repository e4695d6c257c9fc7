//! The command `run`: the plan is read, then the capture, then threads make a history of them, and
//! its report goes out.
ghost use Rattle.std.specs.Prelude.{◌≡◌, ◌≤◌, IfOk, length, map};
ghost use Rattle.outside_io.specs.Desk.{GoesOnTelling};
ghost use Rattle.steer_base.specs.declared.limits.TheConstants.{MAX_PACKETS};
ghost use Rattle.steer_top.specs.Calls.{course};
ghost use Rattle.steer_top.specs.Commands.{plan_words_of};
ghost use Rattle.steer_top.specs.Endings.{EndsCommand};
ghost use Rattle.steer_top.specs.Runs.{IsByRunFor, IsGoodFor, IsRunOf};
ghost use Rattle.steer_top.specs.Words.CommandWords.{Run};

use crate::command::PlanCommand;
use crate::ending::Ending;
use crate::input::{Input, take_input};
use crate::report_text::write_report;
use history::History;
use outside_io::{Desk, Sink};
use replay::Shown;
use run_promise::a_run_is_by_its_threads;
use run_words::Pace;
use std::alloc::Global;
use std::sync::Wait;
use std::thread::Threads;
use steer_base::OutOfMemory;
use taps::Tap;
use workers::run_threads;

/// Reads the plan and the capture, runs the plan with threads, and writes the report. All memory is
/// taken before the first byte goes out.
pub fn run_file<R: Threads + Wait + Sync, D: Desk, K: Sink, P: Pace + Sync>(
    rt: &R,
    alloc: Global,
    command: &PlanCommand,
    desk: &mut D,
    out: &mut K,
    taps: Vec<Box<dyn Tap>>,
    pace: &P,
) -> Ending
    ensures ends { EndsCommand result (Run (plan_words_of command.now))
        (course D.held D.asked D.faults desk.old desk.new K.faults K.written out.old out.new
        (map (λ tap lines. text tap lines) taps.items)) }

    ensures held { D.held desk.new ≡ D.held desk.old }
    ensures told { GoesOnTelling (D.left desk.old) (D.left desk.new) }
    ensures desk_later { D.faults desk.old ≤ D.faults desk.new }
    ensures out_later { K.faults out.old ≤ K.faults out.new }
{
    a_run_is_by_its_threads();
    let input = match take_input(alloc, command, desk) {
        Ok(input) => input,
        Err(ending) => return ending,
    };
    let packets = input.captured.packets.as_slice();
    let cut = input.captured.cut;
    let Ok(history) = run_threads(rt, alloc, &input.plan, packets, cut, pace) else {
        return Ending::OutOfMemory;
    };
    match shown_of(alloc, &input, &history, taps) {
        Ok(shown) => write_report(alloc, &shown, out),
        Err(OutOfMemory) => Ending::OutOfMemory,
    }
}

// What is shown of the history of a run.
fn shown_of<'a>(
    alloc: Global,
    input: &'a Input,
    history: &'a History,
    taps: Vec<Box<dyn Tap>>,
) -> Result<Shown<'a>, OutOfMemory>
    requires few { length input.now.captured.packets.items ≤ MAX_PACKETS }
    requires good { IsGoodFor input.now history.now }
    requires by_run { IsByRunFor input.now history.now }
    ensures { IfOk result (IsRunOf input.now (map (λ tap lines. text tap lines) taps.items)) }
{
    let packets = input.captured.packets.as_slice();
    Shown::make(alloc, &input.plan, packets, history, taps)
}
