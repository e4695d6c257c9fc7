//! The command `replay`: reads the plan, then the capture, and then writes the report of the
//! plan's steps.
ghost use Rattle.std.specs.Prelude.{◌≡◌, ◌≤◌, map};
ghost use Rattle.outside_io.specs.Desk.{GoesOnTelling};
ghost use Rattle.steer_top.specs.Calls.{course};
ghost use Rattle.steer_top.specs.Commands.{plan_words_of};
ghost use Rattle.steer_top.specs.Endings.{EndsCommand};
ghost use Rattle.steer_top.specs.Words.CommandWords.{Replay};

use crate::command::PlanCommand;
use crate::ending::Ending;
use crate::input::take_input;
use crate::report_text::write_report;
use outside_io::{Desk, Sink};
use replay::{Shown, play};
use std::alloc::Global;
use steer_base::OutOfMemory;
use taps::Tap;

/// Reads the plan and the capture, takes all memory, and writes the report. The capture is not
/// held.
pub fn replay_file<D: Desk, K: Sink>(
    alloc: Global,
    command: &PlanCommand,
    desk: &mut D,
    out: &mut K,
    taps: Vec<Box<dyn Tap>>,
) -> Ending
    ensures ends { EndsCommand result (Replay (plan_words_of command.now))
        (course D.held D.asked D.faults desk.old desk.new K.faults K.written out.old out.new
        (map (λ tap lines. text tap lines) taps.items)) }

    ensures held { D.held desk.new ≡ D.held desk.old }
    ensures told { GoesOnTelling (D.left desk.old) (D.left desk.new) }
    ensures desk_later { D.faults desk.old ≤ D.faults desk.new }
    ensures out_later { K.faults out.old ≤ K.faults out.new }
{
    let input = match take_input(alloc, command, desk) {
        Ok(input) => input,
        Err(ending) => return ending,
    };
    let packets = input.captured.packets.as_slice();
    let Ok(history) = play(alloc, &input.plan, packets, input.captured.cut) else {
        return Ending::OutOfMemory;
    };
    match Shown::make(alloc, &input.plan, packets, &history, taps) {
        Ok(shown) => write_report(alloc, &shown, out),
        Err(OutOfMemory) => Ending::OutOfMemory,
    }
}
