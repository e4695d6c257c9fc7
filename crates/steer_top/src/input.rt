//! What the plan and the capture of a command say is to be done.
ghost use Rattle.std.specs.Prelude.{◌≡◌, ◌≤◌, IfOk, IfErr};
ghost use Rattle.outside_io.specs.Desk.{GoesOnTelling};
ghost use Rattle.steer_top.specs.Commands.{plan_words_of};
ghost use Rattle.steer_top.specs.Endings.{EndsAtInput};
ghost use Rattle.steer_top.specs.Taken.{IsInputOf};

use crate::command::PlanCommand;
use crate::ending::Ending;
use crate::file::{CapturedPackets, take_packets, take_plan};
use outside_io::Desk;
use plan_reader::Plan;
use std::alloc::Global;

/// A plan, and the packets that it makes of a capture.
#[derive(Drop)]
pub struct Input {
    pub plan: Plan,
    pub captured: CapturedPackets,
}

/// Reads the plan and then the capture of a command, or says how the command ends without them.
pub fn take_input<D: Desk>(
    alloc: Global,
    command: &PlanCommand,
    desk: &mut D,
) -> Result<Input, Ending>
    ensures taken { IfOk result (IsInputOf (plan_words_of command.now) (D.held desk.old)) }
    ensures ends { IfErr result (λ ending. EndsAtInput ending (plan_words_of command.now)
        (D.held desk.old) (D.faults desk.old) (D.faults desk.new) (D.asked desk.new)) }

    ensures held { D.held desk.new ≡ D.held desk.old }
    ensures told { GoesOnTelling (D.left desk.old) (D.left desk.new) }
    ensures later { D.faults desk.old ≤ D.faults desk.new }
{
    let plan = match take_plan(alloc, command.plan, desk) {
        Ok(plan) => plan,
        Err(ending) => return Err(ending),
    };
    match take_packets(alloc, &plan, command.capture, desk) {
        Ok(captured) => Ok(Input { plan, captured }),
        Err(ending) => Err(ending),
    }
}
