//! The controller.
ghost use Rattle.std.specs.Prelude.{◌≡◌, ◌+◌, ◌-◌, ◌*◌, ◌^◌, ◌<◌, ◌≤◌, [], IfOk, length};
ghost use Rattle.steer_base.specs.Journals.{grown, journal};
ghost use Rattle.plan_reader.specs.Ranges.{commands_of};
ghost use Rattle.steer_model.specs.Good.Commands.{AreGiven, is_busy as was_busy};
ghost use Rattle.steer_model.specs.State.Start.{setup_of};
ghost use Rattle.run_controller.specs.Journals.{Attempted, IsGivenOnce, IsReady, known_by};
ghost use Rattle.run_controller.specs.Settings.{IsKnown, first_known};
ghost use Rattle.run_controller.specs.Stages.{AreSeated, IsNamed, IsStage, stage};

use crate::attempt::attempt;
use crate::known::Known;
use board_api::Board;
use history::Commanded;
use plan_reader::Plan;
use run_words::{Pace, Seats, Shared};
use std::alloc::Global;
use steer_base::{Answer, Command, Journal, OutOfMemory};
use steer_model::is_done;

/// The most tries of all commands of a plan: of at most 1,000,000 commands, each at most 64.
pub const MAX_TRIES: u32 = 64_000_000;

/// The controller.
#[derive(Drop)]
pub struct Controller {
    /// What it knows of the settings.
    pub known: Known,
    /// The tries of all commands with their answers, in their order.
    pub commands: Journal<Commanded>,
}

impl Controller {
    /// The controller of a plan, which has given no command yet. Allocates here the memory for all
    /// tries of all commands, and none later.
    pub fn make(alloc: Global, plan: &Plan) -> Result<Controller, OutOfMemory>
        ensures known { IfOk result (λ c. c.known ≡ first_known plan.now) }
        ensures commands { IfOk result (λ c. c.commands
            ≡ journal [] (length (commands_of plan.now.steps) * plan.now.tries)) }
    {
        let room = plan.commands().len() as u32 * plan.tries;
        Ok(Controller {
            known: Known::of_plan(alloc, plan)?,
            commands: Journal::make(alloc, room)?,
        })
    }

    /// Gives the commands of the plan, in their order, each again while it is busy, but not more
    /// often than the plan says. `pace` is called with `number` before each try, and once more
    /// after the last.
    pub fn run<B: Board, P: Pace>(
        &mut self,
        plan: &Plan,
        shared: &Shared,
        rx: &B,
        tx: &B,
        seats: &mut Seats,
        pace: &P,
        number: u32,
    )
        requires stage { IsStage (stage shared.now (B.view rx.now) (B.view tx.now)) }
        requires setup { shared.now.given
            ≡ setup_of plan.now shared.now.given.packets shared.now.given.cut }
        requires seated { AreSeated (stage shared.now (B.view rx.now) (B.view tx.now)) 0
            seats.old }
        requires known { self.old.known ≡ first_known plan.now }
        requires commands { self.old.commands
            ≡ journal [] (length (commands_of plan.now.steps) * plan.now.tries) }
        ensures given { AreGiven plan.now.tries (commands_of plan.now.steps)
            self.new.commands.items }
        ensures attempted { Attempted (stage shared.now (B.view rx.now) (B.view tx.now)) []
            self.new.commands.items (first_known plan.now) self.new.known seats.old seats.new }
        ensures seated { AreSeated (stage shared.now (B.view rx.now) (B.view tx.now))
            (length self.new.commands.items) seats.new }
    {
        let commands = plan.commands();
        for command in commands {
            self.give(plan.tries, *command, shared, rx, tx, seats, pace, number);
        }
        pace.turn(number, self.commands.len() as u64 + 1);
    }

    // Gives one command.
    fn give<B: Board, P: Pace>(
        &mut self,
        tries: u32,
        command: Command,
        shared: &Shared,
        rx: &B,
        tx: &B,
        seats: &mut Seats,
        pace: &P,
        number: u32,
    )
        requires stage { IsStage (stage shared.now (B.view rx.now) (B.view tx.now)) }
        requires ready { IsReady (stage shared.now (B.view rx.now) (B.view tx.now)) self.old
            seats.old }
        requires named { IsNamed shared.now.given command }
        requires some { 1 ≤ tries }
        requires room { length self.old.commands.items + tries ≤ self.old.commands.room }
        ensures once { IsGivenOnce tries command self.old.commands.items self.new.commands.items }
        ensures attempted { Attempted (stage shared.now (B.view rx.now) (B.view tx.now))
            self.old.commands.items self.new.commands.items self.old.known self.new.known
            seats.old seats.new }
        ensures ready { IsReady (stage shared.now (B.view rx.now) (B.view tx.now)) self.new
            seats.new }
        ensures room { self.new.commands.room ≡ self.old.commands.room }
    {
        for _ in 0..tries {
            pace.turn(number, self.commands.len() as u64 + 1);
            let answer = attempt(shared, rx, tx, seats, &self.known, &command);
            self.note(shared, command, answer);
            if !is_busy(&answer) {
                return;
            }
        }
    }

    // Notes a try, and keeps the change of a command that was done.
    fn note(&mut self, shared: &Shared, command: Command, answer: Answer)
        requires named { IsNamed shared.now.given command }
        requires known { IsKnown shared.now.given (2 ^ 32 - 2) self.old.known }
        requires room { length self.old.commands.items < self.old.commands.room }
        ensures known { self.new.known
            ≡ known_by self.old.known (record { command = command; answer = answer }) }
        ensures noted { self.new.commands
            ≡ grown self.old.commands (record { command = command; answer = answer }) }
    {
        if is_done(&answer) {
            self.known.remember(&command, &shared.given);
        }
        self.commands.push(Commanded { command, answer });
    }
}

// Whether a command was answered busy.
fn is_busy(answer: &Answer) -> bool
    ensures { result ≡ was_busy answer.now }
{
    matches!(answer, Answer::Busy(_))
}
