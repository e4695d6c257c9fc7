//! The actors of the machine, with all that they share.
ghost use Rattle.std.specs.Prelude.{◌≡◌, true, if◌then◌else◌};
ghost use Rattle.steer_base.specs.declared.command.Answer.TheVariants as says;
ghost use Rattle.steer_base.specs.declared.idle.Idle.TheVariants as idle;
ghost use Rattle.steer_invariant.specs.Invariant.{Invariant};
ghost use Rattle.steer_invariant.specs.StepInvariant.{sizes_in};
ghost use Rattle.plan_reader.specs.Ranges.{step_is_within};
ghost use Rattle.steer_core.specs.Resting.{IsStill};
ghost use Rattle.steer_core.specs.Rooms.{HasRoomFor};
ghost use Rattle.steer_model.specs.Steps.CompoundSteps.{step as step_of};

mod applications;
mod busy;
mod changes;
mod commands;
mod copies;
mod hops;
mod make;
mod moves;
mod old_filters;
mod pollers;
mod processors;
mod sockets;
mod sweeps;
mod transmit;
mod turns;
mod wire;

use accel_filter::FilterTable;
use history::{Arrival, Commanded, Sent, SockWrite};
use hop_core::Hop;
use sock_flow_table::SockTable;
use std::marker::Model;
use steer_base::{Answer, CpuMask, Idle, Journal, Journals, Step};
use steer_model::{Given, InForce, Note};

/// The wire, the pollers, the processors, the applications, the transmit queues and the controller:
/// what is fixed and what is set, the tables and the notes that they read and write, the hop of
/// each direction, and what else the history keeps.
#[derive(Drop)]
pub struct Actors {
    given: Given,
    settings: InForce,
    socket: SockTable,
    filters: FilterTable,
    notes: Vec<Note>,
    rx: Hop,
    tx: Hop,
    arrivals: Journal<Arrival>,
    sent: Journals<Sent>,
    writes: Journals<SockWrite>,
    commands: Journal<Commanded>,
}

impl Model for Actors {
    ghost use Rattle.steer_core.specs.Running.{IsRunning, Running, running_parts, running};

    ghost Value = { Running };

    ghost view = { λ m. running (running_parts m.given m.settings m.socket m.filters m.notes.items
        m.rx
        m.tx m.arrivals m.sent m.writes m.commands) };

    ghost invariant = { λ m. IsRunning (running_parts m.given m.settings m.socket m.filters
        m.notes.items m.rx m.tx m.arrivals m.sent m.writes m.commands) };
}

// What a hop chooses a lane with: the class, the wanted and the desired lane, and those online.
#[derive(Clone, Copy)]
struct Weighing {
    class: Option<u32>,
    want: Option<u8>,
    desired: u8,
    online: CpuMask,
}

/// The result of a step.
#[derive(Clone, Copy)]
pub struct Stepped {
    /// The answer of the step.
    pub answer: Answer,
    /// Whether it was a sweep and left nothing to do, so that a further sweep would change nothing.
    pub at_rest: bool,
}

impl Actors {
    /// Carries out any step: one of many events, one of one event, or a command. `at_rest` says
    /// whether nothing was left to do, in which case a sweep is not walked.
    pub fn step(&mut self, at_rest: bool, step: Step) -> Stepped
        requires within { step_is_within (sizes_in self.old.machine.setup) step ≡ true }
        requires room { HasRoomFor self.old.rooms self.old.machine step }
        requires rest { at_rest ≡ true → IsStill self.old.machine }
        ensures state { self.new.machine ≡ (step_of self.old.machine step).0 }
        ensures answer { result.answer ≡ (step_of self.old.machine step).1 }
        ensures rooms { self.new.rooms ≡ self.old.rooms }
        ensures rest { result.at_rest ≡ true → IsStill self.new.machine }
    {
        let answer = match step {
            Step::Poll(q) => ended(self.poll(false, q, &mut CpuMask(0))),
            Step::Drain(c) => ended(self.drain(false, c, &mut CpuMask(0))),
            Step::Reply(a) => ended(self.reply(false, a, &mut CpuMask(0))),
            Step::Serve(a) => ended(self.serve(false, a, &mut CpuMask(0))),
            Step::Ship(t) => ended(self.ship(false, t)),
            Step::Sweep => return self.sweep_from(at_rest),
            _ => self.simple(step),
        };
        Stepped {
            answer,
            at_rest: false,
        }
    }

    /// Lemma: the invariant of the machine between steps.
    pub fn sound(&self)
        ensures { Invariant self.now.machine }
    {
        // A read of the machine, so that what holds of it is known here.
        let _ = &self.given;
    }
}

// A step of many events is done if work was done.
fn ended(worked: bool) -> Answer
    ensures { result ≡ (if worked then says.Done else says.Idle idle.Nothing) }
{
    if worked {
        Answer::Done
    } else {
        Answer::Idle(Idle::Nothing)
    }
}
