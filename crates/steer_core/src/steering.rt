//! A run of the machine.
ghost use Rattle.std.specs.Prelude.{◌≡◌, ◌<◌, ◌≤◌, IfOk, length, true};
ghost use Rattle.plan_reader.specs.Ranges.{step_is_within};
ghost use Rattle.steer_base.specs.declared.limits.TheConstants.{MAX_PACKETS};
ghost use Rattle.steer_core.specs.Runs.{new_run, stepped};
ghost use Rattle.steer_invariant.specs.Invariant.{Invariant};
ghost use Rattle.steer_invariant.specs.StepInvariant.{sizes_in};
ghost use Rattle.steer_model.specs.State.Ranges.{AreOfFlows};
ghost use Rattle.steer_model.specs.State.Machine.{history_of};
ghost use Rattle.steer_model.specs.Steps.CompoundSteps.{step as step_of};

use crate::actors::Actors;
use history::History;
use plan_reader::Plan;
use std::alloc::Global;
use std::marker::Model;
use steer_base::{Answer, OutOfMemory, Packet, Step};

/// The machine of a plan over the packets of a capture, with all the memory that its steps take.
#[derive(Drop)]
pub struct Steering {
    actors: Actors,
    made: u32,
    steps: u32,
    // Whether the last step was a sweep that left nothing to do.
    at_rest: bool,
}

impl Model for Steering {
    ghost use Rattle.steer_core.specs.Resting.{IsStill};
    ghost use Rattle.steer_core.specs.Runs.{HaveRoomForSteps, Run};
    ghost use Rattle.std.specs.Prelude.{◌≡◌, true};

    ghost Value = { Run };

    ghost view = { λ s. record {
      machine = s.actors.machine;
      made = s.made;
      steps = s.steps;
    } };

    ghost invariant = { λ s. HaveRoomForSteps s.actors s.made s.steps
        × (s.at_rest ≡ true → IsStill s.actors.machine) };
}

impl Steering {
    /// The machine of a plan before its first step, with the memory for all its steps. There are at
    /// most `MAX_PACKETS` packets, each flow number is below the number of packets, and all packets
    /// of a flow have one hash. `cut` is the length of a cut record at the end of the capture.
    pub fn make(
        alloc: Global,
        plan: &Plan,
        packets: &[Packet],
        cut: Option<u32>,
    ) -> Result<Steering, OutOfMemory>
        requires few { length packets.now ≤ MAX_PACKETS }
        requires flows { AreOfFlows packets.now }
        ensures { IfOk result (λ steering. steering ≡ new_run plan.now packets.now cut) }
    {
        let actors = Actors::make(alloc, plan, packets, cut)?;
        Ok(Steering {
            actors,
            made: 0,
            steps: plan.step_count(),
            at_rest: false,
        })
    }

    /// Carries out one step and returns its answer; the state and the answer are those of the
    /// machine's definition. The step names only what the plan has, and the plan has a step left.
    /// It takes no memory, and constant time except for `drain`, `ship`, `sweep`, `expire`, and
    /// the commands that clear a table.
    pub fn step(&mut self, step: &Step) -> Answer
        requires within { step_is_within (sizes_in self.old.machine.setup) step.now ≡ true }
        requires left { self.old.made < self.old.steps }
        ensures state { self.new ≡ stepped self.old step.now }
        ensures answer { result ≡ (step_of self.old.machine step.now).1 }
        ensures setup { self.new.machine.setup ≡ self.old.machine.setup }
    {
        self.actors.sound();
        let stepped = self.actors.step(self.at_rest, *step);
        self.at_rest = stepped.at_rest;
        self.made += 1;
        stepped.answer
    }

    /// The number of steps made.
    pub fn made(&self) -> u32
        ensures { result ≡ self.now.made }
    {
        self.made
    }

    /// The number of steps of the plan.
    pub fn steps(&self) -> u32
        ensures { result ≡ self.now.steps }
    {
        self.steps
    }

    /// A copy of the history so far. The run may go on afterwards.
    pub fn history(&self, alloc: Global) -> Result<History, OutOfMemory>
        ensures { IfOk result (λ history. history ≡ history_of self.now.machine) }
    {
        self.actors.history(alloc)
    }

    /// The history of the run, whose lists are moved out of the machine. The memory is for the
    /// lists of lists.
    pub fn into_history(self, alloc: Global) -> Result<History, OutOfMemory>
        ensures { IfOk result (λ history. history ≡ history_of self.machine) }
    {
        let Steering { actors, .. } = self;
        actors.into_history(alloc)
    }

    /// Lemma: the invariant of the machine, which holds after any steps.
    pub fn sound(&self)
        ensures { Invariant self.now.machine }
    {
        self.actors.sound();
    }
}
