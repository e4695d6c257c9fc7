//! Worked replays: a plan, its steps with their answers, and the history that they leave.
ghost use Rattle.std.specs.Prelude.{◌≡◌, ◌≤◌, length};
ghost use Rattle.plan_reader.specs.Plans.{sizes_of, step_count};
ghost use Rattle.steer_base.specs.declared.limits.TheConstants.{MAX_PACKETS};
ghost use Rattle.steer_invariant.specs.StepInvariant.{sizes_in};
ghost use Rattle.steer_model.specs.State.Ranges.{AreOfFlows};

use crate::frames::Frame;
use crate::machine::{answer_of, begun, left_by, packets_of};
use crate::wanted::{Said, Wanted};
use history::History;
use plan_reader::{Plan, read_plan};
use std::alloc::{AllocError, Global};
use std::process::Abort;
use std::test::Fail;
use steer_base::{Answer, OutOfMemory, Packet};
use steer_core::Steering;

/// A worked replay: a plan, whose text is without its end, the steps that end it, each with its
/// answer, frames, and what the history must have.
#[derive(Clone, Copy)]
pub struct Worked {
    pub plan: &'static str,
    pub steps: &'static [(&'static str, Said)],
    pub frames: &'static [Frame],
    pub left: &'static [Wanted],
}

impl Worked {
    /// The replay answers and leaves what is wanted.
    pub fn holds(&self, rt: &impl Abort, alloc: Global) -> Result<(), Fail> {
        let plan = self.plan(alloc)?;
        let packets = packets_of(alloc, &plan, self.frames)?;
        let history = self.played(rt, alloc, &plan, &packets)?;
        self.is_left(rt, &history);
        Ok(())
    }

    fn plan(&self, alloc: Global) -> Result<Plan, Fail> {
        let text = self.text(alloc)?;
        Ok(read_plan(alloc, &text)?)
    }

    // The text of the whole plan.
    fn text(&self, alloc: Global) -> Result<Vec<u8>, AllocError> {
        let mut text = Vec::new(alloc);
        text.extend_from_slice(self.plan.as_bytes())?;
        let mut before = br#","steps":["#.as_slice();
        for (step, _) in self.steps {
            push_step(&mut text, before, step)?;
            before = b",";
        }
        text.extend_from_slice(b"]}")?;
        Ok(text)
    }

    // The history of all steps, each of which answers what is wanted.
    fn played(
        &self,
        rt: &impl Abort,
        alloc: Global,
        plan: &Plan,
        packets: &[Packet],
    ) -> Result<History, OutOfMemory>
        requires few { length packets.now ≤ MAX_PACKETS }
        requires flows { AreOfFlows packets.now }
    {
        let mut steering = begun(alloc, plan, packets, None)?;
        self.is_answered(rt, plan, &mut steering);
        left_by(alloc, steering)
    }

    fn is_answered(&self, rt: &impl Abort, plan: &Plan, steering: &mut Steering)
        requires made { steering.old.made ≡ 0 }
        requires steps { steering.old.steps ≡ step_count plan.now }
        requires sizes { sizes_in steering.old.machine.setup ≡ sizes_of plan.now }
    {
        assert!(rt; plan.step_count() as usize == self.steps.len());
        for i in 0..plan.step_count() {
            let answer = answer_of(steering, plan, i);
            let (step, said) = self.steps[i as usize];
            answers(rt, step, &answer, &said.answer());
        }
    }

    fn is_left(&self, rt: &impl Abort, history: &History) {
        for wanted in self.left {
            wanted.is_in(rt, history);
        }
    }
}

// A step is answered as is wanted.
fn answers(rt: &impl Abort, step: &str, got: &Answer, wanted: &Answer) {
    assert!(rt; *got == *wanted, "{step}: {got:?}, and not {wanted:?}");
}

// Appends a step to the text of a plan.
fn push_step(text: &mut Vec<u8>, before: &[u8], step: &str) -> Result<(), AllocError> {
    text.extend_from_slice(before)?;
    text.push(b'"')?;
    text.extend_from_slice(step.as_bytes())?;
    text.push(b'"')?;
    Ok(())
}
