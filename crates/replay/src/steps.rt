//! The steps of a plan, made one by one.
ghost use Rattle.std.specs.Prelude.{◌≡◌, ◌≤◌, ◌<◌, ◌^◌, IfOk, length};
ghost use Rattle.history.specs.Regular.{Regular};
ghost use Rattle.steer_base.specs.declared.limits.TheConstants.{MAX_PACKETS};
ghost use Rattle.steer_invariant.specs.InvariantLaws.{MayStart};
ghost use Rattle.steer_model.specs.State.Ranges.{AreOfFlows};
ghost use Rattle.steer_model.specs.State.Start.{replayed};
ghost use Rattle.replay.specs.Counts.{IsCountable};

use history::History;
use plan_reader::Plan;
use std::alloc::Global;
use steer_base::{OutOfMemory, Packet};
use steer_core::Steering;
use steer_invariant::{
    a_machine_has_a_history_to_report, every_replay_can_be_reported, every_step_keeps_the_machine,
};
use steer_model::steps_of_a_plan_are_within;

/// Makes all steps of a plan over these packets. There are at most `MAX_PACKETS` packets, each flow
/// number is below the number of packets, and all packets of a flow have one hash. `cut` is the
/// length of a cut record at the end of the capture. The history of the steps can be reported.
pub fn play(
    alloc: Global,
    plan: &Plan,
    packets: &[Packet],
    cut: Option<u32>,
) -> Result<History, OutOfMemory>
    requires few { length packets.now ≤ MAX_PACKETS }
    requires flows { AreOfFlows packets.now }
    ensures is { IfOk result (λ history. history ≡ replayed plan.now packets.now cut) }
    ensures regular { IfOk result (Regular packets.now (length plan.now.apps)) }
{
    tell_start(plan, packets);
    every_replay_can_be_reported();
    make_steps(alloc, plan, packets, cut)
}

fn make_steps(
    alloc: Global,
    plan: &Plan,
    packets: &[Packet],
    cut: Option<u32>,
) -> Result<History, OutOfMemory>
    requires few { length packets.now ≤ MAX_PACKETS }
    requires flows { AreOfFlows packets.now }
    ensures { IfOk result (λ history. history ≡ replayed plan.now packets.now cut) }
{
    let mut steering = Steering::make(alloc, plan, packets, cut)?;
    let mut cursor = plan.first_step();
    for _ in 0..plan.step_count() {
        let step = plan.next_step(&mut cursor);
        let _answer = steering.step(&step);
    }
    steering.into_history(alloc)
}

/// Lemma: the counters of a plan start within 32 bits.
pub fn tell_counters(plan: &Plan)
    ensures { plan.now.start < 2 ^ 32 }
{
    let _start = plan.start;
}

/// Lemma: a machine may start with this plan and these packets.
pub fn tell_start(plan: &Plan, packets: &[Packet])
    requires few { length packets.now ≤ MAX_PACKETS }
    requires flows { AreOfFlows packets.now }
    ensures { MayStart plan.now packets.now }
{
    tell_counters(plan);
}

/// Lemma: the sums over the history of a plan are below 2^64.
pub fn tell_countable(plan: &Plan, packets: &[Packet], cut: Option<u32>)
    requires few { length packets.now ≤ MAX_PACKETS }
    requires flows { AreOfFlows packets.now }
    ensures { IsCountable (replayed plan.now packets.now cut) }
{
    tell_start(plan, packets);
    steps_of_a_plan_are_within(plan);
    every_step_keeps_the_machine();
    a_machine_has_a_history_to_report();
}
