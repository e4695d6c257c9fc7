//! The machine of a plan, made, stepped and ended in functions of one call each: what a machine
//! holds is dropped in one place alone.
ghost use Rattle.std.specs.Prelude.{◌+◌, ◌<◌, ◌≡◌, ◌≤◌, IfOk, length};
ghost use Rattle.plan_reader.specs.Plans.{sizes_of, step_count};
ghost use Rattle.steer_base.specs.declared.limits.TheConstants.{MAX_PACKETS};
ghost use Rattle.steer_invariant.specs.StepInvariant.{sizes_in};
ghost use Rattle.steer_model.specs.State.Ranges.{AreOfFlows};

use crate::frames::{Frame, captured};
use history::History;
use pcap_reader::read_capture;
use plan_reader::Plan;
use std::alloc::Global;
use std::test::Fail;
use steer_base::{Answer, OutOfMemory, Packet};
use steer_core::Steering;
use steer_model::packets;
use toeplitz::{Key, Kinds};

/// The packets of a capture of these frames, with the hashes that a plan has them get.
pub fn packets_of(alloc: Global, plan: &Plan, frames: &[Frame]) -> Result<Vec<Packet>, Fail>
    ensures few { IfOk result (λ packets. length packets.items ≤ MAX_PACKETS) }
    ensures flows { IfOk result (λ packets. AreOfFlows packets.items) }
{
    let bytes = captured(alloc, frames)?;
    let capture = read_capture(alloc, &bytes)?;
    let key = Key::make(plan.key);
    Ok(packets(alloc, &capture, &bytes, &key, Kinds(plan.kinds))?)
}

/// The machine of a plan, which has made no step.
pub fn begun(
    alloc: Global,
    plan: &Plan,
    packets: &[Packet],
    cut: Option<u32>,
) -> Result<Steering, OutOfMemory>
    requires few { length packets.now ≤ MAX_PACKETS }
    requires flows { AreOfFlows packets.now }
    ensures made { IfOk result (λ s. s.made ≡ 0) }
    ensures steps { IfOk result (λ s. s.steps ≡ step_count plan.now) }
    ensures sizes { IfOk result (λ s. sizes_in s.machine.setup ≡ sizes_of plan.now) }
{
    Steering::make(alloc, plan, packets, cut)
}

/// The answer to the `i`-th step of a plan, where those before it were made.
pub fn answer_of(steering: &mut Steering, plan: &Plan, i: u32) -> Answer
    requires left { i < step_count plan.now }
    requires made { steering.old.made ≡ i }
    requires steps { steering.old.steps ≡ step_count plan.now }
    requires sizes { sizes_in steering.old.machine.setup ≡ sizes_of plan.now }
    ensures made { steering.new.made ≡ i + 1 }
    ensures steps { steering.new.steps ≡ step_count plan.now }
    ensures sizes { sizes_in steering.new.machine.setup ≡ sizes_of plan.now }
{
    steering.step(&plan.step_at(i))
}

/// The history that a machine leaves.
pub fn left_by(alloc: Global, steering: Steering) -> Result<History, OutOfMemory> {
    steering.history(alloc)
}

/// The history of all steps of a plan.
pub fn played(alloc: Global, plan: &Plan, packets: &[Packet]) -> Result<History, OutOfMemory>
    requires few { length packets.now ≤ MAX_PACKETS }
    requires flows { AreOfFlows packets.now }
{
    let mut steering = begun(alloc, plan, packets, None)?;
    make_all(plan, &mut steering);
    left_by(alloc, steering)
}

// Makes all steps of a plan.
fn make_all(plan: &Plan, steering: &mut Steering)
    requires made { steering.old.made ≡ 0 }
    requires steps { steering.old.steps ≡ step_count plan.now }
    requires sizes { sizes_in steering.old.machine.setup ≡ sizes_of plan.now }
{
    for i in 0..plan.step_count() {
        let _answer = answer_of(steering, plan, i);
    }
}
