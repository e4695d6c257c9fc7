//! The largest plan, with the most packets.
ghost use Rattle.std.specs.Prelude.{◌≤◌, length};
ghost use Rattle.steer_base.specs.declared.limits.TheConstants.{MAX_PACKETS};
ghost use Rattle.steer_model.specs.State.Ranges.{AreOfFlows};

use crate::equal::same;
use crate::frames::Frame;
use crate::machine::{begun, left_by, packets_of};
use history::History;
use plan_reader::{Plan, read_plan};
use std::alloc::{AllocError, Global};
use std::process::Abort;
use std::test::Fail;
use steer_base::{Answer, MAX_PACKETS, OutOfMemory, Packet, Step};
use steer_core::Steering;

// Puts so many of an item behind the text, with commas between them.
fn repeat(text: &mut Vec<u8>, item: &[u8], count: u8) -> Result<(), AllocError> {
    for i in 0..count {
        if i > 0 {
            text.push(b',')?;
        }
        text.extend_from_slice(item)?;
    }
    Ok(())
}

fn plan(alloc: Global) -> Result<Plan, Fail> {
    let text = text(alloc)?;
    Ok(read_plan(alloc, &text)?)
}

// 16 receive queues, 32 processors, applications and transmit queues, all tables of the largest
// sizes, and 999,999 seeded steps.
fn text(alloc: Global) -> Result<Vec<u8>, AllocError> {
    let mut text = br#"{"cpus":32,"queues":["#.to_vec(alloc)?;
    repeat(&mut text, br#"{"home":0,"mask":[],"flows":32768}"#, 16)?;
    text.extend_from_slice(br#"],"sock":65536,"filters":4096,"backlog":65536,"apps":["#)?;
    repeat(&mut text, b"0", 32)?;
    text.extend_from_slice(br#"],"tx":["#)?;
    repeat(&mut text, br#"{"cpus":[],"queues":[]}"#, 32)?;
    text.extend_from_slice(br#"],"steps":{"seed":7,"count":999999}}"#)?;
    Ok(text)
}

#[test]
fn the_largest_plan_is_made(rt: HostRuntime) -> Result<(), Fail> {
    let alloc = rt.alloc();
    let plan = plan(alloc)?;
    let frames = Vec::from_elem(alloc, Frame::A, MAX_PACKETS)?;
    let packets = packets_of(alloc, &plan, &frames)?;
    let history = arrived(&rt, alloc, &plan, &packets)?;
    has_its_sizes(&rt, &history);
    Ok(())
}

// The history of one arrival.
fn arrived(
    rt: &impl Abort,
    alloc: Global,
    plan: &Plan,
    packets: &[Packet],
) -> Result<History, OutOfMemory>
    requires few { length packets.now ≤ MAX_PACKETS }
    requires flows { AreOfFlows packets.now }
{
    let mut steering = begun(alloc, plan, packets, Some(7))?;
    arrives(rt, &mut steering);
    left_by(alloc, steering)
}

fn arrives(rt: &impl Abort, steering: &mut Steering) {
    assert_eq!(rt; (steering.made(), steering.steps()), (0, 1_000_000));
    same(rt, &steering.step(&Step::Arrive), &Answer::Done, 0);
}

// A history of one arrival has the lists of the largest plan.
fn has_its_sizes(rt: &impl Abort, left: &History) {
    let of_packets = (left.total, left.cut, left.arrivals.len());
    same(rt, &of_packets, &(262_144, Some(7), 1), 0);
    let received = (left.choices.len(), left.lanes.len(), left.inboxes.len());
    same(rt, &received, &(16, 32, 32), 1);
    let sent = (left.tx_choices.len(), left.tx_lanes.len());
    same(rt, &sent, &(32, 32), 2);
}
