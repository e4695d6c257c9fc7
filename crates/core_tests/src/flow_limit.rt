//! The flow limit: many packets of one flow, and one of another, at a processor that is limited and
//! at one that is not.
use crate::equal::same;
use crate::frames::Frame;
use crate::machine::{packets_of, played};
use crate::wanted::at;
use history::{History, LaneList};
use plan_reader::{Plan, read_plan};
use std::alloc::{AllocError, Global};
use std::process::Abort;
use std::test::Fail;
use steer_base::{DropCause, LaneDrop, PacketId};

const LIMITED: &str = r#"{"cpus":4,"queues":[{"home":0,"mask":[1],"flows":0}],"sock":4,"apps":[2],
"tx":[{"cpus":[],"queues":[]}],"backlog":300,"limited":[1],"steps":["#;

const UNLIMITED: &str = r#"{"cpus":4,"queues":[{"home":0,"mask":[1],"flows":0}],"sock":4,"apps":[2],
"tx":[{"cpus":[],"queues":[]}],"backlog":300,"steps":["#;

// The plan that begins with a text, with 201 packets that arrive and are polled.
fn plan(alloc: Global, start: &str) -> Result<Plan, Fail> {
    let text = text(alloc, start)?;
    Ok(read_plan(alloc, &text)?)
}

fn text(alloc: Global, start: &str) -> Result<Vec<u8>, AllocError> {
    let mut text = Vec::new(alloc);
    text.extend_from_slice(start.as_bytes())?;
    for _ in 0..200 {
        text.extend_from_slice(br#""arrive","poll 0","#)?;
    }
    text.extend_from_slice(br#""arrive","poll 0"]}"#)?;
    Ok(text)
}

// What 200 packets of one flow and then one of another leave.
fn flooded(alloc: Global, start: &str) -> Result<History, Fail> {
    let mut frames = Vec::from_elem(alloc, Frame::A, 200)?;
    frames.push(Frame::B)?;
    let plan = plan(alloc, start)?;
    let packets = packets_of(alloc, &plan, &frames)?;
    Ok(played(alloc, &plan, &packets)?)
}

#[test]
fn the_flow_limit_drops(rt: HostRuntime) -> Result<(), Fail> {
    let left = flooded(rt.alloc(), LIMITED)?;
    is_limited(&rt, at(&rt, &left.lanes, 1));
    Ok(())
}

fn is_limited(rt: &impl Abort, lane: &LaneList) {
    has_counts(rt, lane, 152, 49);
    same(
        rt,
        &lane.accepted.as_slice().get(150),
        &Some(&PacketId(150)),
        1,
    );
    same(
        rt,
        &lane.accepted.as_slice().get(151),
        &Some(&PacketId(200)),
        2,
    );
    has_drop(rt, lane, 0, 151, 152);
    has_drop(rt, lane, 48, 199, 200);
}

fn has_counts(rt: &impl Abort, lane: &LaneList, accepted: usize, dropped: usize) {
    let found = (lane.accepted.len(), lane.drops.len());
    same(rt, &found, &(accepted, dropped), 0);
}

// The drop at this place is of the packet with this number, which was the offer of this number.
fn has_drop(rt: &impl Abort, lane: &LaneList, place: usize, id: u32, offers: u32) {
    let wanted = LaneDrop {
        id: PacketId(id),
        accepted: 151,
        pulled: 0,
        cause: DropCause::Flow(offers),
    };
    same(rt, &lane.drops.as_slice().get(place), &Some(&wanted), place);
}

#[test]
fn without_the_flow_limit_none_is_dropped(rt: HostRuntime) -> Result<(), Fail> {
    let left = flooded(rt.alloc(), UNLIMITED)?;
    has_counts(&rt, at(&rt, &left.lanes, 1), 201, 0);
    Ok(())
}
