//! Captures and plans worked out by hand.
ghost use Rattle.std.specs.Prelude.{◌≤◌, ⊤};
ghost use Rattle.steer_base.specs.declared.limits.TheConstants.{MAX_PACKETS};

use crate::pieces::{HEADER, same, same_items};
use cap_gen::{
    Generated, a_frame_is_of_its_flow, a_generated_capture_has_its_frames, generate,
    generate_frames, generate_plan,
};
use pcap_reader::FrameSink;
use plan_reader::{Steps, read_plan};
use std::alloc::Global;
use std::process::Abort;
use std::test::Fail;
use steer_base::OutOfMemory;

/// The record of second 0 with the frame of flow 0.
const FIRST_RECORD: [u8; 70] = [
    0x00, 0x00, 0x00, 0x00, 0x00, 0x00, 0x00, 0x00, 0x36, 0x00, 0x00, 0x00, 0x36, 0x00, 0x00, 0x00,
    0x02, 0x00, 0x00, 0x00, 0x00, 0x02, 0x02, 0x00, 0x00, 0x00, 0x00, 0x01, 0x08, 0x00, 0x45, 0x00,
    0x00, 0x28, 0x00, 0x00, 0x00, 0x00, 0x40, 0x06, 0x00, 0x00, 0x0a, 0x00, 0x00, 0x00, 0x0a, 0x80,
    0x00, 0x01, 0x04, 0x00, 0x00, 0x50, 0x00, 0x00, 0x00, 0x00, 0x00, 0x00, 0x00, 0x00, 0x50, 0x00,
    0x00, 0x00, 0x00, 0x00, 0x00, 0x00,
];

/// The plan of no packets of seed 1.
const EMPTY_PLAN: &str = "{\"apps\":[0,1,2,3],\"cpus\":4,\"queues\":[\
{\"flows\":256,\"home\":0,\"mask\":[0,1,2,3]},{\"flows\":256,\"home\":1,\"mask\":[0,1,2,3]},\
{\"flows\":256,\"home\":2,\"mask\":[0,1,2,3]},{\"flows\":256,\"home\":3,\"mask\":[0,1,2,3]}],\
\"sock\":1024,\"steps\":{\"count\":0,\"seed\":1},\"tx\":[{\"cpus\":[0],\"queues\":[]},\
{\"cpus\":[1],\"queues\":[]},{\"cpus\":[2],\"queues\":[]},{\"cpus\":[3],\"queues\":[]}],\
\"workers\":4}";

/// The plan of one packet of seed 7.
const PLAN_OF_ONE: &str = "{\"apps\":[0,1,2,3],\"cpus\":4,\"queues\":[\
{\"flows\":256,\"home\":0,\"mask\":[0,1,2,3]},{\"flows\":256,\"home\":1,\"mask\":[0,1,2,3]},\
{\"flows\":256,\"home\":2,\"mask\":[0,1,2,3]},{\"flows\":256,\"home\":3,\"mask\":[0,1,2,3]}],\
\"sock\":1024,\"steps\":{\"count\":4,\"seed\":7},\"tx\":[{\"cpus\":[0],\"queues\":[]},\
{\"cpus\":[1],\"queues\":[]},{\"cpus\":[2],\"queues\":[]},{\"cpus\":[3],\"queues\":[]}],\
\"workers\":4}";

#[test]
fn nothing_but_a_header_and_a_plan(rt: HostRuntime) -> Result<(), Fail> {
    let Generated { capture, plan } = generate(rt.alloc(), 1, 0, 1)?;
    same_items(&rt, &capture, &HEADER);
    same_items(&rt, &plan, EMPTY_PLAN.as_bytes());
    Ok(())
}

fn are_header_and_record(rt: &impl Abort, capture: &[u8]) {
    let (header, record) = capture.split_at(HEADER.len().min(capture.len()));
    same_items(rt, header, &HEADER);
    same_items(rt, record, &FIRST_RECORD);
}

#[test]
fn one_packet_of_one_flow(rt: HostRuntime) -> Result<(), Fail> {
    let Generated { capture, plan } = generate(rt.alloc(), 7, 1, 1)?;
    are_header_and_record(&rt, &capture);
    same_items(&rt, &plan, PLAN_OF_ONE.as_bytes());
    Ok(())
}

/// Asserts the source of the frame that begins here: its address and its port.
fn has_ends(rt: &impl Abort, capture: &[u8], frame: usize, source: [u8; 4], port: u16) {
    assert!(rt; frame < 200 && frame + 36 <= capture.len());
    same_items(rt, &capture[frame + 26..frame + 30], &source);
    same_items(rt, &capture[frame + 34..frame + 36], &port.to_be_bytes());
}

/// The bytes of the frames that were taken.
#[derive(Drop)]
struct Joined {
    bytes: Vec<u8>,
}

impl FrameSink for Joined {
    ghost takes = { λ first frames now. ⊤ };

    fn take(&mut self, frame: &[u8]) -> Result<(), OutOfMemory> {
        self.bytes.extend_from_slice(frame)?;
        Ok(())
    }
}

#[test]
fn sources_of_a_seed(rt: HostRuntime) -> Result<(), Fail> {
    a_frame_is_of_its_flow();
    a_generated_capture_has_its_frames();
    let made = generate(rt.alloc(), 42, 3, 65_536)?;
    same(&rt, &made.capture.len(), &234, 0);
    has_ends(&rt, &made.capture, 40, [10, 0, 2, 183], 1719);
    has_ends(&rt, &made.capture, 110, [10, 0, 244, 9], 30_729);
    has_ends(&rt, &made.capture, 180, [10, 0, 51, 48], 14_128);
    let mut frames = Joined {
        bytes: Vec::new(rt.alloc()),
    };
    generate_frames(42, 3, 65_536, &mut frames)?;
    same(&rt, &frames.bytes.len(), &162, 1);
    has_ends(&rt, &frames.bytes, 0, [10, 0, 2, 183], 1719);
    has_ends(&rt, &frames.bytes, 54, [10, 0, 244, 9], 30_729);
    has_ends(&rt, &frames.bytes, 108, [10, 0, 51, 48], 14_128);
    Ok(())
}

// The plan that goes with so many packets has so many steps, which are drawn from its seed.
fn steps_of(alloc: Global, packets: u32) -> Result<u32, Fail>
    requires { packets ≤ MAX_PACKETS }
{
    let plan = generate_plan(alloc, 9, packets)?;
    match read_plan(alloc, &plan)
        .map_err(|_| Fail::new("a fault"))?
        .steps
    {
        Steps::Seed { count, .. } => Ok(count),
        Steps::List(_) => Err(Fail::new("a list of steps")),
    }
}

// Four steps a packet, and never more than 999,999, since the sweep is a step too.
#[test]
fn a_plan_has_four_steps_a_packet(rt: HostRuntime) -> Result<(), Fail> {
    same(&rt, &steps_of(rt.alloc(), 131_072)?, &524_288, 0);
    same(&rt, &steps_of(rt.alloc(), 262_144)?, &999_999, 1);
    Ok(())
}
