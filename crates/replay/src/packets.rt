//! The packets of a generated capture by a plan.
ghost use Rattle.std.specs.Prelude.{◌≤◌, IfOk, length};
ghost use Rattle.cap_gen.specs.Packets.{packets_of};
ghost use Rattle.cap_gen.specs.declared.frame.TheConstants.{MAX_FLOWS};
ghost use Rattle.pcap_reader.specs.Writing.{capture_of};
ghost use Rattle.steer_base.specs.declared.limits.TheConstants.{MAX_PACKETS};
ghost use Rattle.steer_model.specs.State.Ranges.{AreOfFlows};
ghost use Rattle.replay.specs.Reports.{ArePacketsBy};
ghost use Rattle.replay.specs.Summaries.{generated_capture};

use cap_gen::{a_generated_capture_has_its_frames, generate_frames};
use plan_reader::Plan;
use std::alloc::Global;
use steer_base::{OutOfMemory, Packet};
use steer_model::PacketList;
use toeplitz::{Key, Kinds};

/// The packets of the capture that is generated from a seed, hashed by the key and the kinds of a
/// plan. Its frames are made one by one, and the capture is not.
pub(crate) fn generated_packets(
    alloc: Global,
    plan: &Plan,
    seed: u64,
    packets: u32,
    flows: u32,
) -> Result<Vec<Packet>, OutOfMemory>
    requires few_packets { packets ≤ MAX_PACKETS }
    requires some_flow { 1 ≤ flows }
    requires few_flows { flows ≤ MAX_FLOWS }
    ensures list { IfOk result (λ list. ArePacketsBy plan.now (generated_capture seed packets flows)
        (capture_of (packets_of seed flows packets)) list.items) }
    ensures of_flows { IfOk result (λ list. AreOfFlows list.items) }
    ensures few { IfOk result (λ list. length list.items ≤ MAX_PACKETS) }
{
    a_generated_capture_has_its_frames();
    let key = Key::make(plan.key);
    let mut list = PacketList::make(alloc, &key, Kinds(plan.kinds), packets as usize)?;
    generate_frames(seed, packets, flows, &mut list)?;
    let packets = list.into_packets()?;
    Ok(packets)
}
