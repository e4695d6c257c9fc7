//! The hashes of flows, by their numbers.
ghost use Rattle.std.specs.Prelude.{◌<◌, ◌≡◌, IfOk, [], length};
ghost use Rattle.steer_model.specs.State.Ranges.{AreFlowHashes, AreOfFlows, with_hash};

use std::alloc::Global;
use steer_base::{OutOfMemory, Packet};

/// The hash of each flow of these packets, by flow number; nothing for a number that no packet has.
#[tactic(auto, using(crate::proofs::Capture::HashLemmas::hashes_none))]
pub fn flow_hashes(
    alloc: Global,
    packets: &[Packet],
) -> Result<Vec<Option<Option<u32>>>, OutOfMemory>
    requires { AreOfFlows packets.now }
    ensures { IfOk result (λ hashes. AreFlowHashes packets.now hashes.items) }
{
    let mut hashes = Vec::with_capacity(alloc, packets.len())?;
    hashes.resize(packets.len(), None)?;
    keep_hashes(&mut hashes, packets);
    Ok(hashes)
}

// Records the hash of each packet for its flow.
fn keep_hashes(hashes: &mut [Option<Option<u32>>], packets: &[Packet])
    requires many { length hashes.old ≡ length packets.now }
    requires empty { AreFlowHashes [] hashes.old }
    requires flows { AreOfFlows packets.now }
    ensures { AreFlowHashes packets.now hashes.new }
{
    for packet in packets {
        keep_hash(hashes, packet);
    }
}

// Records the hash of a packet for its flow, unless there is one already.
fn keep_hash(hashes: &mut [Option<Option<u32>>], packet: &Packet)
    requires { packet.now.flow_number < length hashes.old }
    ensures { hashes.new ≡ with_hash hashes.old packet.now }
{
    let flow = packet.flow_number as usize;
    if hashes[flow].is_none() {
        hashes[flow] = Some(packet.hash);
    }
}
