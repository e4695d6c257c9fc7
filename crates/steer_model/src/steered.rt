//! What a run keeps of the packets.
ghost use Rattle.std.specs.Prelude.{◌≡◌, IfOk, map};
ghost use Rattle.std.proofs.Props.{props};

use std::alloc::Global;
use std::snapshot::Snapshot;
use steer_base::{OutOfMemory, Packet};

/// What a run reads of a packet: its hash and the number of its flow, in 12 bytes. The packet
/// itself is there for clauses alone and takes no memory.
#[derive(Drop)]
pub struct Steered {
    /// The hash of the packet, if it has one.
    pub hash: Option<u32>,
    /// The number of the packet's flow.
    pub flow_number: u32,
    /// The packet.
    pub packet: Snapshot<Packet>,
    pub ghost hash_is: { hash ≡ packet.value.hash } by { Prim.hlevel props },
    pub ghost flow_number_is: { flow_number ≡ packet.value.flow_number },
}

impl Steered {
    /// What is read of a packet.
    pub fn of(packet: &Packet) -> Steered
        ensures { result.packet.value ≡ packet.now }
    {
        Steered {
            hash: packet.hash,
            flow_number: packet.flow_number,
            packet: Snapshot::of(packet),
        }
    }
}

/// What is read of each of these packets, in their order. Its memory is reserved once.
pub fn keep_packets(alloc: Global, packets: &[Packet]) -> Result<Vec<Steered>, OutOfMemory>
    ensures { IfOk result (λ kept. map (λ s. s.packet.value) kept.items ≡ packets.now) }
{
    let mut kept = Vec::with_capacity(alloc, packets.len())?;
    for packet in packets {
        kept.push(Steered::of(packet))?;
    }
    Ok(kept)
}
