//! What the plan and the capture fix.
ghost use Rattle.std.specs.Prelude.{◌≡◌, ◌<◌, ◌≤◌, IfOk, length, slice_index};
ghost use Rattle.steer_base.specs.declared.limits.TheConstants.{MAX_PACKETS};
ghost use Rattle.steer_model.specs.State.Ranges.{AreFlowHashes, AreOfFlows, IsGiven};
ghost use Rattle.steer_model.specs.State.Setup.{app_for, flow_hash, flow_number_of, packet_hash};
ghost use Rattle.steer_model.specs.State.Start.{setup_of};

use crate::flow_hashes::flow_hashes;
use crate::steered::{Steered, keep_packets};
use plan_reader::Plan;
use std::alloc::Global;
use std::marker::Model;
use steer_base::{AppId, Cpu, OutOfMemory, Packet, PacketId, app_of};

/// What the plan and the capture fix for a run: the homes and sizes, the packets, and the length of
/// the cut record in bytes. It also keeps the hash of each flow. Of a packet it stores no more than
/// a run reads, the hash and the number of its flow; clauses see whole packets.
#[derive(Drop)]
pub struct Given {
    homes: Vec<Cpu>,
    cpus: u8,
    txs: u8,
    apps: u8,
    packets: Vec<Steered>,
    cut: Option<u32>,
    hashes: Vec<Option<Option<u32>>>,
}

impl Model for Given {
    ghost use Rattle.std.specs.Prelude.{map};
    ghost use Rattle.steer_model.specs.State.Ranges.{AreFlowHashes, IsGiven};
    ghost use Rattle.steer_model.specs.State.Setup.{Setup};

    ghost Value = { Setup };

    ghost view = { λ g. record {
      homes = g.homes.items;
      cpus = g.cpus;
      txs = g.txs;
      apps = g.apps;
      packets = map (λ s. s.packet.value) g.packets.items;
      cut = g.cut;
    } };

    ghost invariant = { λ g. IsGiven (record {
      homes = g.homes.items;
      cpus = g.cpus;
      txs = g.txs;
      apps = g.apps;
      packets = map (λ s. s.packet.value) g.packets.items;
      cut = g.cut;
    }) × AreFlowHashes (map (λ s. s.packet.value) g.packets.items) g.hashes.items };
}

impl Given {
    /// What a plan and the packets of a capture fix. There are at most `MAX_PACKETS` packets, each
    /// flow has a number below the number of packets, and all packets of a flow have one hash.
    pub fn of_plan(
        alloc: Global,
        plan: &Plan,
        packets: &[Packet],
        cut: Option<u32>,
    ) -> Result<Given, OutOfMemory>
        requires few { length packets.now ≤ MAX_PACKETS }
        requires flows { AreOfFlows packets.now }
        ensures { IfOk result (λ given. given ≡ setup_of plan.now packets.now cut) }
    {
        let homes = plan
            .queues
            .as_slice()
            .iter()
            .map(|queue| queue.home)
            .collect(alloc)?;
        let hashes = flow_hashes(alloc, packets)?;
        let packets = keep_packets(alloc, packets)?;
        Ok(Given {
            homes,
            cpus: plan.cpus,
            txs: plan.tx.len() as u8,
            apps: plan.apps.len() as u8,
            packets,
            cut,
            hashes,
        })
    }

    /// The number of packets.
    pub fn packet_count(&self) -> u32
        ensures value { result ≡ length self.now.packets }
        ensures few { result ≤ MAX_PACKETS }
    {
        self.packets.len() as u32
    }

    /// The length of the capture's cut record, if there is one.
    pub fn cut(&self) -> Option<u32>
        ensures { result ≡ self.now.cut }
    {
        self.cut
    }

    /// The hash of a packet, if it has one. Beyond the capture there is none.
    pub fn hash_of(&self, id: PacketId) -> Option<u32>
        ensures { result ≡ packet_hash self.now id }
    {
        match self.packets.get(id.0 as usize) {
            Some(packet) => packet.hash,
            None => None,
        }
    }

    /// The number of a packet's flow; 0 beyond the capture.
    pub fn flow_of(&self, id: PacketId) -> u32
        ensures { result ≡ flow_number_of self.now id }
    {
        match self.packets.get(id.0 as usize) {
            Some(packet) => packet.flow_number,
            None => 0,
        }
    }

    /// The application of a packet: its hash modulo the number of applications.
    pub fn app_of(&self, id: PacketId) -> AppId
        ensures value { result ≡ app_for self.now id }
        ensures within { result < self.now.apps }
    {
        app_of(self.hash_of(id), self.apps)
    }

    /// The hash of a flow, if it has one; nothing if the capture has no such flow.
    pub fn flow_hash(&self, flow: u32) -> Option<Option<u32>>
        ensures { result ≡ flow_hash self.now flow }
    {
        match self.hashes.get(flow as usize) {
            Some(hash) => *hash,
            None => None,
        }
    }

    /// The home processor of a receive queue.
    pub fn home(&self, q: u8) -> Cpu
        requires { q < length self.now.homes }
        ensures { result ≡ slice_index self.now.homes q }
    {
        self.homes[q as usize]
    }

    /// The home processors of all receive queues.
    pub fn homes(&self) -> &[Cpu]
        ensures homes { result.now ≡ self.now.homes }
        ensures few { length result.now ≤ 16 }
    {
        &self.homes
    }

    /// The number of receive queues.
    pub fn queues(&self) -> u8
        ensures value { result ≡ length self.now.homes }
        ensures few { result ≤ 16 }
    {
        self.homes.len() as u8
    }

    /// The number of processors.
    pub fn cpus(&self) -> u8
        ensures value { result ≡ self.now.cpus }
        ensures few { result ≤ 32 }
    {
        self.cpus
    }

    /// The number of applications.
    pub fn apps(&self) -> u8
        ensures value { result ≡ self.now.apps }
        ensures some { 1 ≤ result }
        ensures few { result ≤ 32 }
    {
        self.apps
    }

    /// The number of transmit queues.
    pub fn txs(&self) -> u8
        ensures value { result ≡ self.now.txs }
        ensures few { result ≤ 32 }
    {
        self.txs
    }

    /// Lemma: what is fixed is within the ranges of a plan.
    pub fn ranges(&self)
        ensures { IsGiven self.now }
    {
        let _ = &self.cpus;
    }
}
