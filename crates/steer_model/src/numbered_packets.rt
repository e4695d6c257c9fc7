//! Packets with the numbers of their flows.
ghost use Rattle.std.specs.Prelude.{ℕ, ◌≡◌, List, [], ◌∷◌, ◌++◌, IfOk, OnOk, map};
ghost use Rattle.steer_model.specs.Capture.PacketLists.{HasPackets, dissected_of};

use crate::flow_numbers::FlowNumbers;
use std::alloc::Global;
use std::snapshot::Snapshot;
use steer_base::{Flow, OutOfMemory, Packet};

/// What is kept of a frame until its flow is numbered.
#[derive(Clone, Copy, Drop)]
pub struct Dissected {
    /// Its flow.
    pub flow: Flow,
    /// The hash of the flow, if it has one.
    pub hash: Option<u32>,
    /// Its length.
    pub len: u32,
}

/// Packets, and the numbers of their flows.
#[derive(Drop)]
pub struct NumberedPackets {
    pub numbers: FlowNumbers,
    pub packets: Vec<Packet>,
}

impl NumberedPackets {
    /// No packets, with memory for so many.
    pub fn make(alloc: Global, room: usize) -> Result<NumberedPackets, OutOfMemory>
        ensures { IfOk result (λ n. (key kinds : ℕ) → HasPackets key kinds [] n) }
    {
        Ok(NumberedPackets {
            numbers: FlowNumbers::new(alloc),
            packets: Vec::with_capacity(alloc, room)?,
        })
    }

    // Appends the packet of a frame.
    fn push(&mut self, from: Dissected) -> Result<(), OutOfMemory>
        ensures { OnOk result ((key kinds : ℕ) (frames : List (List ℕ)) (frame : List ℕ)
            → HasPackets key kinds frames self.old → dissected_of key kinds frame ≡ from
            → HasPackets key kinds (frames ++ frame ∷ []) self.new) }
    {
        let Dissected { flow, hash, len } = from;
        let flow_number = self.numbers.number_of(flow)?;
        self.packets.push(Packet {
            flow: Snapshot::of(&flow),
            hash,
            len,
            flow_number,
        })?;
        Ok(())
    }

    /// Appends the packets of frames. The processor looks the numbers of several flows up at once,
    /// as nothing else is done between them.
    pub fn push_all(&mut self, waiting: &[Dissected]) -> Result<(), OutOfMemory>
        ensures { OnOk result ((key kinds : ℕ) (frames more : List (List ℕ))
            → HasPackets key kinds frames self.old → map (dissected_of key kinds) more ≡ waiting.now
            → HasPackets key kinds (frames ++ more) self.new) }
    {
        for from in waiting {
            self.push(*from)?;
        }
        Ok(())
    }

    /// The packets.
    pub fn into_packets(self) -> Vec<Packet>
        ensures { result.items ≡ self.packets.items }
    {
        self.packets
    }
}
