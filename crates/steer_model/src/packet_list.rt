//! The packets of a capture.
ghost use Rattle.std.specs.Prelude.{◌≡◌, ◌≤◌, ◌<◌, ℕ, List, [], ◌∷◌, ◌++◌, IfOk, OnOk, length, map};
ghost use Rattle.std.specs.List.{All};
ghost use Rattle.steer_base.specs.declared.limits.TheConstants.{MAX_PACKETS};
ghost use Rattle.pcap_reader.specs.Captures.{FrameIsWithin};
ghost use Rattle.steer_model.specs.State.Ranges.{AreOfFlows};
ghost use Rattle.steer_model.specs.Capture.Packets.{ArePackets, ArePacketsOfFrames};
ghost use Rattle.steer_model.specs.Capture.PacketLists.{IsListOf, IsSettledListOf, Takes};

use crate::numbered_packets::{Dissected, NumberedPackets};
use flow_dissector::dissect;
use pcap_reader::{Capture, FrameSink};
use std::alloc::Global;
use steer_base::{OutOfMemory, Packet};
use toeplitz::{Key, Kinds, TabledKey};

/// How many flows wait before their numbers are looked up.
const MOST_WAITING: usize = 16;

/// The packets of frames that are taken one after another. Of each frame it keeps 16 bytes. The
/// flows of the last frames are numbered together, at most sixteen at a time.
#[derive(Drop)]
pub struct PacketList {
    key: TabledKey,
    kinds: Kinds,
    waiting: Vec<Dissected>,
    numbered: NumberedPackets,
}

impl PacketList {
    /// No packets, with memory for so many. Those to come are hashed by the key and the kinds.
    pub fn make(
        alloc: Global,
        key: &Key,
        kinds: Kinds,
        room: usize,
    ) -> Result<PacketList, OutOfMemory>
        ensures { IfOk result (λ list. IsListOf key.now kinds.0 [] list) }
    {
        Ok(PacketList {
            key: TabledKey::make(alloc, key)?,
            kinds,
            waiting: Vec::with_capacity(alloc, MOST_WAITING)?,
            numbered: NumberedPackets::make(alloc, room)?,
        })
    }

    // Numbers the flows that wait.
    fn number_waiting(&mut self) -> Result<(), OutOfMemory>
        ensures { OnOk result ((key kinds : ℕ) (frames : List (List ℕ))
            → IsListOf key kinds frames self.old → IsSettledListOf key kinds frames self.new) }
    {
        self.numbered.push_all(self.waiting.as_slice())?;
        self.waiting.clear();
        Ok(())
    }

    // Numbers the flows that wait, if they are as many as may.
    fn make_room(&mut self) -> Result<(), OutOfMemory>
        ensures { OnOk result ((key kinds : ℕ) (frames : List (List ℕ))
            → IsListOf key kinds frames self.old → IsListOf key kinds frames self.new) }
    {
        if self.waiting.len() < MOST_WAITING {
            return Ok(());
        }
        self.number_waiting()?;
        Ok(())
    }

    /// The packets of all frames that were taken: of each the flow, the flow's hash by the key and
    /// the kinds, the length, and the number of the flow, from 0 in order of first appearance.
    pub fn into_packets(mut self) -> Result<Vec<Packet>, OutOfMemory>
        ensures list { IfOk result (λ packets. (key kinds : ℕ) (frames : List (List ℕ))
            → IsListOf key kinds frames self → ArePacketsOfFrames key kinds frames packets.items) }
        ensures flows { IfOk result (λ packets. (key kinds : ℕ) (frames : List (List ℕ))
            → IsListOf key kinds frames self → AreOfFlows packets.items) }
    {
        self.number_waiting()?;
        Ok(self.numbered.into_packets())
    }
}

impl FrameSink for PacketList {
    ghost takes = { Takes };

    /// Appends the packet of a frame.
    fn take(&mut self, frame: &[u8]) -> Result<(), OutOfMemory> {
        self.make_room()?;
        let flow = dissect(frame);
        self.waiting.push(Dissected {
            flow,
            hash: self.key.hash(&flow, self.kinds),
            len: frame.len() as u32,
        })?;
        Ok(())
    }
}

/// The packet of each record of a capture, in order: the flow of its frame, the flow's hash by the
/// key and the kinds, the length, and the number of the flow, from 0 in order of first appearance.
/// There are at most `MAX_PACKETS` records, and the frame of each is within the bytes.
pub fn packets(
    alloc: Global,
    capture: &Capture,
    bytes: &[u8],
    key: &Key,
    kinds: Kinds,
) -> Result<Vec<Packet>, OutOfMemory>
    requires few { length capture.now.records ≤ MAX_PACKETS }
    requires within { All (FrameIsWithin bytes.now) capture.now.records }
    ensures list { IfOk result (λ packets.
        ArePackets key.now kinds.0 bytes.now capture.now.records packets.items) }
    ensures flows { IfOk result (λ packets. AreOfFlows packets.items) }
{
    let records = capture.records.as_slice();
    let mut packets = PacketList::make(alloc, key, kinds, records.len())?;
    for from in records {
        packets.take(&bytes[from.start..from.start + from.len as usize])?;
    }
    let packets = packets.into_packets()?;
    Ok(packets)
}
