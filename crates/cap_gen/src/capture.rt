//! Makes the capture of generated packets.
ghost use Rattle.std.specs.Prelude.{◌≡◌, ◌≤◌, IfOk, map};
ghost use Rattle.pcap_reader.specs.Captures.{HasCapture, frame_of};
ghost use Rattle.pcap_reader.specs.Writing.{capture_bytes, capture_of};
ghost use Rattle.steer_base.specs.declared.limits.TheConstants.{MAX_PACKETS};
ghost use Rattle.cap_gen.specs.declared.frame.TheConstants.{MAX_FLOWS};
ghost use Rattle.cap_gen.specs.Packets.{packets_of};

use crate::frame::frame_of;
use pcap_reader::{captures_read_back, put_header, put_packet};
use rand_core::utils::NextWord;
use rand_pcg::Lcg64Xsh32;
use std::alloc::Global;
use steer_base::OutOfMemory;

/// The number of bytes of a capture before its first record.
const HEADER_LEN: usize = 24;

/// The number of bytes of a record with its frame.
const RECORD_LEN: usize = 70;

/// The bytes of a capture of the first `packets` packets of a seed, over `flows` flows.
pub fn capture_bytes(
    alloc: Global,
    seed: u64,
    packets: u32,
    flows: u32,
) -> Result<Vec<u8>, OutOfMemory>
    requires few_packets { packets ≤ MAX_PACKETS }
    requires some_flow { 1 ≤ flows }
    requires few_flows { flows ≤ MAX_FLOWS }
    ensures { IfOk result (λ bytes. bytes.items ≡ capture_bytes (packets_of seed flows packets)) }
{
    captures_read_back();
    let mut bytes = Vec::with_capacity(alloc, HEADER_LEN + packets as usize * RECORD_LEN)?;
    put_header(&mut bytes)?;
    let mut words = Lcg64Xsh32::new(seed, 54);
    for i in 0..packets {
        let word = words.next_word();
        put_packet(&mut bytes, i, 0, &frame_of(word % flows))?;
    }
    Ok(bytes)
}
