//! Hands generated frames on, one by one.
ghost use Rattle.std.specs.Prelude.{◌≤◌, [], OnOk};
ghost use Rattle.steer_base.specs.declared.limits.TheConstants.{MAX_PACKETS};
ghost use Rattle.cap_gen.specs.declared.frame.TheConstants.{MAX_FLOWS};
ghost use Rattle.cap_gen.specs.Packets.{frames_of};

use crate::frame::frame_of;
use pcap_reader::FrameSink;
use rand_core::utils::NextWord;
use rand_pcg::Lcg64Xsh32;
use steer_base::{OutOfMemory, remainder};

/// Hands the frames of the capture that `generate` makes to a sink, in their order, and makes no
/// capture: the first `packets` packets of a seed, over `flows` flows.
pub fn generate_frames<F: FrameSink>(
    seed: u64,
    packets: u32,
    flows: u32,
    sink: &mut F,
) -> Result<(), OutOfMemory>
    requires few_packets { packets ≤ MAX_PACKETS }
    requires some_flow { 1 ≤ flows }
    requires few_flows { flows ≤ MAX_FLOWS }
    requires began { F.takes sink.old [] sink.old }
    ensures frames { OnOk result (F.takes sink.old (frames_of seed flows packets) sink.new) }
{
    let mut words = Lcg64Xsh32::new(seed, 54);
    for i in 0..packets {
        let flow = remainder(words.next_word(), flows);
        sink.take(&frame_of(flow))?;
    }
    Ok(())
}
