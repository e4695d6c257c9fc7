//! Generates the input of a replay.
ghost use Rattle.std.specs.Prelude.{◌≡◌, ◌≤◌, IfOk, Ok, map};
ghost use Rattle.pcap_reader.specs.Captures.{HasCapture, frame_of};
ghost use Rattle.pcap_reader.specs.Writing.{capture_bytes, capture_of};
ghost use Rattle.plan_reader.specs.PlanTexts.{plan_of};
ghost use Rattle.serde_json.specs.Written.{compact_text};
ghost use Rattle.steer_base.specs.declared.limits.TheConstants.{MAX_PACKETS};
ghost use Rattle.cap_gen.specs.declared.frame.TheConstants.{MAX_FLOWS};
ghost use Rattle.cap_gen.specs.Packets.{packets_of};
ghost use Rattle.cap_gen.specs.PlanValues.{plan_value, generated_step_count};
ghost use Rattle.cap_gen.specs.Plans.{plan_for};

use crate::capture::capture_bytes;
use crate::plan_text::plan_text;
use pcap_reader::captures_read_back;
use std::alloc::Global;
use steer_base::OutOfMemory;

/// The most steps that a generated plan takes from its seed.
const MOST_STEPS: u32 = 999_999;

/// A capture, and the text of a plan for it.
#[derive(Drop)]
pub struct Generated {
    /// A classic pcap file.
    pub capture: Vec<u8>,
    /// JSON without blanks.
    pub plan: Vec<u8>,
}

/// Generates the input of a seed: a capture of `packets` packets over `flows` flows, and a plan
/// with four steps of the same seed for each packet, at most 999,999.
///
/// Packet i is of flow `w mod flows`, where w is word i of the generator PCG XSH RR 64/32 on
/// stream 54. Flow k is TCP from 10.0.0.0 + k and port `FIRST_PORT + k mod PORTS` to port 80 of
/// 10.128.0.1. The capture is a little-endian pcap file, and packet i is of second i.
pub fn generate(
    alloc: Global,
    seed: u64,
    packets: u32,
    flows: u32,
) -> Result<Generated, OutOfMemory>
    requires few_packets { packets ≤ MAX_PACKETS }
    requires some_flow { 1 ≤ flows }
    requires few_flows { flows ≤ MAX_FLOWS }

    // The capture is that of the packets, with exactly their times and frames, and nothing
    // truncated.
    ensures capture_bytes { IfOk result
        (λ made. made.capture.items ≡ capture_bytes (packets_of seed flows packets)) }
    ensures capture { IfOk result
        (λ made. HasCapture made.capture.items (capture_of (packets_of seed flows packets))) }
    ensures frames { IfOk result
        (λ made. map (frame_of made.capture.items)
        (capture_of (packets_of seed flows packets)).records
        ≡ map (λ packet. packet.frame) (packets_of seed flows packets)) }

    // The text is the compact JSON of the plan's value, and is read as the plan.
    ensures plan_text { IfOk result
        (λ made. made.plan.items ≡ compact_text (plan_value seed (generated_step_count packets))) }
    ensures plan { IfOk result (λ made. plan_of made.plan.items ≡ Ok
        (plan_for seed (generated_step_count packets))) }
{
    captures_read_back();
    let capture = capture_bytes(alloc, seed, packets, flows)?;
    let plan = generate_plan(alloc, seed, packets)?;
    Ok(Generated { capture, plan })
}

/// The text of the plan that `generate` makes: four steps of the seed for each packet, at most
/// 999,999.
pub fn generate_plan(alloc: Global, seed: u64, packets: u32) -> Result<Vec<u8>, OutOfMemory>
    requires { packets ≤ MAX_PACKETS }
    ensures text { IfOk result
        (λ text. text.items ≡ compact_text (plan_value seed (generated_step_count packets))) }
    ensures plan { IfOk result
        (λ text. plan_of text.items ≡ Ok (plan_for seed (generated_step_count packets))) }
{
    Ok(plan_text(alloc, seed, (4 * packets).min(MOST_STEPS))?)
}
