//! How many flows a capture has.
ghost use Rattle.std.specs.Prelude.{◌≡◌};
ghost use Rattle.steer_model.specs.Capture.FlowCounts.{flow_count};

use steer_base::Packet;

/// The number of flows of these packets, whose flows are numbered from 0 without a gap: one more
/// than the greatest number.
pub fn flow_count(packets: &[Packet]) -> u64
    ensures { result ≡ flow_count packets.now }
{
    packets
        .iter()
        .map(|packet| u64::from(packet.flow_number) + 1)
        .fold(0, |most, count| most.max(count))
}
