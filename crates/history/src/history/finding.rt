//! Whether a packet is in a list.
ghost use Rattle.std.specs.Prelude.{◌≡◌};
ghost use Rattle.history.specs.Finding.{is_among, is_in};

use steer_base::PacketId;

// Whether the packet is among these.
pub(crate) fn has_packet(packets: &[PacketId], id: PacketId) -> bool
    ensures { result ≡ is_in id packets.now }
{
    for packet in packets {
        if *packet == id {
            return true;
        }
    }
    false
}

// Whether it is among the first `count` of them.
pub(crate) fn has_packet_among(packets: &[PacketId], count: usize, id: PacketId) -> bool
    ensures { result ≡ is_among count id packets.now }
{
    if count < packets.len() {
        has_packet(&packets[..count], id)
    } else {
        has_packet(packets, id)
    }
}
