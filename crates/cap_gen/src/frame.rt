//! Makes the frames of generated packets.
ghost use Rattle.std.specs.Prelude.{◌≡◌, ◌<◌};
ghost use Rattle.cap_gen.specs.declared.frame.TheConstants.{MAX_FLOWS};
ghost use Rattle.cap_gen.specs.Packets.{generated_frame};

use byteorder::{BigEndian, ByteOrder};

/// A TCP packet over IPv4 over Ethernet, from port 0 of 10.0.0.0 to port 80 of 10.128.0.1.
const FRAME: [u8; 54] = [
    0x02, 0x00, 0x00, 0x00, 0x00, 0x02, 0x02, 0x00, 0x00, 0x00, 0x00, 0x01, 0x08, 0x00, 0x45, 0x00,
    0x00, 0x28, 0x00, 0x00, 0x00, 0x00, 0x40, 0x06, 0x00, 0x00, 0x0a, 0x00, 0x00, 0x00, 0x0a, 0x80,
    0x00, 0x01, 0x00, 0x00, 0x00, 0x50, 0x00, 0x00, 0x00, 0x00, 0x00, 0x00, 0x00, 0x00, 0x50, 0x00,
    0x00, 0x00, 0x00, 0x00, 0x00, 0x00,
];

/// The most flows of a generated capture.
pub const MAX_FLOWS: u32 = 65_536;

/// The source port of flow 0.
pub const FIRST_PORT: u32 = 1_024;

/// The number of source ports, which flows use in turn.
pub const PORTS: u32 = 32_768;

/// The address of flow 0, 10.0.0.0, as a number.
const FIRST_SOURCE: u32 = 0x0a00_0000;

/// The frame of each packet of a flow.
#[tactic(auto, unfolding(crate::specs::Packets::generated_frame))]
pub fn frame_of(flow: u32) -> [u8; 54]
    requires { flow < MAX_FLOWS }
    ensures { result ≡ generated_frame flow }
{
    let mut frame = FRAME;
    BigEndian::write_u32(&mut frame[26..], FIRST_SOURCE + flow);
    BigEndian::write_u16(&mut frame[34..], (FIRST_PORT + flow % PORTS) as u16);
    frame
}
