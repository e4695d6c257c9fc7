//! Writing a frame into a VXLAN.
ghost use Rattle.std.specs.Prelude.{◌≡◌, ◌≤◌, ◌<◌, ◌+◌, ◌^◌, ◌++◌, length, OnOk, OnErr, IsOk};
ghost use Rattle.std.specs.Prelude.{vec_len};
ghost use Rattle.std.specs.Vec.{vec_capacity};
ghost use Rattle.tunnel_dissector.specs.Writing.{folded, header_checksum, vxlan_headers};
ghost use Rattle.tunnel_dissector.specs.Writing.{vxlan_bytes};

use byteorder::{BigEndian, ByteOrder};
use steer_base::OutOfMemory;

/// The bytes of an IPv4 header, a UDP header and a VXLAN header.
const IPV4_TO_VXLAN: u16 = 36;

/// The bytes of a UDP header and a VXLAN header.
const UDP_TO_VXLAN: u16 = 16;

/// The headers before a frame, with zeros for the lengths, the checksum, the addresses and the
/// network identifier: Ethernet, IPv4 without fragments and with a time to live of 64, UDP from
/// port 1024 to 4789 without a checksum, and VXLAN.
const HEADERS: [u8; 50] = [
    0x02, 0, 0, 0, 0, 0x02, 0x02, 0, 0, 0, 0, 0x01, 0x08, 0x00, // Ethernet
    0x45, 0, 0, 0, 0, 0, 0, 0, 64, 17, 0, 0, 0, 0, 0, 0, 0, 0, 0, 0, // IPv4
    0x04, 0x00, 0x12, 0xb5, 0, 0, 0, 0, // UDP
    0x08, 0, 0, 0, 0, 0, 0, 0, // VXLAN
];

/// Appends an Ethernet frame that carries `frame`, of at most 65,000 bytes, in a VXLAN (RFC 7348):
/// 50 bytes of headers, and then `frame`. `src` and `dst` are the outer IPv4 addresses, whose first
/// byte is the most significant; `vni` is the network identifier, of 24 bits. On an error `out` is
/// unchanged. Allocates nothing if `out` has room.
pub fn put_vxlan(
    out: &mut Vec<u8>,
    src: u32,
    dst: u32,
    vni: u32,
    frame: &[u8],
) -> Result<(), OutOfMemory>
    requires frame { length frame.now ≤ 65000 }
    requires vni { vni < 2 ^ 24 }
    ensures ok { OnOk result (out.new.items ≡ out.old.items ++ vxlan_bytes src dst vni frame.now) }
    ensures err { OnErr result (out.new.items ≡ out.old.items) }
    ensures room { vec_len out.old + (50 + length frame.now) ≤ vec_capacity out.old → IsOk result }
{
    let headers = headers_of(src, dst, vni, frame.len() as u16);
    out.reserve(headers.len() + frame.len())?;
    out.extend_from_slice(&headers)?;
    out.extend_from_slice(frame)?;
    Ok(())
}

/// The headers before a frame of this length.
#[tactic(auto, unfolding(crate::specs::Writing::vxlan_headers))]
fn headers_of(src: u32, dst: u32, vni: u32, len: u16) -> [u8; 50]
    requires frame { len ≤ 65000 }
    requires vni { vni < 2 ^ 24 }
    ensures { result ≡ vxlan_headers src dst vni len }
{
    let total = IPV4_TO_VXLAN + len;
    let mut headers = HEADERS;
    BigEndian::write_u16(&mut headers[16..], total);
    BigEndian::write_u16(&mut headers[24..], header_checksum(total, src, dst));
    BigEndian::write_u32(&mut headers[26..], src);
    BigEndian::write_u32(&mut headers[30..], dst);
    BigEndian::write_u16(&mut headers[38..], UDP_TO_VXLAN + len);
    BigEndian::write_u32(&mut headers[46..], vni * 256);
    headers
}

/// A sum of 16-bit words with what went over added in.
fn folded(sum: u32) -> u32
    ensures { result ≡ folded sum }
{
    sum / 65_536 + sum % 65_536
}

/// The checksum of the IPv4 header (RFC 791, RFC 1071).
fn header_checksum(total: u16, src: u32, dst: u32) -> u16
    ensures { result ≡ header_checksum total src dst }
{
    let fixed = 0x4500 + 0x4011 + u32::from(total);
    let sum = fixed + src / 65_536 + src % 65_536 + dst / 65_536 + dst % 65_536;
    (65_535 - folded(folded(sum))) as u16
}
