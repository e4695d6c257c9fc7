//! Writes a capture: a little-endian file with microseconds, of Ethernet frames.
ghost use Rattle.std.specs.Prelude.{◌≡◌, ◌≤◌, ◌+◌, ◌++◌, length, OnOk, OnErr, IsOk, vec_len};
ghost use Rattle.std.specs.Vec.{vec_capacity};
ghost use Rattle.pcap_reader.specs.declared.limits.TheConstants.{MAX_FRAME};
ghost use Rattle.pcap_reader.specs.Writing.{header_bytes, record_header, packet_bytes};

use byteorder::{ByteOrder, LittleEndian};
use steer_base::OutOfMemory;

/// Magic number, version 2.4, two unused fields, the largest frame (65,535), and Ethernet.
const HEADER: [u8; 24] = [
    0xd4, 0xc3, 0xb2, 0xa1, 2, 0, 4, 0, 0, 0, 0, 0, 0, 0, 0, 0, 0xff, 0xff, 0, 0, 1, 0, 0, 0,
];

/// Appends the header of a capture, 24 bytes. On an error `out` is unchanged. Allocates nothing if
/// `out` has room.
#[tactic(auto, unfolding(crate::specs::Writing::header_bytes))]
pub fn put_header(out: &mut Vec<u8>) -> Result<(), OutOfMemory>
    ensures ok { OnOk result (out.new.items ≡ out.old.items ++ header_bytes) }
    ensures err { OnErr result (out.new.items ≡ out.old.items) }
    ensures room { vec_len out.old + 24 ≤ vec_capacity out.old → IsOk result }
{
    out.extend_from_slice(&HEADER)?;
    Ok(())
}

/// Appends the record of a frame: its time in seconds and microseconds, its length as both captured
/// and original length, and its bytes. On an error `out` is unchanged. Allocates nothing if `out`
/// has room.
pub fn put_packet(out: &mut Vec<u8>, sec: u32, frac: u32, frame: &[u8]) -> Result<(), OutOfMemory>
    requires { length frame.now ≤ MAX_FRAME }
    ensures ok { OnOk result (out.new.items
        ≡ out.old.items ++ packet_bytes (record { sec = sec; frac = frac; frame = frame.now })) }
    ensures err { OnErr result (out.new.items ≡ out.old.items) }
    ensures room { vec_len out.old + (16 + length frame.now) ≤ vec_capacity out.old → IsOk result }
{
    let header = header_of(sec, frac, frame.len() as u32);
    out.reserve(header.len() + frame.len())?;
    out.extend_from_slice(&header)?;
    out.extend_from_slice(frame)?;
    Ok(())
}

/// The 16 bytes before a frame of this length.
#[tactic(auto, unfolding(crate::specs::Writing::record_header))]
fn header_of(sec: u32, frac: u32, len: u32) -> [u8; 16]
    ensures { result ≡ record_header sec frac len }
{
    let mut header = [0; 16];
    LittleEndian::write_u32(&mut header, sec);
    LittleEndian::write_u32(&mut header[4..], frac);
    LittleEndian::write_u32(&mut header[8..], len);
    LittleEndian::write_u32(&mut header[12..], len);
    header
}
