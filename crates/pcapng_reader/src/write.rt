//! Writes a capture: one little-endian section of Ethernet frames.
ghost use Rattle.std.specs.Prelude.{◌≡◌, ◌≤◌, ◌+◌, ◌++◌, length, OnOk, OnErr, IsOk, vec_len};
ghost use Rattle.std.specs.Prelude.{replicate};
ghost use Rattle.std.specs.Vec.{vec_capacity};
ghost use Rattle.byteorder.specs.Endian.{little_bytes};
ghost use Rattle.pcap_reader.specs.declared.limits.TheConstants.{MAX_FRAME};
ghost use Rattle.pcapng_reader.specs.Writing.{section_bytes, enhanced_len, enhanced_header};
ghost use Rattle.pcapng_reader.specs.Writing.{enhanced_bytes};

use crate::content::{ENHANCED, padded};
use byteorder::{ByteOrder, LittleEndian};
use steer_base::OutOfMemory;

/// A section header of version 1.0 and unspecified length, and the description of an Ethernet
/// interface that keeps at most `MAX_FRAME` bytes of each frame.
const SECTION: [u8; 48] = [
    0x0a, 0x0d, 0x0d, 0x0a, 28, 0, 0, 0, 0x4d, 0x3c, 0x2b, 0x1a, 1, 0, 0, 0, 0xff, 0xff, 0xff,
    0xff, 0xff, 0xff, 0xff, 0xff, 28, 0, 0, 0, 1, 0, 0, 0, 20, 0, 0, 0, 1, 0, 0, 0, 0, 0, 4, 0, 20,
    0, 0, 0,
];

/// The number of bytes of an enhanced packet block besides its padded frame.
const ENHANCED_FIELDS: u32 = 32;

/// The longest padding of a frame.
const ZEROS: [u8; 3] = [0, 0, 0];

/// Appends a section header and one interface, 48 bytes. On an error `out` is unchanged. Allocates
/// nothing if `out` has room.
#[tactic(auto, unfolding(crate::specs::Writing::section_bytes))]
pub fn put_section(out: &mut Vec<u8>) -> Result<(), OutOfMemory>
    ensures ok { OnOk result (out.new.items ≡ out.old.items ++ section_bytes) }
    ensures err { OnErr result (out.new.items ≡ out.old.items) }
    ensures room { vec_len out.old + 48 ≤ vec_capacity out.old → IsOk result }
{
    out.extend_from_slice(&SECTION)?;
    Ok(())
}

/// Appends an enhanced packet of interface 0 at time 0, with the frame's length as both captured
/// and original length, its bytes, and zeros that pad it to a multiple of four. On an error `out`
/// is unchanged. Allocates nothing if `out` has room.
pub fn put_enhanced(out: &mut Vec<u8>, frame: &[u8]) -> Result<(), OutOfMemory>
    requires { length frame.now ≤ MAX_FRAME }
    ensures ok { OnOk result (out.new.items ≡ out.old.items ++ enhanced_bytes frame.now) }
    ensures err { OnErr result (out.new.items ≡ out.old.items) }
    ensures room { vec_len out.old + enhanced_len (length frame.now) ≤ vec_capacity out.old
        → IsOk result }
{
    let len = frame.len() as u32;
    let padding = (padded(len) - len) as usize;
    let header = header_of(len);
    let total = total_of(len);
    out.reserve(header.len() + frame.len() + padding + total.len())?;
    out.extend_from_slice(&header)?;
    out.extend_from_slice(frame)?;
    put_zeros(out, padding)?;
    out.extend_from_slice(&total)?;
    Ok(())
}

/// The 28 bytes before a frame of this length.
#[tactic(auto, unfolding(crate::specs::Writing::enhanced_header))]
fn header_of(len: u32) -> [u8; 28]
    requires { len ≤ MAX_FRAME }
    ensures { result ≡ enhanced_header len }
{
    let mut header = [0; 28];
    LittleEndian::write_u32(&mut header, ENHANCED);
    LittleEndian::write_u32(&mut header[4..], ENHANCED_FIELDS + padded(len));
    LittleEndian::write_u32(&mut header[20..], len);
    LittleEndian::write_u32(&mut header[24..], len);
    header
}

/// The total length of the block of a frame of this length.
fn total_of(len: u32) -> [u8; 4]
    requires { len ≤ MAX_FRAME }
    ensures { result ≡ little_bytes 4 (enhanced_len len) }
{
    let mut total = [0; 4];
    LittleEndian::write_u32(&mut total, ENHANCED_FIELDS + padded(len));
    total
}

/// Appends at most three zeros.
fn put_zeros(out: &mut Vec<u8>, count: usize) -> Result<(), OutOfMemory>
    requires { count ≤ 3 }
    ensures ok { OnOk result (out.new.items ≡ out.old.items ++ replicate count 0) }
    ensures err { OnErr result (out.new.items ≡ out.old.items) }
    ensures room { vec_len out.old + count ≤ vec_capacity out.old → IsOk result }
    ensures capacity { vec_capacity out.old ≤ vec_capacity out.new }
{
    out.extend_from_slice(&ZEROS[..count])?;
    Ok(())
}
