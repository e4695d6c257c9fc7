//! The header of a capture file.
ghost use Rattle.std.specs.Prelude.{◌≡◌, ◌≤◌, ◌++◌, ℕ, List, length, take, IfOk, IfErr, IfSome};
ghost use Rattle.std.specs.Prelude.{IfNone, OnOk, Bool};
ghost use Rattle.pcap_reader.specs.Numbers.{number_of, HasMagic};
ghost use Rattle.pcap_reader.specs.Captures.{IsEthernet};
ghost use Rattle.pcap_reader.specs.Faults.{HeaderHasFault, HasFault};

use crate::fault::CaptureFault;
use crate::limits::LINKTYPE_ETHERNET;
use byteorder::{BigEndian, ByteOrder, LittleEndian};

/// The number of bytes of a file before its first record.
pub const FILE_HEADER: usize = 24;

/// The major version of the format that is read.
const MAJOR: u16 = 2;

/// The minor version of the format that is read.
const MINOR: u16 = 4;

/// The number of low bits of its field that hold the link type.
const LINKTYPE_BITS: u32 = 16;

/// How a capture file writes its numbers and its times.
#[derive(Clone, Copy, Debug, PartialEq, Eq)]
pub struct Format {
    /// Whether the numbers of the file are big-endian.
    pub big: bool,
    /// Whether times are in nanoseconds; otherwise they are in microseconds.
    pub nano: bool,
}

/// Reads the header of a file, whose first bytes these are. A fault is that of every file that
/// begins with them.
pub fn read_header(bytes: &[u8]) -> Result<Format, CaptureFault>
    requires { 24 ≤ length bytes.now }
    ensures magic { IfOk result (λ format. HasMagic format.big format.nano bytes.now) }
    ensures ethernet { IfOk result (λ format.
        IsEthernet (number_of format.big) (take 24 bytes.now)) }
    ensures fault { IfErr result (λ e. (more : List ℕ) → HasFault (bytes.now ++ more) e) }
{
    let Some(format) = format_of(bytes) else {
        return Err(CaptureFault::BadMagic {
            magic: LittleEndian::read_u32(bytes),
        });
    };
    check_ordered(format.big, &bytes[..FILE_HEADER])?;
    Ok(format)
}

/// The byte order and the unit of time that the first four bytes announce.
fn format_of(bytes: &[u8]) -> Option<Format>
    requires { 24 ≤ length bytes.now }
    ensures some { IfSome result (λ format. HasMagic format.big format.nano bytes.now) }
    ensures none { IfNone result ((big nano : Bool) → HasMagic big nano bytes.now → ⊥) }
{
    let (big, nano) = match &bytes[..4] {
        [0xd4, 0xc3, 0xb2, 0xa1] => (false, false),
        [0x4d, 0x3c, 0xb2, 0xa1] => (false, true),
        [0xa1, 0xb2, 0xc3, 0xd4] => (true, false),
        [0xa1, 0xb2, 0x3c, 0x4d] => (true, true),
        _ => return None,
    };
    Some(Format { big, nano })
}

/// Checks the version and the link type; numbers are big-endian if `big`.
fn check_ordered(big: bool, header: &[u8]) -> Result<(), CaptureFault>
    requires { length header.now ≡ 24 }
    ensures ok { OnOk result (IsEthernet (number_of big) header.now) }
    ensures fault { IfErr result (λ e. HeaderHasFault (number_of big) header.now e) }
{
    if big {
        check_header::<BigEndian>(header)
    } else {
        check_header::<LittleEndian>(header)
    }
}

/// Checks that the header has version 2.4 and link type Ethernet.
fn check_header<T: ByteOrder>(header: &[u8]) -> Result<(), CaptureFault>
    requires { length header.now ≡ 24 }
    ensures ok { OnOk result (IsEthernet T.number_of header.now) }
    ensures fault { IfErr result (λ e. HeaderHasFault T.number_of header.now e) }
{
    let major = T::read_u16(&header[4..]);
    let minor = T::read_u16(&header[6..]);
    if major != MAJOR || minor != MINOR {
        return Err(CaptureFault::BadVersion { major, minor });
    }
    let link = T::read_u32(&header[20..]);
    if link % (1 << LINKTYPE_BITS) != LINKTYPE_ETHERNET {
        return Err(CaptureFault::BadLink { link });
    }
    Ok(())
}
