//! Reads a capture in one walk over its bytes.
ghost use Rattle.std.specs.Prelude.{◌≡◌, ◌≢◌, ◌≤◌, ◌⊎◌, length, take, drop, All, IfOk, IfErr, OnOk};
ghost use Rattle.std.specs.Prelude.{IfSome, IfNone, IsErrAnd, MatchResult, Bool};
ghost use Rattle.steer_base.specs.declared.limits.TheConstants.{MAX_PACKETS};
ghost use Rattle.pcap_reader.specs.declared.capture.Capture.{Capture as ACapture};
ghost use Rattle.pcap_reader.specs.declared.fault.CaptureFault.{CaptureFault as AFault};
ghost use Rattle.pcap_reader.specs.declared.fault.CaptureFault.TheVariants.{OutOfMemory as NoSpace};
ghost use Rattle.pcap_reader.specs.Numbers.{number_of, HasMagic};
ghost use Rattle.pcap_reader.specs.Captures.{IsEthernet, HasRecords, HasCapture, FrameIsWithin};
ghost use Rattle.pcap_reader.specs.Faults.{HeaderHasFault, RecordsHaveFault, PartsHaveFault};
ghost use Rattle.pcap_reader.specs.Faults.{HasFault};

use crate::capture::Capture;
use crate::fault::CaptureFault;
use crate::front::{Front, RECORD_HEADER};
use crate::header::{FILE_HEADER, Format, read_header};
use crate::records::Records;
use byteorder::{BigEndian, ByteOrder, LittleEndian};
use std::alloc::Global;
use steer_base::MAX_PACKETS;

/// Reads the bytes of a pcap file, version 2.4, of Ethernet frames, in either byte order, with
/// microseconds or nanoseconds. The fault is the first in the order of the file. Allocates memory
/// only for the records.
pub fn read_capture(alloc: Global, bytes: &[u8]) -> Result<Capture, CaptureFault>
    // Ok if and only if the bytes have a capture and memory suffices.
    ensures found { IfOk result (λ capture. HasCapture bytes.now capture) }
    ensures complete { (capture : ACapture) → HasCapture bytes.now capture
        → MatchResult result (λ c. c ≡ capture) (λ e. e ≡ NoSpace) }

    // Each fault if and only if the bytes have it and memory suffices.
    ensures fault { IfErr result (λ e. e ≢ NoSpace → HasFault bytes.now e) }
    ensures exact { (fault : AFault) → HasFault bytes.now fault
        → IsErrAnd result (λ e. (e ≡ fault) ⊎ (e ≡ NoSpace)) }

    ensures few { IfOk result (λ capture. length capture.records ≤ MAX_PACKETS) }
    ensures within { IfOk result (λ capture. All (FrameIsWithin bytes.now) capture.records) }
{
    read_file(alloc, bytes)
}

/// Reads the file. That no other result is right follows from the definitions of captures and
/// faults.
fn read_file(alloc: Global, bytes: &[u8]) -> Result<Capture, CaptureFault>
    ensures found { IfOk result (λ capture. HasCapture bytes.now capture) }
    ensures fault { IfErr result (λ e. e ≢ NoSpace → HasFault bytes.now e) }
{
    if bytes.len() < FILE_HEADER {
        return Err(CaptureFault::ShortHeader { len: bytes.len() });
    }
    let Format { big, nano } = read_header(bytes)?;
    let (records, cut) = read_ordered(alloc, big, bytes)?;
    Ok(Capture {
        big,
        nano,
        records,
        cut,
    })
}

/// Reads the records; numbers are big-endian if `big`.
fn read_ordered(
    alloc: Global,
    big: bool,
    bytes: &[u8],
) -> Result<(Records, Option<u32>), CaptureFault>
    requires { 24 ≤ length bytes.now }
    ensures found { IfOk result (λ r. HasRecords (number_of big) (drop 24 bytes.now) r.0 r.1) }
    ensures fault { IfErr result (λ e. e ≢ NoSpace → RecordsHaveFault (number_of big)
        (drop 24 bytes.now) e) }
{
    if big {
        read_records::<BigEndian>(alloc, bytes)
    } else {
        read_records::<LittleEndian>(alloc, bytes)
    }
}

/// Reads the records of a file, and counts the bytes of a last one that is truncated.
fn read_records<T: ByteOrder>(
    alloc: Global,
    bytes: &[u8],
) -> Result<(Records, Option<u32>), CaptureFault>
    requires { 24 ≤ length bytes.now }
    ensures found { IfOk result (λ r. HasRecords T.number_of (drop 24 bytes.now) r.0 r.1) }
    ensures fault { IfErr result (λ e. e ≢ NoSpace → RecordsHaveFault T.number_of
        (drop 24 bytes.now) e) }
{
    let mut records = Records::new(alloc);
    let (_, mut rest) = bytes.split_at(FILE_HEADER);
    while !rest.is_empty() {
        if records.len() >= MAX_PACKETS {
            return Err(CaptureFault::TooManyPackets);
        }
        match Front::of::<T>(rest, bytes.len() - rest.len()) {
            Front::Whole(record) => {
                records.push(record)?;
                rest = rest.split_at(RECORD_HEADER + record.len as usize).1;
            }
            Front::TooLong(len) => {
                let at = records.len() as u32;
                return Err(CaptureFault::RecordTooLong { at, len });
            }
            Front::Cut => return Ok((records, Some(rest.len() as u32))),
        }
    }
    Ok((records, None))
}
