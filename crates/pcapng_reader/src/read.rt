//! Reads a capture in one walk over the blocks of its file.
ghost use Rattle.std.specs.Prelude.{◌≡◌, ◌≢◌, ◌≤◌, ◌⊎◌, ◌↔◌, length, All, IsTrue, IfOk, IfErr};
ghost use Rattle.std.specs.Prelude.{IsErrAnd, MatchResult};
ghost use Rattle.steer_base.specs.declared.limits.TheConstants.{MAX_PACKETS};
ghost use Rattle.pcap_reader.specs.declared.capture.Capture.{Capture as ACapture};
ghost use Rattle.pcap_reader.specs.Captures.{FrameIsWithin};
ghost use Rattle.pcapng_reader.specs.declared.fault.NgFault.{NgFault as AFault};
ghost use Rattle.pcapng_reader.specs.declared.fault.NgFault.TheVariants.{OutOfMemory as NoMemory};
ghost use Rattle.pcapng_reader.specs.Captures.{BeginsNg, HasNgCapture, HasNgFault};

use crate::block::block_at;
use crate::fault::NgFault;
use crate::reader::Reader;
use pcap_reader::Capture;
use std::alloc::Global;

/// Whether bytes begin with the type of a section header, as every pcapng file does.
pub fn is_pcapng(bytes: &[u8]) -> bool
    ensures { IsTrue result ↔ BeginsNg bytes.now }
{
    matches!(bytes, [0x0a, 0x0d, 0x0d, 0x0a, ..])
}

/// Reads the bytes of a pcapng file of Ethernet frames, which begin with the type of a section
/// header, `0a 0d 0d 0a`: any number of sections, in either byte order, with their interfaces,
/// enhanced and simple packets; all other blocks are skipped. The fault is the first in the order
/// of the file. The two words of a packet's time become its `sec` and `frac`, whatever the
/// interface's unit of time is. Allocates memory for the records and for the interfaces of a
/// section.
pub fn read_ng(alloc: Global, bytes: &[u8]) -> Result<Capture, NgFault>
    requires { BeginsNg bytes.now }

    // Ok if and only if the bytes have a capture and memory suffices.
    ensures found { IfOk result (λ capture. HasNgCapture bytes.now capture) }
    ensures complete { (capture : ACapture) → HasNgCapture bytes.now capture
        → MatchResult result (λ c. c ≡ capture) (λ e. e ≡ NoMemory) }

    // Each fault if and only if the bytes have it and memory suffices.
    ensures fault { IfErr result (λ e. e ≢ NoMemory → HasNgFault bytes.now e) }
    ensures exact { (fault : AFault) → HasNgFault bytes.now fault
        → IsErrAnd result (λ e. (e ≡ fault) ⊎ (e ≡ NoMemory)) }

    ensures few { IfOk result (λ capture. length capture.records ≤ MAX_PACKETS) }
    ensures within { IfOk result (λ capture. All (FrameIsWithin bytes.now) capture.records) }
{
    read_file(alloc, bytes)
}

/// Reads the file. That no other result is right follows from the definitions of captures and
/// faults.
fn read_file(alloc: Global, bytes: &[u8]) -> Result<Capture, NgFault>
    requires { BeginsNg bytes.now }
    ensures found { IfOk result (λ capture. HasNgCapture bytes.now capture) }
    ensures fault { IfErr result (λ e. e ≢ NoMemory → HasNgFault bytes.now e) }
    ensures few { IfOk result (λ capture. length capture.records ≤ MAX_PACKETS) }
    ensures within { IfOk result (λ capture. All (FrameIsWithin bytes.now) capture.records) }
{
    let mut reader = Reader::new(alloc);
    let mut rest = bytes;
    while !rest.is_empty() {
        let Some(block) = block_at(&reader.walker.section, reader.walker.place, rest)? else {
            return Ok(reader.ends(Some(rest.len() as u32)));
        };
        reader.take_in(block)?;
        rest = rest.split_at(block.len as usize).1;
    }
    Ok(reader.ends(None))
}
