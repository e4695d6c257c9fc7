//! A walk over the records of a classic pcap file.
ghost use Rattle.std.specs.Prelude.{◌≡◌, ◌≤◌, ◌<◌, ◌+◌, ◌^◌, [], length, drop, IfOk, IfErr};
ghost use Rattle.pcap_reader.specs.Fronts.{IsFront};
ghost use Rattle.pcap_reader.specs.Numbers.{number_of};
ghost use Rattle.pcapng_reader.specs.Captures.{BeginsNg};
ghost use Rattle.capture_stream.specs.Captures.{TellsOf};

use crate::fault::StreamFault;
use crate::walk::{Next, Walk};
use byteorder::{BigEndian, LittleEndian};
use pcap_reader::{CaptureFault, FILE_HEADER, Format, Front, RECORD_HEADER, read_header};
use steer_base::MAX_PACKETS;

/// Walks over the records of a classic pcap file.
#[derive(Drop)]
pub struct ClassicWalker {
    format: Format,
    // How many bytes and packets of the file were passed.
    place: usize,
    packets: u32,
}

impl ClassicWalker {
    ghost use Rattle.capture_stream.specs.Classic.{PassedClassic};

    /// Reads the header of a file, whose first bytes these are, and passes it. A fault is that of
    /// every file that begins with them.
    pub fn open(bytes: &[u8]) -> Result<ClassicWalker, StreamFault>
        requires whole { 24 ≤ length bytes.now }
        requires classic { BeginsNg bytes.now → ⊥ }
        ensures passed { IfOk result (λ walker.
            PassedClassic walker bytes.now [] (drop 24 bytes.now)) }
        ensures fault { IfErr result (TellsOf bytes.now) }
    {
        match read_header(bytes) {
            Ok(format) => Ok(ClassicWalker {
                format,
                place: FILE_HEADER,
                packets: 0,
            }),
            Err(fault) => Err(StreamFault::Classic(fault)),
        }
    }

    // What the window begins with.
    fn front(&self, window: &[u8]) -> Front
        requires some { 0 < length window.now }
        requires fits { self.now.place + length window.now < 2 ^ 64 }
        ensures { IsFront (number_of self.now.format.big) self.now.place window.now result }
    {
        if self.format.big {
            Front::of::<BigEndian>(window, self.place)
        } else {
            Front::of::<LittleEndian>(window, self.place)
        }
    }
}

impl Walk for ClassicWalker {
    ghost use Rattle.capture_stream.specs.Classic.{PassedClassic};

    ghost passed = { PassedClassic };

    fn next(&mut self, window: &[u8]) -> Result<Next, StreamFault> {
        if window.is_empty() {
            return Ok(Next::Incomplete);
        }
        if self.packets as usize >= MAX_PACKETS {
            return Err(StreamFault::Classic(CaptureFault::TooManyPackets));
        }
        match self.front(window) {
            Front::Whole(record) => {
                let len = record.len as usize;
                let size = RECORD_HEADER + len;
                self.place += size;
                self.packets += 1;
                Ok(Next::Frame {
                    start: RECORD_HEADER,
                    len,
                    size,
                })
            }
            Front::TooLong(len) => {
                let at = self.packets;
                Err(StreamFault::Classic(CaptureFault::RecordTooLong { at, len }))
            }
            Front::Cut => Ok(Next::Incomplete),
        }
    }

    fn goes_on(&self) {}
}
