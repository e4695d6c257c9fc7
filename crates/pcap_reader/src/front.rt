//! What comes next at one place after the header of a capture.
ghost use Rattle.std.specs.Prelude.{◌≤◌, ◌<◌, ◌+◌, ◌^◌, length};

use crate::limits::MAX_FRAME;
use crate::record::PcapRecord;
use byteorder::ByteOrder;

/// The number of bytes of a record before its frame.
pub const RECORD_HEADER: usize = 16;

/// What some bytes begin with.
pub enum Front {
    /// A whole record.
    Whole(PcapRecord),
    /// The header of a record whose frame would have this length, more than `MAX_FRAME`.
    TooLong(u32),
    /// A truncated record.
    Cut,
}

impl Front {
    ghost use Rattle.pcap_reader.specs.Fronts.{IsFront};

    /// What these bytes begin with. `place` is the offset of the first of them in the file.
    pub fn of<T: ByteOrder>(rest: &[u8], place: usize) -> Front
        requires some { 0 < length rest.now }
        requires fits { place + length rest.now < 2 ^ 64 }
        ensures { IsFront T.number_of place rest.now result }
    {
        if rest.len() < RECORD_HEADER {
            return Front::Cut;
        }
        let (header, behind) = rest.split_at(RECORD_HEADER);
        let len = T::read_u32(&header[8..]);
        if len > MAX_FRAME {
            return Front::TooLong(len);
        }
        if len as usize > behind.len() {
            return Front::Cut;
        }
        Front::Whole(PcapRecord {
            sec: T::read_u32(header),
            frac: T::read_u32(&header[4..]),
            start: place + RECORD_HEADER,
            len,
            orig: T::read_u32(&header[12..]),
        })
    }
}
