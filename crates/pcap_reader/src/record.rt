//! The record of one packet in a capture file.

/// The numbers of a record, and where its frame is in the file.
#[derive(Clone, Copy, Debug, PartialEq, Eq)]
pub struct PcapRecord {
    /// The time of the packet, in whole seconds since 1970.
    pub sec: u32,
    /// The fraction of the second, in the capture's unit: microseconds or nanoseconds.
    pub frac: u32,
    /// The offset of the frame's first byte in the file.
    pub start: usize,
    /// The number of bytes of the frame that are in the file, at most `MAX_FRAME`.
    pub len: u32,
    /// The number of bytes that the frame had on the wire, according to the file.
    pub orig: u32,
}
