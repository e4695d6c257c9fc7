//! The content of a capture file.
use crate::records::Records;

/// The records of a capture file, its byte order and its unit of time.
#[derive(Drop)]
pub struct Capture {
    /// Whether the numbers of the file are big-endian.
    pub big: bool,
    /// Whether times are in nanoseconds; otherwise they are in microseconds.
    pub nano: bool,
    /// The complete records, in the order of the file.
    pub records: Records,
    /// The number of bytes of a last record, if the file ends within it.
    pub cut: Option<u32>,
}
