//! Where a block is in its file.

/// What comes before a block.
#[derive(Clone, Copy, Debug, PartialEq, Eq)]
pub struct Place {
    /// The number of blocks of the file before it.
    pub block: u64,
    /// The number of packets of the file before it.
    pub packets: u32,
    /// The number of bytes of the file before it.
    pub start: usize,
}
