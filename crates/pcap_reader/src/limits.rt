//! Limits and numbers of capture files that more than one reader keeps.

/// The most bytes of a frame that a capture file may hold (256 KiB).
pub const MAX_FRAME: u32 = 262_144;

/// The link type of Ethernet (`LINKTYPE_ETHERNET`), the only one that is read.
pub const LINKTYPE_ETHERNET: u32 = 1;
