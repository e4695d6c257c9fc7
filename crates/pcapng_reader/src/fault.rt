//! Why a file is not a capture.
ghost use Rattle.pcapng_reader.specs.declared.fault.NgFault.TheVariants.{OutOfMemory as NoMemory};
ghost use Rattle.std.specs.Prelude.{◌≡◌};

use steer_base::OutOfMemory;

/// Why a pcapng file's bytes are not a capture, or that memory ran out. Blocks and records are
/// counted from 0 over the whole file.
#[derive(Clone, Copy, Debug, PartialEq, Eq)]
pub enum NgFault {
    /// The byte-order magic of a section header fits neither byte order. `magic` is it as a
    /// little-endian number.
    BadOrder { magic: u32 },
    /// The total length of a block, `len`, is not a multiple of 4, or less than the minimum for its
    /// type, or leaves no room for the frame of its packet.
    BadBlock { block: u64, len: u32 },
    /// The total length at the end of a block, `len`, is not the one at its beginning.
    BadTail { block: u64, len: u32 },
    /// The major version of a section is not 1.
    BadMajor { major: u16 },
    /// A packet follows `MAX_PACKETS` others.
    TooManyPackets,
    /// A packet names an interface that its section has not described.
    BadInterface { block: u64, id: u32 },
    /// The link type of a packet's interface is not `LINKTYPE_ETHERNET`.
    BadNgLink { block: u64, link: u32 },
    /// The frame of the record with number `at` has `len` bytes, more than `MAX_FRAME`.
    RecordTooLong { at: u32, len: u32 },
    /// There was not enough memory for the records or for the interfaces of a section.
    OutOfMemory,
}

impl From<OutOfMemory> for NgFault {
    ghost from_gives = { λ _ e. e ≡ NoMemory };

    fn from(_: OutOfMemory) -> Self {
        NgFault::OutOfMemory
    }
}
