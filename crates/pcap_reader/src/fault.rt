//! Why a file is not a capture.
ghost use Rattle.pcap_reader.specs.declared.fault.CaptureFault.TheVariants.{OutOfMemory as NoSpace};
ghost use Rattle.std.specs.Prelude.{◌≡◌};

use steer_base::OutOfMemory;

/// Why a file's bytes are not a capture, or that memory ran out.
#[derive(Clone, Copy, Debug, PartialEq, Eq)]
pub enum CaptureFault {
    /// The file has `len` bytes, fewer than the 24 of a header.
    ShortHeader { len: usize },
    /// The first four bytes are no magic number. `magic` is them as a little-endian number.
    BadMagic { magic: u32 },
    /// The version is not 2.4.
    BadVersion { major: u16, minor: u16 },
    /// The low 16 bits of the link type are not `LINKTYPE_ETHERNET`. `link` is the whole field.
    BadLink { link: u32 },
    /// The record with number `at`, counted from 0, has a frame of `len` bytes, more than
    /// `MAX_FRAME`.
    RecordTooLong { at: u32, len: u32 },
    /// Bytes follow the record with number `MAX_PACKETS`, counted from 1.
    TooManyPackets,
    /// There was not enough memory for the records.
    OutOfMemory,
}

impl From<OutOfMemory> for CaptureFault {
    ghost from_gives = { λ _ e. e ≡ NoSpace };

    fn from(_: OutOfMemory) -> Self {
        CaptureFault::OutOfMemory
    }
}
