//! Why the frames of a file were not read.
ghost use Rattle.capture_stream.specs.declared.fault.StreamFault.TheVariants as fault;
ghost use Rattle.std.specs.Prelude.{◌≡◌};

use pcap_reader::CaptureFault;
use pcapng_reader::NgFault;
use std::alloc::AllocError;
use steer_base::OutOfMemory;

/// Why the frames of a file were not read to its end.
#[derive(Clone, Copy, Debug, PartialEq, Eq)]
pub enum StreamFault {
    /// The desk failed to begin or to read the file.
    Unread,
    /// The file has more bytes than the limit.
    TooLong,
    /// There was not enough memory.
    OutOfMemory,
    /// The file is no classic pcap capture, and does not begin as a pcapng one.
    Classic(CaptureFault),
    /// The file begins as a pcapng capture and is none.
    Ng(NgFault),
}

impl From<OutOfMemory> for StreamFault {
    ghost from_gives = { λ _ e. e ≡ fault.OutOfMemory };

    fn from(_: OutOfMemory) -> Self {
        StreamFault::OutOfMemory
    }
}

impl From<AllocError> for StreamFault {
    ghost from_gives = { λ _ e. e ≡ fault.OutOfMemory };

    fn from(_: AllocError) -> Self {
        StreamFault::OutOfMemory
    }
}
