//! Walks over the blocks of a pcapng file.
ghost use Rattle.std.specs.Prelude.{◌≡◌, ◌≢◌, ◌⊎◌};
ghost use Rattle.capture_stream.specs.Pcapng.{HasPassed};

use crate::fault::StreamFault;
use crate::walk::{Next, Walk};
use pcapng_reader::{NgFault, NgNext, NgWalker, a_walker_passes_blocks};

impl Walk for NgWalker {
    ghost passed = { HasPassed };

    fn next(&mut self, window: &[u8]) -> Result<Next, StreamFault> {
        a_walker_passes_blocks();
        match self.next(window) {
            Ok(NgNext::Frame { start, len, size }) => Ok(Next::Frame { start, len, size }),
            Ok(NgNext::Other { size }) => Ok(Next::Other { size }),
            Ok(NgNext::Incomplete) => Ok(Next::Incomplete),
            Err(fault) => Err(fault_of(fault)),
        }
    }

    fn goes_on(&self) {
        a_walker_passes_blocks();
    }
}

// The fault of a file, if it is one of its bytes.
fn fault_of(fault: NgFault) -> StreamFault
    ensures { ((fault ≡ NgFault.OutOfMemory) × (result ≡ StreamFault.OutOfMemory))
        ⊎ ((fault ≢ NgFault.OutOfMemory) × (result ≡ StreamFault.Ng fault)) }
{
    match fault {
        NgFault::OutOfMemory => StreamFault::OutOfMemory,
        fault => StreamFault::Ng(fault),
    }
}
