//! The status of an ending.
ghost use Rattle.std.specs.Prelude.{◌≡◌};
ghost use Rattle.steer_top.specs.Endings.{status_of};

use crate::ending::{Ending, Refusal};

/// The status that the program ends with.
pub fn status(ending: &Ending) -> u8
    ensures { result ≡ status_of ending.now }
{
    match ending {
        Ending::Done => 0,
        Ending::Usage => 2,
        Ending::Refuses(Refusal::Plan(_)) => 3,
        Ending::Refuses(Refusal::Rules(_)) => 3,
        Ending::Refuses(Refusal::Capture(_)) => 4,
        Ending::Refuses(Refusal::Pcapng(_)) => 4,
        Ending::ReadFault => 5,
        Ending::WriteFault => 6,
        Ending::OutOfMemory => 7,
        Ending::Refuses(Refusal::TooLong(_)) => 8,
    }
}
