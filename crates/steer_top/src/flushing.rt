//! The text of a command is sent on, once and behind all of it.
ghost use Rattle.steer_top.specs.Endings.{Flushes};

use crate::ending::Ending;
use outside_io::{Sink, WriteFault};

/// Sends on the text of a command that was done.
pub fn flush<K: Sink>(ending: Ending, out: &mut K) -> Ending
    ensures { Flushes ending result (K.faults out.old) (K.faults out.new)
        (K.written out.old) (K.written out.new) (K.unsent out.new) }
{
    match ending {
        Ending::Done => match out.flush() {
            Ok(()) => Ending::Done,
            Err(WriteFault) => Ending::WriteFault,
        },
        ending => ending,
    }
}
