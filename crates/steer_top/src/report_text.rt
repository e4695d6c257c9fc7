//! The text of a report.
ghost use Rattle.std.specs.Prelude.{◌≤◌};
ghost use Rattle.replay.specs.Replays.{shown_text};
ghost use Rattle.steer_top.specs.Endings.{EndsWriting};

use crate::ending::Ending;
use outside_io::{Sink, WriteFault};
use replay::Shown;
use report::LineBuf;
use std::alloc::Global;

/// Takes the memory for a line, and writes the report.
pub fn write_report<K: Sink>(alloc: Global, shown: &Shown, out: &mut K) -> Ending
    ensures ends { EndsWriting result (shown_text shown.now)
        (K.faults out.old) (K.faults out.new) (K.written out.old) (K.written out.new) }
    ensures later { K.faults out.old ≤ K.faults out.new }
{
    let Ok(mut line) = LineBuf::make(alloc) else {
        return Ending::OutOfMemory;
    };
    match shown.write(&mut line, out) {
        Ok(()) => Ending::Done,
        Err(WriteFault) => Ending::WriteFault,
    }
}
