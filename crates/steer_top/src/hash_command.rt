//! The command `hash`: keeps the flow of each frame of a capture, then writes a line per packet.
ghost use Rattle.std.specs.Prelude.{◌≡◌, ◌≤◌, ℕ, List};
ghost use Rattle.outside_io.specs.Desk.{GoesOnTelling};
ghost use Rattle.replay.specs.Meanings.{Meaning};
ghost use Rattle.steer_top.specs.Calls.{course};
ghost use Rattle.steer_top.specs.Commands.{hash_words_of};
ghost use Rattle.steer_top.specs.Endings.{EndsCommand};
ghost use Rattle.steer_top.specs.Words.CommandWords.{Hash};

use crate::command::HashCommand;
use crate::ending::Ending;
use crate::file::take_frames;
use crate::hasher::Hasher;
use crate::writing::write_lines;
use outside_io::{Desk, Sink};
use std::alloc::Global;
use steer_base::OutOfMemory;

/// Reads the capture and writes the text.
pub fn hash_file<D: Desk, K: Sink>(
    alloc: Global,
    command: &HashCommand,
    desk: &mut D,
    out: &mut K,
) -> Ending
    ensures ends { (taps : List Meaning)
        → EndsCommand result (Hash (hash_words_of command.now))
        (course D.held D.asked D.faults desk.old desk.new K.faults K.written out.old out.new taps) }

    ensures held { D.held desk.new ≡ D.held desk.old }
    ensures told { GoesOnTelling (D.left desk.old) (D.left desk.new) }
    ensures desk_later { D.faults desk.old ≤ D.faults desk.new }
    ensures out_later { K.faults out.old ≤ K.faults out.new }
{
    let mut hasher = match Hasher::make(alloc, command.queues, command.kinds) {
        Ok(hasher) => hasher,
        Err(OutOfMemory) => return Ending::OutOfMemory,
    };
    match take_frames(alloc, command.capture, desk, &mut hasher) {
        Ok(cut) => write_lines(alloc, &hasher, cut, out),
        Err(ending) => ending,
    }
}
