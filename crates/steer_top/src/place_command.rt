//! The command `place`: reads the rules, keeps the flow of each frame of the capture, and then
//! writes one line per packet.
ghost use Rattle.std.specs.Prelude.{◌≡◌, ◌≤◌, ℕ, List};
ghost use Rattle.outside_io.specs.Desk.{GoesOnTelling};
ghost use Rattle.replay.specs.Meanings.{Meaning};
ghost use Rattle.steer_top.specs.Calls.{course};
ghost use Rattle.steer_top.specs.Commands.{place_words_of};
ghost use Rattle.steer_top.specs.Endings.{EndsCommand};
ghost use Rattle.steer_top.specs.Words.CommandWords.{Place};

use crate::command::PlaceCommand;
use crate::ending::Ending;
use crate::file::{take_frames, take_rules};
use crate::placer::Placer;
use crate::writing::write_lines;
use outside_io::{Desk, Sink};
use std::alloc::Global;
use steer_base::OutOfMemory;

/// Reads the rules and the capture, and writes the text.
pub fn place_file<D: Desk, K: Sink>(
    alloc: Global,
    command: &PlaceCommand,
    desk: &mut D,
    out: &mut K,
) -> Ending
    ensures ends { (taps : List Meaning)
        → EndsCommand result (Place (place_words_of command.now))
        (course D.held D.asked D.faults desk.old desk.new K.faults K.written out.old out.new taps) }

    ensures held { D.held desk.new ≡ D.held desk.old }
    ensures told { GoesOnTelling (D.left desk.old) (D.left desk.new) }
    ensures desk_later { D.faults desk.old ≤ D.faults desk.new }
    ensures out_later { K.faults out.old ≤ K.faults out.new }
{
    let rules = match take_rules(alloc, command.rules, desk) {
        Ok(rules) => rules,
        Err(ending) => return ending,
    };
    let mut placer = match Placer::make(alloc, rules) {
        Ok(placer) => placer,
        Err(OutOfMemory) => return Ending::OutOfMemory,
    };
    match take_frames(alloc, command.capture, desk, &mut placer) {
        Ok(cut) => write_lines(alloc, &placer, cut, out),
        Err(ending) => ending,
    }
}
