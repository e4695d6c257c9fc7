//! The command `gen`: input is generated and replayed, and the sums of the replay go out.
ghost use Rattle.std.specs.Prelude.{◌≡◌, ◌≤◌, ℕ, List, Option};
ghost use Rattle.replay.specs.Meanings.{Meaning};
ghost use Rattle.replay.specs.Summaries.{summary_text};
ghost use Rattle.steer_top.specs.Commands.{gen_words_of};
ghost use Rattle.steer_top.specs.Endings.{EndsCommand, EndsWriting, course_of};
ghost use Rattle.steer_top.specs.Words.CommandWords.{Gen};

use crate::command::GenCommand;
use crate::ending::Ending;
use outside_io::{Sink, WriteFault};
use replay::Summary;
use report::LineBuf;
use std::alloc::Global;
use steer_base::OutOfMemory;

/// Generates the input, takes all memory, and writes the text. No file is read, so that it is all
/// one what the desk and the taps are.
pub fn gen_input<K: Sink>(alloc: Global, command: &GenCommand, out: &mut K) -> Ending
    ensures ends { (held : List ℕ → Option (List ℕ)) (taps : List Meaning) (asked : Option (List ℕ))
        (before after : ℕ) → EndsCommand result (Gen (gen_words_of command.now))
        (course_of held taps asked before after (K.faults out.old) (K.faults out.new)
        (K.written out.old) (K.written out.new)) }
    ensures later { K.faults out.old ≤ K.faults out.new }
{
    match Summary::make(alloc, command.seed, command.packets, command.flows) {
        Ok(summary) => write_summary(alloc, &summary, out),
        Err(OutOfMemory) => Ending::OutOfMemory,
    }
}

// Takes the memory for a line, and writes the two lines.
fn write_summary<K: Sink>(alloc: Global, summary: &Summary, out: &mut K) -> Ending
    ensures ends { EndsWriting result (summary_text summary.now)
        (K.faults out.old) (K.faults out.new) (K.written out.old) (K.written out.new) }
    ensures later { K.faults out.old ≤ K.faults out.new }
{
    let Ok(mut line) = LineBuf::make(alloc) else {
        return Ending::OutOfMemory;
    };
    match summary.write(&mut line, out) {
        Ok(()) => Ending::Done,
        Err(WriteFault) => Ending::WriteFault,
    }
}
