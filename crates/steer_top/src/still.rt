//! The commands that need no threads.
ghost use Rattle.std.specs.Prelude.{◌≡◌, ◌≤◌, map};
ghost use Rattle.std.specs.Io.KnownBytes.{IsAtEnd};
ghost use Rattle.outside_io.specs.Desk.{GoesOnTelling};
ghost use Rattle.steer_top.specs.Calls.{IsAnswered, TakesLine, course};
ghost use Rattle.steer_top.specs.Commands.{words_of};
ghost use Rattle.steer_top.specs.Endings.{Ends, EndsCommand, SentOn};
ghost use Rattle.steer_top.specs.Words.{still_command_of};

use crate::check_command::check_file;
use crate::command::StillCommand;
use crate::ending::Ending;
use crate::flushing::flush;
use crate::gen_command::gen_input;
use crate::hash_command::hash_file;
use crate::laws::a_call_is_decided;
use crate::place_command::place_file;
use crate::replay_command::replay_file;
use crate::status::status;
use crate::telling::tell;
use crate::words::still_command;
use outside_io::{Desk, Sink};
use replay::{every_report_has_the_headline, every_run_has_the_headline};
use report_verdict::{InTurn, JudgesHistories};
use std::alloc::Global;
use taps::Tap;

/// Carries out a command that needs no threads, as `steer` does, and always returns. For `run` the
/// status is 2.
pub fn steer_still<D: Desk, K: Sink, E: Sink>(
    alloc: Global,
    words: &[String],
    desk: &mut D,
    out: &mut K,
    err: &mut E,
    taps: Vec<Box<dyn Tap>>,
) -> u8
    ensures call { IsAnswered (still_command_of words.now)
        (course D.held D.asked D.faults desk.old desk.new K.faults K.written out.old out.new
        (map text taps.items)) (TakesLine E.faults E.written err.old err.new) result }
    ensures sent { result ≡ 0 → IsAtEnd (K.unsent out.new) }
    ensures err_sent { SentOn (E.faults err.old) (E.faults err.new) (E.unsent err.new) }
    ensures held { D.held desk.new ≡ D.held desk.old }
    ensures told { GoesOnTelling (D.left desk.old) (D.left desk.new) }
    ensures desk_later { D.faults desk.old ≤ D.faults desk.new }
    ensures out_later { K.faults out.old ≤ K.faults out.new }
{
    steer_still_by(&InTurn, alloc, words, desk, out, err, taps)
}

/// The same, where `work` says how work is done that may be done on two threads.
pub fn steer_still_by<W: JudgesHistories, D: Desk, K: Sink, E: Sink>(
    work: &W,
    alloc: Global,
    words: &[String],
    desk: &mut D,
    out: &mut K,
    err: &mut E,
    taps: Vec<Box<dyn Tap>>,
) -> u8
    ensures call { IsAnswered (still_command_of words.now)
        (course D.held D.asked D.faults desk.old desk.new K.faults K.written out.old out.new
        (map text taps.items)) (TakesLine E.faults E.written err.old err.new) result }
    ensures sent { result ≡ 0 → IsAtEnd (K.unsent out.new) }
    ensures err_sent { SentOn (E.faults err.old) (E.faults err.new) (E.unsent err.new) }
    ensures held { D.held desk.new ≡ D.held desk.old }
    ensures told { GoesOnTelling (D.left desk.old) (D.left desk.new) }
    ensures desk_later { D.faults desk.old ≤ D.faults desk.new }
    ensures out_later { K.faults out.old ≤ K.faults out.new }
{
    a_call_is_decided();
    every_report_has_the_headline();
    every_run_has_the_headline();
    let ending = carry_out(work, alloc, words, desk, out, taps);
    tell(err, &ending);
    status(&ending)
}

// Carries out the command that the words are, and says how it ended.
fn carry_out<W: JudgesHistories, D: Desk, K: Sink>(
    work: &W,
    alloc: Global,
    words: &[String],
    desk: &mut D,
    out: &mut K,
    taps: Vec<Box<dyn Tap>>,
) -> Ending
    ensures ends { Ends result (still_command_of words.now)
        (course D.held D.asked D.faults desk.old desk.new K.faults K.written out.old out.new
        (map (λ tap lines. text tap lines) taps.items)) }
    ensures sent { result ≡ Ending.Done → IsAtEnd (K.unsent out.new) }

    ensures held { D.held desk.new ≡ D.held desk.old }
    ensures told { GoesOnTelling (D.left desk.old) (D.left desk.new) }
    ensures desk_later { D.faults desk.old ≤ D.faults desk.new }
    ensures out_later { K.faults out.old ≤ K.faults out.new }
{
    match still_command(words) {
        None => Ending::Usage,
        Some(command) => {
            let ending = perform(work, alloc, &command, desk, out, taps);
            flush(ending, out)
        }
    }
}

// Carries out the command, up to the flush of its text.
fn perform<W: JudgesHistories, D: Desk, K: Sink>(
    work: &W,
    alloc: Global,
    command: &StillCommand,
    desk: &mut D,
    out: &mut K,
    taps: Vec<Box<dyn Tap>>,
) -> Ending
    ensures ends { EndsCommand result (words_of command.now)
        (course D.held D.asked D.faults desk.old desk.new K.faults K.written out.old out.new
        (map (λ tap lines. text tap lines) taps.items)) }

    ensures held { D.held desk.new ≡ D.held desk.old }
    ensures told { GoesOnTelling (D.left desk.old) (D.left desk.new) }
    ensures desk_later { D.faults desk.old ≤ D.faults desk.new }
    ensures out_later { K.faults out.old ≤ K.faults out.new }
{
    match command {
        StillCommand::Hash(hash) => hash_file(alloc, hash, desk, out),
        StillCommand::Replay(replay) => replay_file(alloc, replay, desk, out, taps),
        StillCommand::Gen(input) => gen_input(alloc, input, out),
        StillCommand::Check(check) => check_file(work, alloc, check, desk, out),
        StillCommand::Place(place) => place_file(alloc, place, desk, out),
    }
}
