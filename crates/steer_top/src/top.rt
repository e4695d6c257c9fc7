//! The top call: a command line in, an exit status out.
ghost use Rattle.std.specs.Prelude.{◌≡◌, ◌≤◌, map};
ghost use Rattle.std.specs.Io.KnownBytes.{IsAtEnd};
ghost use Rattle.outside_io.specs.Desk.{GoesOnTelling};
ghost use Rattle.steer_top.specs.Calls.{IsAnswered, TakesLine, course};
ghost use Rattle.steer_top.specs.Endings.{SentOn};
ghost use Rattle.steer_top.specs.Words.{command_of};

use crate::live::steer_live;
use crate::still::steer_still_by;
use crate::words::means_run;
use outside_io::{Desk, Sink};
use report_verdict::OnThreads;
use run_words::Pace;
use std::alloc::Global;
use std::sync::Wait;
use std::thread::Threads;
use taps::Tap;

/// Carries out the command that `words` are, without the program's name, and returns the exit
/// status: 0 if all was done, written and sent on; 2 if the words are no command; 3 if a file has
/// no plan or no rules; 4 if one is no capture; 5 or 6 if the desk or the sink of the text failed;
/// 7 if memory ran out; and 8 if a file is too long. Threads are made of `rt` for `run`, and for
/// `check` one that helps for a while. `pace` is called for `run` alone; every other command
/// returns always.
///
/// All memory is taken before the first byte goes to `out`, which is flushed once, after the whole
/// text. `err` takes one line for every status but 0, and is flushed at the end. A replay and a run
/// show their packet lines to the taps, and their reports have the taps' texts in their order; the
/// other commands drop them.
///
/// Contract. `call`: status, text and error line are determined by words and files unless I/O or
/// memory failed; a replay's and a run's text satisfy their main theorems. `sent`: with status 0
/// nothing of the text is left unsent. `err_sent`: nothing of the line is, unless `err` failed.
/// `held`, `told`: what was observed of files stays known. `desk_later`, `out_later`: fault
/// counters never decrease.
pub fn steer<R: Threads + Wait + Sync, D: Desk, K: Sink, E: Sink, P: Pace + Sync>(
    rt: &R,
    alloc: Global,
    words: &[String],
    desk: &mut D,
    out: &mut K,
    err: &mut E,
    taps: Vec<Box<dyn Tap>>,
    pace: &P,
) -> u8
    ensures call { IsAnswered (command_of words.now)
        (course D.held D.asked D.faults desk.old desk.new K.faults K.written out.old out.new
        (map text taps.items)) (TakesLine E.faults E.written err.old err.new) result }
    ensures sent { result ≡ 0 → IsAtEnd (K.unsent out.new) }
    ensures err_sent { SentOn (E.faults err.old) (E.faults err.new) (E.unsent err.new) }
    ensures held { D.held desk.new ≡ D.held desk.old }
    ensures told { GoesOnTelling (D.left desk.old) (D.left desk.new) }
    ensures desk_later { D.faults desk.old ≤ D.faults desk.new }
    ensures out_later { K.faults out.old ≤ K.faults out.new }
{
    if means_run(words) {
        steer_live(rt, alloc, words, desk, out, err, taps, pace)
    } else {
        steer_still_by(&OnThreads(rt), alloc, words, desk, out, err, taps)
    }
}
