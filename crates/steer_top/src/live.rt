//! The command that needs threads.
ghost use Rattle.std.specs.Prelude.{◌≡◌, ◌≤◌, map};
ghost use Rattle.std.specs.Io.KnownBytes.{IsAtEnd};
ghost use Rattle.outside_io.specs.Desk.{GoesOnTelling};
ghost use Rattle.steer_top.specs.Calls.{IsAnswered, TakesLine, course};
ghost use Rattle.steer_top.specs.Endings.{Ends, SentOn};
ghost use Rattle.steer_top.specs.Words.{live_command_of};

use crate::ending::Ending;
use crate::flushing::flush;
use crate::laws::a_call_is_decided;
use crate::run_command::run_file;
use crate::status::status;
use crate::telling::tell;
use crate::words::live_command;
use outside_io::{Desk, Sink};
use replay::{every_report_has_the_headline, every_run_has_the_headline};
use run_words::Pace;
use std::alloc::Global;
use std::sync::Wait;
use std::thread::Threads;
use taps::Tap;

/// Carries out the command `run`, as `steer` does. For any other command the status is 2.
pub fn steer_live<R: Threads + Wait + Sync, D: Desk, K: Sink, E: Sink, P: Pace + Sync>(
    rt: &R,
    alloc: Global,
    words: &[String],
    desk: &mut D,
    out: &mut K,
    err: &mut E,
    taps: Vec<Box<dyn Tap>>,
    pace: &P,
) -> u8
    ensures call { IsAnswered (live_command_of words.now)
        (course D.held D.asked D.faults desk.old desk.new K.faults K.written out.old out.new
        (map text taps.items)) (TakesLine E.faults E.written err.old err.new) result }
    ensures sent { result ≡ 0 → IsAtEnd (K.unsent out.new) }
    ensures err_sent { SentOn (E.faults err.old) (E.faults err.new) (E.unsent err.new) }
    ensures held { D.held desk.new ≡ D.held desk.old }
    ensures told { GoesOnTelling (D.left desk.old) (D.left desk.new) }
    ensures desk_later { D.faults desk.old ≤ D.faults desk.new }
    ensures out_later { K.faults out.old ≤ K.faults out.new }
{
    a_call_is_decided();
    every_report_has_the_headline();
    every_run_has_the_headline();
    let ending = carry_out(rt, alloc, words, desk, out, taps, pace);
    tell(err, &ending);
    status(&ending)
}

// Carries out the command `run`, if the words are it, and says how it ended.
fn carry_out<R: Threads + Wait + Sync, D: Desk, K: Sink, P: Pace + Sync>(
    rt: &R,
    alloc: Global,
    words: &[String],
    desk: &mut D,
    out: &mut K,
    taps: Vec<Box<dyn Tap>>,
    pace: &P,
) -> Ending
    ensures ends { Ends result (live_command_of words.now)
        (course D.held D.asked D.faults desk.old desk.new K.faults K.written out.old out.new
        (map (λ tap lines. text tap lines) taps.items)) }
    ensures sent { result ≡ Ending.Done → IsAtEnd (K.unsent out.new) }

    ensures held { D.held desk.new ≡ D.held desk.old }
    ensures told { GoesOnTelling (D.left desk.old) (D.left desk.new) }
    ensures desk_later { D.faults desk.old ≤ D.faults desk.new }
    ensures out_later { K.faults out.old ≤ K.faults out.new }
{
    match live_command(words) {
        None => Ending::Usage,
        Some(command) => {
            let ending = run_file(rt, alloc, &command, desk, out, taps, pace);
            flush(ending, out)
        }
    }
}
