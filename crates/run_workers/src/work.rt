//! The turns of a worker, from its first to its last.
ghost use Rattle.std.specs.Prelude.{◌≡◌, true, length};
ghost use Rattle.std.specs.List.{Contains};
ghost use Rattle.hint_words.specs.declared.step.HintStep.TheVariants.{Load};
ghost use Rattle.run_words.specs.declared.hint_word.TheConstants.{DONE_WORD};
ghost use Rattle.run_words.specs.declared.values.TheConstants.{DONE as DONE_VALUE};
ghost use Rattle.run_workers.specs.Looks.{LookedLong, Looks};
ghost use Rattle.run_workers.specs.Stages.{stage_view};
ghost use Rattle.run_workers.specs.Tally.{CountsOn, HasFinished, IsCounter, SawFinished};
ghost use Rattle.run_workers.specs.Tally.{finished_by};
ghost use Rattle.run_workers.specs.Turns.{EndsIdle};
ghost use Rattle.run_workers.specs.Workers.{GoesOn, IsWorking, is_free};

use crate::stage::Stage;
use crate::tally::{Counter, Tally};
use crate::worker::Worker;
use board_api::Board;
use run_words::{HintWord, Pace, Seats, is_done};
use std::sync::Wait;
use std::thread::yield_now;

/// After this many turns in a row that did nothing a worker ends.
pub const MAX_IDLE_TURNS: u32 = 1_048_576;

/// After this many turns in a row that did nothing a worker yields its processor after each.
pub const BUSY_IDLE_TURNS: u32 = 64;

/// Why a worker has ended.
#[derive(Clone, Copy, Debug, PartialEq, Eq)]
pub enum Ended {
    /// All packets were finished before its last turn, which did nothing.
    Finished,
    /// Its last `MAX_IDLE_TURNS` turns did nothing.
    Idle,
}

impl Worker {
    /// Works in turns, and calls `pace` before each, with the worker's number and that of the turn,
    /// counted from 1. Ends after a turn that did nothing and that began after the worker saw that
    /// all packets had arrived and were finished, and after `MAX_IDLE_TURNS` turns in a row that
    /// did nothing. Then no packet is in a hand. Allocates nothing.
    pub fn work<R: Wait, B: Board, P: Pace>(
        &mut self,
        rt: &R,
        stage: &Stage<B>,
        seats: &mut Seats,
        tally: &Tally,
        counter: &mut Counter,
        pace: &P,
    ) -> Ended
        requires is { IsWorking (stage_view (B.view stage.now.rx) (B.view stage.now.tx)
            stage.now.shared stage.now.late.items) self.old seats.old }
        requires counts { IsCounter tally.now counter.old (finished_by self.old) }
        ensures goes { GoesOn (stage_view (B.view stage.now.rx) (B.view stage.now.tx)
            stage.now.shared stage.now.late.items) self.old self.new seats.old seats.new }
        ensures counts { CountsOn tally.now counter.old counter.new (finished_by self.new) }
        ensures free { is_free self.new ≡ true }
        ensures finished { result ≡ Ended.Finished → HasFinished tally.now.workers
            (length stage.now.shared.given.packets) seats.new counter.new }
        ensures last { EndsIdle (stage_view (B.view stage.now.rx) (B.view stage.now.tx)
            stage.now.shared stage.now.late.items) self.old self.new seats.old seats.new }
        ensures idle { result ≡ Ended.Idle → LookedLong seats.old seats.new }
    {
        let (mut turns, mut idle, mut finished) = (0u64, 0, false);
        for _ in rt.forever() {
            turns = turns.saturating_add(1);
            pace.turn(counter.number, turns);
            let arrived = self.looks(stage, seats);
            if self.turn(rt, stage, seats) {
                idle = 0;
            } else if finished {
                return Ended::Finished;
            } else if idle == MAX_IDLE_TURNS - 1 {
                return Ended::Idle;
            } else {
                idle += 1;
                finished = self.rests(stage, tally, counter, arrived, idle);
            }
        }
        unreachable!()
    }

    // After so many idle turns: yields the processor if they are many, and looks whether all
    // packets are finished if all have arrived.
    fn rests<B: Board>(
        &self,
        stage: &Stage<B>,
        tally: &Tally,
        counter: &mut Counter,
        arrived: bool,
        idle: u32,
    ) -> bool
        requires is { IsCounter tally.now counter.old (finished_by self.now) }
        ensures is { CountsOn tally.now counter.old counter.new (finished_by self.now) }
        ensures arrived { result ≡ true → arrived ≡ true }
        ensures saw { result ≡ true → SawFinished tally.now.workers
            (length stage.now.shared.given.packets) counter.new.seat.steps }
    {
        if idle > BUSY_IDLE_TURNS {
            yield_now();
        }
        arrived && self.sees_finished(tally, counter, stage.shared.given.packet_count())
    }

    // Whether all packets have arrived, by one look at the word that says so.
    fn looks<B: Board>(&self, stage: &Stage<B>, seats: &mut Seats) -> bool
        requires is { IsWorking (stage_view (B.view stage.now.rx) (B.view stage.now.tx)
            stage.now.shared stage.now.late.items) self.now seats.old }
        ensures goes { GoesOn (stage_view (B.view stage.now.rx) (B.view stage.now.tx)
            stage.now.shared stage.now.late.items) self.now self.now seats.old seats.new }
        ensures look { Looks seats.old seats.new }
        ensures arrived { result ≡ true
            → Contains seats.new.hint.steps (Load DONE_WORD DONE_VALUE) }
    {
        let word = stage
            .shared
            .hints
            .load(&mut seats.hint, HintWord::Done.number());
        is_done(word)
    }
}
