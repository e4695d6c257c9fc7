//! A worker of a run.
ghost use Rattle.std.specs.Prelude.{◌≡◌, ◌<◌, false, true, vec_len};
ghost use Rattle.run_workers.specs.Parts.{actor_count};
ghost use Rattle.run_workers.specs.Stages.{stage_view};
ghost use Rattle.run_workers.specs.Turns.{AllHaveCalls, CallsOne, Drained, HasTurn};
ghost use Rattle.run_workers.specs.Turns.{OthersStay, Plays, Polled, Replied, Served, Shipped};
ghost use Rattle.run_workers.specs.Turns.{Took, actors};
ghost use Rattle.run_workers.specs.Workers.{GoesOn, IsWorking, drains_are_free, is_free};
ghost use Rattle.run_workers.specs.Workers.{pollers_are_free, servers_are_free};

use crate::drain::Drain;
use crate::poller::Poller;
use crate::server::Server;
use crate::stage::Stage;
use board_api::Board;
use run_words::Seats;
use std::sync::Wait;

/// A worker. Of so many workers, worker `w` plays the actors whose number is `w` modulo the number
/// of workers. Each list has them in ascending order.
#[derive(Drop)]
pub struct Worker {
    /// The pollers of its receive queues.
    pub pollers: Vec<Poller>,
    /// What empties the backlogs of its processors.
    pub drains: Vec<Drain>,
    /// Its applications.
    pub servers: Vec<Server>,
    /// What empties its transmit queues.
    pub ships: Vec<Drain>,
}

// A part of a turn: a kind of actors, each of which does its work once.
#[derive(Clone, Copy)]
enum Part {
    Poll,
    Drain,
    Serve,
    Ship,
}

impl Worker {
    /// Plays each of its actors once: polls its receive queues, empties the backlogs of its
    /// processors, lets each of its applications take a packet and reply, and empties its transmit
    /// queues; of each kind in ascending order. Returns whether a packet was taken, steered,
    /// pulled, delivered or replied to, or is left in a hand. Allocates nothing.
    pub fn turn<R: Wait, B: Board>(&mut self, rt: &R, stage: &Stage<B>, seats: &mut Seats) -> bool
        requires is { IsWorking (stage_view (B.view stage.now.rx) (B.view stage.now.tx)
            stage.now.shared stage.now.late.items) self.old seats.old }
        ensures goes { GoesOn (stage_view (B.view stage.now.rx) (B.view stage.now.tx)
            stage.now.shared stage.now.late.items) self.old self.new seats.old seats.new }
        ensures plays { HasTurn (stage_view (B.view stage.now.rx) (B.view stage.now.tx)
            stage.now.shared stage.now.late.items) result self.old self.new seats.old seats.new }
        ensures idle { result ≡ false → is_free self.new ≡ true }
    {
        let polled = self.play_each(rt, stage, seats, Part::Poll);
        let drained = self.play_each(rt, stage, seats, Part::Drain);
        let served = self.play_each(rt, stage, seats, Part::Serve);
        let shipped = self.play_each(rt, stage, seats, Part::Ship);
        let free = self.is_free();
        polled | drained | served | shipped | !free
    }

    /// Whether no actor has a packet in hand.
    pub fn is_free(&self) -> bool
        ensures { result ≡ is_free self.now }
    {
        pollers_are_free(&self.pollers)
            && drains_are_free(&self.drains)
            && servers_are_free(&self.servers)
            && drains_are_free(&self.ships)
    }

    // Plays each actor of a part once. Returns whether one of them did something.
    fn play_each<R: Wait, B: Board>(
        &mut self,
        rt: &R,
        stage: &Stage<B>,
        seats: &mut Seats,
        part: Part,
    ) -> bool
        requires is { IsWorking (stage_view (B.view stage.now.rx) (B.view stage.now.tx)
            stage.now.shared stage.now.late.items) self.old seats.old }
        ensures goes { GoesOn (stage_view (B.view stage.now.rx) (B.view stage.now.tx)
            stage.now.shared stage.now.late.items) self.old self.new seats.old seats.new }
        ensures calls { AllHaveCalls (Plays (stage_view (B.view stage.now.rx) (B.view stage.now.tx)
            stage.now.shared stage.now.late.items) part)
            result (actors part self.old) (actors part self.new) seats.old seats.new }
        ensures others { OthersStay part self.old self.new }
    {
        let mut did = false;
        for i in 0..self.count(part) {
            let went = self.play(rt, stage, seats, part, i);
            did = did | went;
        }
        did
    }

    // How many actors a part has.
    fn count(&self, part: Part) -> usize
        ensures { result ≡ actor_count part self.now }
    {
        match part {
            Part::Poll => self.pollers.len(),
            Part::Drain => self.drains.len(),
            Part::Serve => self.servers.len(),
            Part::Ship => self.ships.len(),
        }
    }

    // Plays the actor of a part at an index. Returns whether it did something.
    fn play<R: Wait, B: Board>(
        &mut self,
        rt: &R,
        stage: &Stage<B>,
        seats: &mut Seats,
        part: Part,
        i: usize,
    ) -> bool
        requires within { i < actor_count part self.old }
        requires is { IsWorking (stage_view (B.view stage.now.rx) (B.view stage.now.tx)
            stage.now.shared stage.now.late.items) self.old seats.old }
        ensures goes { GoesOn (stage_view (B.view stage.now.rx) (B.view stage.now.tx)
            stage.now.shared stage.now.late.items) self.old self.new seats.old seats.new }
        ensures one { CallsOne (Plays (stage_view (B.view stage.now.rx) (B.view stage.now.tx)
            stage.now.shared stage.now.late.items) part)
            i result (actors part self.old) (actors part self.new) seats.old seats.new }
        ensures others { OthersStay part self.old self.new }
    {
        match part {
            Part::Poll => self.poll(rt, stage, seats, i),
            Part::Drain => self.drain(stage, seats, i),
            Part::Serve => self.serve(rt, stage, seats, i),
            Part::Ship => self.ship(stage, seats, i),
        }
    }

    // Polls a receive queue. Returns whether a packet was taken or steered.
    fn poll<R: Wait, B: Board>(
        &mut self,
        rt: &R,
        stage: &Stage<B>,
        seats: &mut Seats,
        i: usize,
    ) -> bool
        requires within { i < vec_len self.old.pollers }
        requires is { IsWorking (stage_view (B.view stage.now.rx) (B.view stage.now.tx)
            stage.now.shared stage.now.late.items) self.old seats.old }
        ensures goes { GoesOn (stage_view (B.view stage.now.rx) (B.view stage.now.tx)
            stage.now.shared stage.now.late.items) self.old self.new seats.old seats.new }
        ensures one { CallsOne (Polled (stage_view (B.view stage.now.rx) (B.view stage.now.tx)
            stage.now.shared stage.now.late.items))
            i result self.old.pollers.items self.new.pollers.items seats.old seats.new }
        ensures others { OthersStay Part.Poll self.old self.new }
    {
        self.pollers[i].poll(rt, &stage.rx, &stage.shared, &mut seats.rx, &mut seats.hint)
    }

    // Empties a backlog. Returns whether a packet was pulled or delivered.
    fn drain<B: Board>(&mut self, stage: &Stage<B>, seats: &mut Seats, i: usize) -> bool
        requires within { i < vec_len self.old.drains }
        requires is { IsWorking (stage_view (B.view stage.now.rx) (B.view stage.now.tx)
            stage.now.shared stage.now.late.items) self.old seats.old }
        ensures goes { GoesOn (stage_view (B.view stage.now.rx) (B.view stage.now.tx)
            stage.now.shared stage.now.late.items) self.old self.new seats.old seats.new }
        ensures one { CallsOne (Drained (stage_view (B.view stage.now.rx) (B.view stage.now.tx)
            stage.now.shared stage.now.late.items))
            i result self.old.drains.items self.new.drains.items seats.old seats.new }
        ensures others { OthersStay Part.Drain self.old self.new }
    {
        self.drains[i].drain(&stage.rx, &stage.shared.given, &mut seats.rx)
    }

    // Lets an application take a packet, if its hand is empty, and reply. Returns whether it took a
    // packet or replied to one.
    fn serve<R: Wait, B: Board>(
        &mut self,
        rt: &R,
        stage: &Stage<B>,
        seats: &mut Seats,
        i: usize,
    ) -> bool
        requires within { i < vec_len self.old.servers }
        requires is { IsWorking (stage_view (B.view stage.now.rx) (B.view stage.now.tx)
            stage.now.shared stage.now.late.items) self.old seats.old }
        ensures goes { GoesOn (stage_view (B.view stage.now.rx) (B.view stage.now.tx)
            stage.now.shared stage.now.late.items) self.old self.new seats.old seats.new }
        ensures one { CallsOne (Served (stage_view (B.view stage.now.rx) (B.view stage.now.tx)
            stage.now.shared stage.now.late.items))
            i result self.old.servers.items self.new.servers.items seats.old seats.new }
        ensures others { OthersStay Part.Serve self.old self.new }
    {
        let took = self.take(stage, seats, i);
        let replied = self.reply(rt, stage, seats, i);
        took | replied
    }

    // Lets the application at an index take a packet, if its hand is empty.
    fn take<B: Board>(&mut self, stage: &Stage<B>, seats: &mut Seats, i: usize) -> bool
        requires within { i < vec_len self.old.servers }
        requires is { IsWorking (stage_view (B.view stage.now.rx) (B.view stage.now.tx)
            stage.now.shared stage.now.late.items) self.old seats.old }
        ensures goes { GoesOn (stage_view (B.view stage.now.rx) (B.view stage.now.tx)
            stage.now.shared stage.now.late.items) self.old self.new seats.old seats.new }
        ensures one { CallsOne (Took (stage_view (B.view stage.now.rx) (B.view stage.now.tx)
            stage.now.shared stage.now.late.items))
            i result self.old.servers.items self.new.servers.items seats.old seats.new }
        ensures others { OthersStay Part.Serve self.old self.new }
    {
        self.servers[i].take(&stage.rx, &stage.shared, &mut seats.rx, &mut seats.hint)
    }

    // Lets the application at an index reply to the packet in its hand.
    fn reply<R: Wait, B: Board>(
        &mut self,
        rt: &R,
        stage: &Stage<B>,
        seats: &mut Seats,
        i: usize,
    ) -> bool
        requires within { i < vec_len self.old.servers }
        requires is { IsWorking (stage_view (B.view stage.now.rx) (B.view stage.now.tx)
            stage.now.shared stage.now.late.items) self.old seats.old }
        ensures goes { GoesOn (stage_view (B.view stage.now.rx) (B.view stage.now.tx)
            stage.now.shared stage.now.late.items) self.old self.new seats.old seats.new }
        ensures one { CallsOne (Replied (stage_view (B.view stage.now.rx) (B.view stage.now.tx)
            stage.now.shared stage.now.late.items))
            i result self.old.servers.items self.new.servers.items seats.old seats.new }
        ensures others { OthersStay Part.Serve self.old self.new }
    {
        self.servers[i].reply(
            rt,
            &stage.tx,
            &stage.shared,
            stage.late.as_slice(),
            &mut seats.tx,
            &mut seats.hint,
        )
    }

    // Empties a transmit queue. Returns whether a packet was pulled or delivered.
    fn ship<B: Board>(&mut self, stage: &Stage<B>, seats: &mut Seats, i: usize) -> bool
        requires within { i < vec_len self.old.ships }
        requires is { IsWorking (stage_view (B.view stage.now.rx) (B.view stage.now.tx)
            stage.now.shared stage.now.late.items) self.old seats.old }
        ensures goes { GoesOn (stage_view (B.view stage.now.rx) (B.view stage.now.tx)
            stage.now.shared stage.now.late.items) self.old self.new seats.old seats.new }
        ensures one { CallsOne (Shipped (stage_view (B.view stage.now.rx) (B.view stage.now.tx)
            stage.now.shared stage.now.late.items))
            i result self.old.ships.items self.new.ships.items seats.old seats.new }
        ensures others { OthersStay Part.Ship self.old self.new }
    {
        self.ships[i].drain(&stage.tx, &stage.shared.given, &mut seats.tx)
    }
}

// Whether none of these pollers has a packet in hand.
fn pollers_are_free(pollers: &[Poller]) -> bool
    ensures { result ≡ pollers_are_free pollers.now }
{
    pollers.iter().all(|poller| poller.hand.is_none())
}

// Whether none of these drains has.
fn drains_are_free(drains: &[Drain]) -> bool
    ensures { result ≡ drains_are_free drains.now }
{
    drains.iter().all(|drain| drain.hand.is_none())
}

// Whether none of these applications has.
fn servers_are_free(servers: &[Server]) -> bool
    ensures { result ≡ servers_are_free servers.now }
{
    servers.iter().all(|server| server.hand.is_none())
}
