//! Steps of one event, and those of many events in a row.
ghost use Rattle.std.specs.Prelude.{◌≡◌, ◌<◌, ◌||◌, length, not, true};
ghost use Rattle.plan_reader.specs.Ranges.{step_is_within};
ghost use Rattle.steer_core.specs.Resting.{AreMarked, SameCpu, SameSender, SameTx};
ghost use Rattle.steer_core.specs.Rooms.{HasRoomFor, HasSpare};
ghost use Rattle.steer_invariant.specs.StepInvariant.{sizes_in};
ghost use Rattle.steer_model.specs.Steps.SingleSteps.{is_idle as was_idle, simple};
ghost use Rattle.steer_model.specs.Steps.CompoundSteps.{drain, drain_one, poll, with_record, reply};
ghost use Rattle.steer_model.specs.Steps.CompoundSteps.{replying, serve};
ghost use Rattle.steer_model.specs.Steps.CompoundSteps.{ship, ship_one, tried, tries};

use crate::actors::Actors;
use crate::actors::busy::{mark, mark_next};
use steer_base::{Answer, CpuMask, Idle, Step};
use steer_model::is_idle;

impl Actors {
    /// Carries out a step of one event, or a command. A step of many events is idle here.
    pub(super) fn simple(&mut self, step: Step) -> Answer
        requires within { step_is_within (sizes_in self.old.machine.setup) step ≡ true }
        requires room { HasRoomFor self.old.rooms self.old.machine step }
        ensures state { self.new.machine ≡ (simple self.old.machine step).0 }
        ensures answer { result ≡ (simple self.old.machine step).1 }
        ensures setup { self.new.machine.setup ≡ self.old.machine.setup }
        ensures rooms { self.new.rooms ≡ self.old.rooms }
    {
        match step {
            Step::Arrive => self.arrive(),
            Step::Take(q) => self.take(q),
            Step::Enter(q) => self.enter(q),
            Step::Look(q) => self.look(q),
            Step::Weigh(q) => self.weigh(q),
            Step::Put(q) => self.put(q),
            Step::Ask(q) => self.ask(q),
            Step::Leave(q) => self.leave(q),
            Step::Pull(c) => self.pull(c),
            Step::Deliver(c) => self.deliver(c),
            Step::Retire(c) => self.retire(c),
            Step::Record(flow) => self.record(flow),
            Step::Send(a) => self.send(a),
            Step::TEnter(a) => self.tenter(a),
            Step::TLeave(a) => self.tleave(a),
            Step::TWeigh(a) => self.tweigh(a),
            Step::TPut(a) => self.tput(a),
            Step::TPull(t) => self.tpull(t),
            Step::TDeliver(t) => self.tdeliver(t),
            Step::TRetire(t) => self.tretire(t),
            Step::Give(command) => self.give(command),
            Step::Poll(_)
            | Step::Drain(_)
            | Step::Reply(_)
            | Step::Serve(_)
            | Step::Ship(_)
            | Step::Sweep => Answer::Idle(Idle::Nothing),
        }
    }

    /// Tries all events of a poller in order, and marks the processor to which it puts a packet.
    #[inline(always)]
    pub(super) fn poll(&mut self, worked: bool, q: u8, cpus: &mut CpuMask) -> bool
        requires { q < length self.old.machine.setup.homes }
        ensures turn { (self.new.machine, result) ≡ poll q (self.old.machine, worked) }
        ensures setup { self.new.machine.setup ≡ self.old.machine.setup }
        ensures rooms { self.new.rooms ≡ self.old.rooms }
        ensures cpus { AreMarked self.old.machine.setup.cpus cpus.old cpus.new
            (λ c. SameCpu c self.old.machine self.new.machine) }
    {
        self.sound();
        self.enter(q);
        let worked = worked_by(worked, self.take(q));
        let worked = worked_by(worked, self.look(q));
        let worked = worked_by(worked, self.weigh(q));
        mark_next(&self.rx, q, cpus);
        let worked = worked_by(worked, self.put(q));
        let worked = worked_by(worked, self.ask(q));
        self.leave(q);
        worked
    }

    /// Repeats the events of a processor until its hand is empty and nothing waits, and marks the
    /// applications to which it delivers.
    #[inline(always)]
    pub(super) fn drain(&mut self, worked: bool, c: u8, apps: &mut CpuMask) -> bool
        requires { c < self.old.machine.setup.cpus }
        ensures turn { (self.new.machine, result) ≡ drain c (self.old.machine, worked) }
        ensures setup { self.new.machine.setup ≡ self.old.machine.setup }
        ensures rooms { self.new.rooms ≡ self.old.rooms }
        ensures apps { AreMarked self.old.machine.setup.apps apps.old apps.new
            (λ a. SameSender a self.old.machine self.new.machine) }
    {
        let mut done = worked;
        for _ in 0..self.rx.unretired(c) {
            done = self.drain_one(done, c, apps);
        }
        done
    }

    // One packet gets through a processor.
    #[inline(always)]
    fn drain_one(&mut self, worked: bool, c: u8, apps: &mut CpuMask) -> bool
        requires { c < self.old.machine.setup.cpus }
        ensures turn { (self.new.machine, result) ≡ tries (self.old.machine, worked) (drain_one c) }
        ensures setup { self.new.machine.setup ≡ self.old.machine.setup }
        ensures rooms { self.new.rooms ≡ self.old.rooms }
        ensures apps { AreMarked self.old.machine.setup.apps apps.old apps.new
            (λ a. SameSender a self.old.machine self.new.machine) }
    {
        self.sound();
        let worked = worked_by(worked, self.pull(c));
        let to = self.destination(c);
        mark(apps, to);
        let worked = worked_by(worked, self.deliver_to(c, to));
        worked_by(worked, self.retire(c))
    }

    /// Tries all events of an application in order, and marks the transmit queue to which it puts a
    /// reply.
    #[inline(always)]
    pub(super) fn reply(&mut self, worked: bool, a: u8, txs: &mut CpuMask) -> bool
        requires { a < self.old.machine.setup.apps }
        ensures turn { (self.new.machine, result) ≡ reply a (self.old.machine, worked) }
        ensures setup { self.new.machine.setup ≡ self.old.machine.setup }
        ensures rooms { self.new.rooms ≡ self.old.rooms }
        ensures txs { AreMarked self.old.machine.setup.txs txs.old txs.new
            (λ x. SameTx x self.old.machine self.new.machine) }
    {
        self.sound();
        self.tenter(a);
        let worked = worked_by(worked, self.send(a));
        let worked = worked_by(worked, self.tweigh(a));
        mark_next(&self.tx, a, txs);
        let worked = worked_by(worked, self.tput(a));
        self.tleave(a);
        worked
    }

    /// Records the flow of the packet that an application replies to, then tries all its events as
    /// [`Actors::reply`] does.
    #[inline(always)]
    pub(super) fn serve(&mut self, worked: bool, a: u8, txs: &mut CpuMask) -> bool
        requires app { a < self.old.machine.setup.apps }
        requires room { HasSpare self.old.rooms self.old.machine }
        ensures turn { (self.new.machine, result) ≡ serve a (self.old.machine, worked) }
        ensures setup { self.new.machine.setup ≡ self.old.machine.setup }
        ensures rooms { self.new.rooms ≡ self.old.rooms }
        ensures txs { AreMarked self.old.machine.setup.txs txs.old txs.new
            (λ x. SameTx x self.old.machine self.new.machine) }
    {
        let worked = self.recorded(worked, a);
        self.reply(worked, a, txs)
    }

    // The flow of the packet that an application replies to is recorded, if there is one.
    #[inline(always)]
    fn recorded(&mut self, worked: bool, a: u8) -> bool
        requires app { a < self.old.machine.setup.apps }
        requires room { HasSpare self.old.rooms self.old.machine }
        ensures turn { (self.new.machine, result)
            ≡ with_record (replying self.old.machine a) (self.old.machine, worked) }
        ensures setup { self.new.machine.setup ≡ self.old.machine.setup }
        ensures rooms { self.new.rooms ≡ self.old.rooms }
    {
        if let Some(id) = self.replying(a) {
            self.record_of(id);
        }
        worked
    }

    /// Repeats the events of a transmit queue until its hand is empty and nothing waits.
    #[inline(always)]
    pub(super) fn ship(&mut self, worked: bool, t: u8) -> bool
        requires { t < self.old.machine.setup.txs }
        ensures turn { (self.new.machine, result) ≡ ship t (self.old.machine, worked) }
        ensures setup { self.new.machine.setup ≡ self.old.machine.setup }
        ensures rooms { self.new.rooms ≡ self.old.rooms }
    {
        let mut done = worked;
        for _ in 0..self.tx.unretired(t) {
            done = self.ship_one(done, t);
        }
        done
    }

    // One reply gets through a transmit queue.
    #[inline(always)]
    fn ship_one(&mut self, worked: bool, t: u8) -> bool
        requires { t < self.old.machine.setup.txs }
        ensures turn { (self.new.machine, result) ≡ tries (self.old.machine, worked) (ship_one t) }
        ensures setup { self.new.machine.setup ≡ self.old.machine.setup }
        ensures rooms { self.new.rooms ≡ self.old.rooms }
    {
        let worked = worked_by(worked, self.tpull(t));
        let worked = worked_by(worked, self.tdeliver(t));
        worked_by(worked, self.tretire(t))
    }
}

// Whether work was done before an event or by it, as its answer says.
fn worked_by(worked: bool, answer: Answer) -> bool
    ensures { result ≡ (worked || not (was_idle answer)) }
{
    worked || !is_idle(&answer)
}
