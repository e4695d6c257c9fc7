//! A sweep: rounds of all actors until one in which no work was done.
ghost use Rattle.std.specs.Prelude.{ℕ, ◌≡◌, ◌<◌, ◌≤◌, false, length, true};
ghost use Rattle.steer_base.specs.declared.step.Step.TheVariants as act;
ghost use Rattle.steer_base.specs.declared.limits.TheConstants.{MAX_PACKETS};
ghost use Rattle.steer_base.specs.Sets.{has};
ghost use Rattle.steer_core.specs.Resting.{IsStill, OthersAreDone, PollerIsDone, SenderIsDone};
ghost use Rattle.steer_core.specs.Rooms.{HasSpare};
ghost use Rattle.steer_model.specs.Steps.CompoundSteps.{drain, for_each, most_rounds as the_most};
ghost use Rattle.steer_model.specs.Steps.CompoundSteps.{one_round, poll};
ghost use Rattle.steer_model.specs.Steps.CompoundSteps.{serve, ship, step as step_of, sweep, tried};

use crate::actors::busy::{Busy, is_none_below, next_in};
use crate::actors::{Actors, Stepped, ended};
use steer_base::{Cpu, CpuMask};

impl Actors {
    /// A sweep, which is not walked if nothing was left to do before it.
    pub(super) fn sweep_from(&mut self, at_rest: bool) -> Stepped
        requires room { HasSpare self.old.rooms self.old.machine }
        requires rest { at_rest ≡ true → IsStill self.old.machine }
        ensures state { self.new.machine ≡ (step_of self.old.machine act.Sweep).0 }
        ensures answer { result.answer ≡ (step_of self.old.machine act.Sweep).1 }
        ensures rooms { self.new.rooms ≡ self.old.rooms }
        ensures rest { result.at_rest ≡ true → IsStill self.new.machine }
    {
        if at_rest {
            return Stepped {
                answer: ended(false),
                at_rest,
            };
        }
        let mut busy = self.all_busy();
        let worked = self.sweep(&mut busy);
        Stepped {
            answer: ended(worked),
            at_rest: self.is_at_rest(&busy),
        }
    }

    // Any actor may have something to do.
    fn all_busy(&self) -> Busy
        ensures { OthersAreDone result self.now.machine }
    {
        self.sound();
        Busy {
            pollers: CpuMask::first_n(self.given.queues()),
            cpus: CpuMask::first_n(self.given.cpus()),
            apps: CpuMask::first_n(self.given.apps()),
            txs: CpuMask::first_n(self.given.txs()),
        }
    }

    // Runs rounds until one does no work. The result says whether any work was done.
    fn sweep(&mut self, busy: &mut Busy) -> bool
        requires room { HasSpare self.old.rooms self.old.machine }
        requires busy { OthersAreDone busy.old self.old.machine }
        ensures turn { (self.new.machine, result) ≡ sweep (self.old.machine, false) }
        ensures setup { self.new.machine.setup ≡ self.old.machine.setup }
        ensures rooms { self.new.rooms ≡ self.old.rooms }
        ensures busy { OthersAreDone busy.new self.new.machine }
    {
        let mut worked = false;
        for _ in 0..most_rounds(self.given.packet_count()) {
            if !self.round(busy) {
                return worked;
            }
            worked = true;
        }
        worked
    }

    // One arrival, and one turn of every poller, processor, application and transmit queue that is
    // busy. The turn of another one would change nothing.
    fn round(&mut self, busy: &mut Busy) -> bool
        requires room { HasSpare self.old.rooms self.old.machine }
        requires busy { OthersAreDone busy.old self.old.machine }
        ensures turn { (self.new.machine, result) ≡ one_round (self.old.machine, false) }
        ensures setup { self.new.machine.setup ≡ self.old.machine.setup }
        ensures rooms { self.new.rooms ≡ self.old.rooms }
        ensures spare { HasSpare self.new.rooms self.new.machine }
        ensures busy { OthersAreDone busy.new self.new.machine }
    {
        let worked = self.arrive_busy(busy);
        let worked = self.poll_all(worked, busy);
        let worked = self.drain_all(worked, busy);
        let worked = self.serve_all(worked, busy);
        self.ship_all(worked, busy)
    }

    // The next packet arrives, if there is one, and makes the poller of its queue busy.
    fn arrive_busy(&mut self, busy: &mut Busy) -> bool
        requires { OthersAreDone busy.old self.old.machine }
        ensures turn { (self.new.machine, result) ≡ tried (self.old.machine, false) act.Arrive }
        ensures setup { self.new.machine.setup ≡ self.old.machine.setup }
        ensures rooms { self.new.rooms ≡ self.old.rooms }
        ensures busy { OthersAreDone busy.new self.new.machine }
    {
        self.sound();
        match self.arrive_next() {
            Some(queue) => {
                busy.pollers = busy.pollers.with(Cpu(queue.0));
                true
            }
            None => false,
        }
    }

    // One turn of each busy poller.
    fn poll_all(&mut self, worked: bool, busy: &mut Busy) -> bool
        requires { OthersAreDone busy.old self.old.machine }
        ensures turn { (self.new.machine, result)
            ≡ for_each (length self.old.machine.setup.homes) poll (self.old.machine, worked) }
        ensures setup { self.new.machine.setup ≡ self.old.machine.setup }
        ensures rooms { self.new.rooms ≡ self.old.rooms }
        ensures busy { OthersAreDone busy.new self.new.machine }
    {
        let mut done = worked;
        let mut from = 0;
        while let Some(q) = next_in(busy.pollers, from, self.given.queues()) {
            done = self.poll_busy(done, q, busy);
            from = q + 1;
        }
        done
    }

    // One turn of a busy poller. It is no longer busy if it is at rest after its turn.
    fn poll_busy(&mut self, worked: bool, q: u8, busy: &mut Busy) -> bool
        requires queue { q < length self.old.machine.setup.homes }
        requires member { has busy.old.pollers q ≡ true }
        requires busy { OthersAreDone busy.old self.old.machine }
        ensures turn { (self.new.machine, result) ≡ poll q (self.old.machine, worked) }
        ensures setup { self.new.machine.setup ≡ self.old.machine.setup }
        ensures rooms { self.new.rooms ≡ self.old.rooms }
        ensures busy { OthersAreDone busy.new self.new.machine }
    {
        let done = self.poll(worked, q, &mut busy.cpus);
        if !self.is_poller_done(q) {
            return done;
        }
        busy.pollers = busy.pollers.without(Cpu(q));
        done
    }

    // Whether a poller is at rest: it is outside the receive gate, keeps no note, and put all
    // packets of its ring.
    fn is_poller_done(&self, q: u8) -> bool
        requires { q < length self.now.machine.setup.homes }
        ensures { result ≡ true → PollerIsDone q self.now.machine }
    {
        !self.rx.is_inside(q)
            && self.rx.placed(q) == self.rx.arrivals_len(q)
            && self.notes[q as usize].is_nothing()
    }

    // One turn of each busy processor.
    fn drain_all(&mut self, worked: bool, busy: &mut Busy) -> bool
        requires { OthersAreDone busy.old self.old.machine }
        ensures turn { (self.new.machine, result)
            ≡ for_each self.old.machine.setup.cpus drain (self.old.machine, worked) }
        ensures setup { self.new.machine.setup ≡ self.old.machine.setup }
        ensures rooms { self.new.rooms ≡ self.old.rooms }
        ensures busy { OthersAreDone busy.new self.new.machine }
    {
        let mut done = worked;
        let mut from = 0;
        while let Some(c) = next_in(busy.cpus, from, self.given.cpus()) {
            done = self.drain_busy(done, c, busy);
            from = c + 1;
        }
        done
    }

    // One turn of a busy processor. It is no longer busy if its lane is empty after its turn.
    fn drain_busy(&mut self, worked: bool, c: u8, busy: &mut Busy) -> bool
        requires cpu { c < self.old.machine.setup.cpus }
        requires member { has busy.old.cpus c ≡ true }
        requires busy { OthersAreDone busy.old self.old.machine }
        ensures turn { (self.new.machine, result) ≡ drain c (self.old.machine, worked) }
        ensures setup { self.new.machine.setup ≡ self.old.machine.setup }
        ensures rooms { self.new.rooms ≡ self.old.rooms }
        ensures busy { OthersAreDone busy.new self.new.machine }
    {
        let done = self.drain(worked, c, &mut busy.apps);
        self.sound();
        if self.rx.unretired(c) > 0 {
            return done;
        }
        busy.cpus = busy.cpus.without(Cpu(c));
        done
    }

    // One turn of each busy application.
    fn serve_all(&mut self, worked: bool, busy: &mut Busy) -> bool
        requires room { HasSpare self.old.rooms self.old.machine }
        requires busy { OthersAreDone busy.old self.old.machine }
        ensures turn { (self.new.machine, result)
            ≡ for_each self.old.machine.setup.apps serve (self.old.machine, worked) }
        ensures setup { self.new.machine.setup ≡ self.old.machine.setup }
        ensures rooms { self.new.rooms ≡ self.old.rooms }
        ensures spare { HasSpare self.new.rooms self.new.machine }
        ensures busy { OthersAreDone busy.new self.new.machine }
    {
        self.sound();
        let mut done = worked;
        let mut from = 0;
        while let Some(a) = next_in(busy.apps, from, self.given.apps()) {
            done = self.serve_busy(done, a, busy);
            from = a + 1;
        }
        done
    }

    // One turn of a busy application. It is no longer busy if it is at rest after its turn.
    fn serve_busy(&mut self, worked: bool, a: u8, busy: &mut Busy) -> bool
        requires app { a < self.old.machine.setup.apps }
        requires member { has busy.old.apps a ≡ true }
        requires room { HasSpare self.old.rooms self.old.machine }
        requires busy { OthersAreDone busy.old self.old.machine }
        ensures turn { (self.new.machine, result) ≡ serve a (self.old.machine, worked) }
        ensures setup { self.new.machine.setup ≡ self.old.machine.setup }
        ensures rooms { self.new.rooms ≡ self.old.rooms }
        ensures busy { OthersAreDone busy.new self.new.machine }
    {
        let done = self.serve(worked, a, &mut busy.txs);
        if !self.is_sender_done(a) {
            return done;
        }
        busy.apps = busy.apps.without(Cpu(a));
        done
    }

    // Whether an application is at rest: it is outside the transmit gate, put all replies that it
    // began, and began one to each packet of its inbox.
    fn is_sender_done(&self, a: u8) -> bool
        requires { a < self.now.machine.setup.apps }
        ensures { result ≡ true → SenderIsDone a self.now.machine }
    {
        !self.tx.is_inside(a)
            && self.tx.placed(a) == self.tx.taken(a)
            && self.rx.out(a).len() == self.sent.len_of(a) as usize
    }

    // One turn of each busy transmit queue.
    fn ship_all(&mut self, worked: bool, busy: &mut Busy) -> bool
        requires { OthersAreDone busy.old self.old.machine }
        ensures turn { (self.new.machine, result)
            ≡ for_each self.old.machine.setup.txs ship (self.old.machine, worked) }
        ensures setup { self.new.machine.setup ≡ self.old.machine.setup }
        ensures rooms { self.new.rooms ≡ self.old.rooms }
        ensures busy { OthersAreDone busy.new self.new.machine }
    {
        let mut done = worked;
        let mut from = 0;
        while let Some(t) = next_in(busy.txs, from, self.given.txs()) {
            done = self.ship_busy(done, t, busy);
            from = t + 1;
        }
        done
    }

    // One turn of a busy transmit queue. It is no longer busy if its lane is empty after its turn.
    fn ship_busy(&mut self, worked: bool, t: u8, busy: &mut Busy) -> bool
        requires tx { t < self.old.machine.setup.txs }
        requires member { has busy.old.txs t ≡ true }
        requires busy { OthersAreDone busy.old self.old.machine }
        ensures turn { (self.new.machine, result) ≡ ship t (self.old.machine, worked) }
        ensures setup { self.new.machine.setup ≡ self.old.machine.setup }
        ensures rooms { self.new.rooms ≡ self.old.rooms }
        ensures busy { OthersAreDone busy.new self.new.machine }
    {
        let done = self.ship(worked, t);
        self.sound();
        if self.tx.unretired(t) > 0 {
            return done;
        }
        busy.txs = busy.txs.without(Cpu(t));
        done
    }

    // Whether nothing is left to do: every packet arrived, and no actor is busy.
    fn is_at_rest(&self, busy: &Busy) -> bool
        requires { OthersAreDone busy.now self.now.machine }
        ensures { result ≡ true → IsStill self.now.machine }
    {
        self.sound();
        if self.arrivals.len() != self.given.packet_count() {
            return false;
        }
        if !is_none_below(busy.pollers, self.given.queues()) {
            return false;
        }
        if !is_none_below(busy.cpus, self.given.cpus()) {
            return false;
        }
        if !is_none_below(busy.apps, self.given.apps()) {
            return false;
        }
        is_none_below(busy.txs, self.given.txs())
    }
}

// More rounds than there is work for so many packets.
fn most_rounds(packets: u32) -> u32
    requires { packets ≤ MAX_PACKETS }
    ensures { result ≡ the_most packets }
{
    16 * packets + 32
}
