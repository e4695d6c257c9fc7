//! The steps of an application, from its inbox to a transmit queue.
ghost use Rattle.std.specs.Prelude.{◌≡◌, ◌<◌, slice_index_or};
ghost use Rattle.history.specs.Lists.{arrival_of};
ghost use Rattle.hop_model.specs.declared.event.HopEvent.TheVariants as event;
ghost use Rattle.steer_core.specs.Weighings.{weigh_event};
ghost use Rattle.steer_model.specs.Steps.Applications.{in_reply, next_in, nothing_sent, reply_to};
ghost use Rattle.steer_model.specs.Steps.Applications.{send};
ghost use Rattle.steer_model.specs.Steps.Applications.{sending, tput, tweigh};
ghost use Rattle.steer_model.specs.Steps.Outcomes.{by_tx};
ghost use Rattle.steer_model.specs.Steps.CompoundSteps.{replying};

use crate::actors::hops::last_of;
use crate::actors::{Actors, Weighing};
use history::Sent;
use steer_base::{Answer, Cpu, CpuMask, Idle, PacketId, RxQueue};
use steer_model::told;

// All transmit queues are online.
const EVERYONE: CpuMask = CpuMask(0xffff_ffff);

// The default where there is no reply.
const NOTHING_SENT: Sent = Sent {
    id: PacketId(0),
    rxq: RxQueue(0),
    cpu: Cpu(0),
};

impl Actors {
    /// Takes the next packet of the inbox in hand, to reply to it.
    #[inline(always)]
    pub(super) fn send(&mut self, a: u8) -> Answer
        requires { a < self.old.machine.setup.apps }
        ensures state { self.new.machine ≡ (send self.old.machine a).0 }
        ensures answer { result ≡ (send self.old.machine a).1 }
        ensures setup { self.new.machine.setup ≡ self.old.machine.setup }
        ensures rooms { self.new.rooms ≡ self.old.rooms }
    {
        if self.tx.placed(a) < self.tx.taken(a) {
            return Answer::Idle(Idle::HandFull);
        }
        let Some(id) = self.next_in(a) else {
            return Answer::Idle(Idle::InboxDone);
        };
        let reply = self.reply_to(a, id);
        self.tx.arrive(a, id);
        self.tx.take(a);
        self.sent.push(a, reply);
        Answer::Done
    }

    // The next packet of the inbox to reply to, if there is one.
    fn next_in(&self, a: u8) -> Option<PacketId>
        requires { a < self.now.machine.setup.apps }
        ensures { result ≡ next_in self.now.machine a }
    {
        let inbox = self.rx.out(a);
        inbox.get(self.sent.len_of(a) as usize).copied()
    }

    // The reply to a packet: its receive queue, and the processor of the application now.
    fn reply_to(&self, a: u8, id: PacketId) -> Sent
        requires { a < self.now.machine.setup.apps }
        ensures { result ≡ reply_to self.now.machine a id }
    {
        Sent {
            id,
            rxq: self.queue_of(id),
            cpu: self.settings.stand(a),
        }
    }

    // The queue at which a packet arrived; queue 0 for one that did not.
    fn queue_of(&self, id: PacketId) -> RxQueue
        ensures { result ≡ (arrival_of self.now.machine.arrivals id).queue }
    {
        match self.arrivals.get(id.0) {
            Some(arrival) => arrival.queue,
            None => RxQueue(0),
        }
    }

    /// The packet that is replied to next: the one in hand, else the next one of the inbox.
    pub(super) fn replying(&self, a: u8) -> Option<PacketId>
        requires { a < self.now.machine.setup.apps }
        ensures { result ≡ replying self.now.machine a }
    {
        let placed = self.tx.placed(a);
        if placed < self.tx.taken(a) {
            Some(sent_at(self.sent.list(a), placed as usize).id)
        } else {
            self.next_in(a)
        }
    }

    /// Lets the application enter the transmit gate.
    pub(super) fn tenter(&mut self, a: u8) -> Answer
        requires { a < self.old.machine.setup.apps }
        ensures state { self.new.machine ≡ (by_tx self.old.machine (event.Enter a)).0 }
        ensures answer { result ≡ (by_tx self.old.machine (event.Enter a)).1 }
        ensures setup { self.new.machine.setup ≡ self.old.machine.setup }
        ensures rooms { self.new.rooms ≡ self.old.rooms }
    {
        told(self.tx.enter(a))
    }

    /// Lets the application leave the transmit gate.
    pub(super) fn tleave(&mut self, a: u8) -> Answer
        requires { a < self.old.machine.setup.apps }
        ensures state { self.new.machine ≡ (by_tx self.old.machine (event.Leave a)).0 }
        ensures answer { result ≡ (by_tx self.old.machine (event.Leave a)).1 }
        ensures setup { self.new.machine.setup ≡ self.old.machine.setup }
        ensures rooms { self.new.rooms ≡ self.old.rooms }
    {
        told(self.tx.leave(a))
    }

    /// Chooses the transmit queue of the reply in hand by the migration rule.
    #[inline(always)]
    pub(super) fn tweigh(&mut self, a: u8) -> Answer
        requires { a < self.old.machine.setup.apps }
        ensures state { self.new.machine ≡ (tweigh self.old.machine a).0 }
        ensures answer { result ≡ (tweigh self.old.machine a).1 }
        ensures setup { self.new.machine.setup ≡ self.old.machine.setup }
        ensures rooms { self.new.rooms ≡ self.old.rooms }
    {
        let with = self.next_sending(a);
        told(
            self.tx
                .weigh(a, with.class, with.want, with.desired, with.online),
        )
    }

    // What the reply in hand is weighed with: its flow number as class, and the pick of the maps as
    // want and as desired queue.
    #[inline(always)]
    fn next_sending(&self, a: u8) -> Weighing
        requires { a < self.now.machine.setup.apps }
        ensures { weigh_event a result ≡ sending self.now.machine a (in_reply self.now.machine a) }
    {
        let reply = sent_at(self.sent.list(a), self.tx.choices(a).len());
        let hash = self.given.hash_of(reply.id);
        let pick = self.settings.pick(reply.rxq, reply.cpu, hash);
        Weighing {
            class: Some(self.given.flow_of(reply.id)),
            want: Some(pick),
            desired: pick,
            online: EVERYONE,
        }
    }

    /// Puts the reply in hand into its transmit queue.
    #[inline(always)]
    pub(super) fn tput(&mut self, a: u8) -> Answer
        requires { a < self.old.machine.setup.apps }
        ensures state { self.new.machine ≡ (tput self.old.machine a).0 }
        ensures answer { result ≡ (tput self.old.machine a).1 }
        ensures setup { self.new.machine.setup ≡ self.old.machine.setup }
        ensures rooms { self.new.rooms ≡ self.old.rooms }
    {
        let id = last_of(&self.tx, a).id;
        let hash = self.given.hash_of(id);
        told(self.tx.put(a, hash))
    }
}

// The reply at an index, and a reply to no packet past the end.
fn sent_at(sent: &[Sent], index: usize) -> Sent
    ensures { result ≡ slice_index_or sent.now index nothing_sent }
{
    match sent.get(index) {
        Some(reply) => *reply,
        None => NOTHING_SENT,
    }
}
