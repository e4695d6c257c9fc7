//! The steps of a poller, from the ring of its queue to the backlog of a processor.
ghost use Rattle.std.specs.Prelude.{◌≡◌, ◌<◌, length};
ghost use Rattle.hop_model.specs.declared.event.HopEvent.TheVariants as event;
ghost use Rattle.hop_model.specs.Hop.{next_of};
ghost use Rattle.steer_core.specs.Weighings.{weigh_event};
ghost use Rattle.steer_model.specs.State.Machine.{note_of};
ghost use Rattle.steer_model.specs.Steps.Outcomes.{by_rx};
ghost use Rattle.steer_model.specs.Steps.Pollers.{ask, poller_leaves, look, poller_puts, seen_by};
ghost use Rattle.steer_model.specs.Steps.Pollers.{poller_takes, poller_weighs};
ghost use Rattle.steer_model.specs.Steps.Pollers.{weighing};
ghost use Rattle.steer_model.specs.Steps.Pollers.{with_filter};

use crate::actors::hops::last_of;
use crate::actors::{Actors, Weighing};
use accel_filter::FilterTable;
use steer_base::{Answer, Filter, Idle, PacketId};
use steer_model::{Note, desired_cpu, filter_for, position_of, socket_seen, told};

impl Actors {
    /// Takes the first packet of the ring in hand. The hand of a poller that asks for a filter
    /// counts as full.
    pub(super) fn take(&mut self, q: u8) -> Answer
        requires { q < length self.old.machine.setup.homes }
        ensures state { self.new.machine ≡ (poller_takes self.old.machine q).0 }
        ensures answer { result ≡ (poller_takes self.old.machine q).1 }
        ensures setup { self.new.machine.setup ≡ self.old.machine.setup }
        ensures rooms { self.new.rooms ≡ self.old.rooms }
    {
        if self.notes[q as usize].is_asking() {
            return Answer::Idle(Idle::HandFull);
        }
        told(self.rx.take(q))
    }

    /// Lets the poller enter the receive gate.
    pub(super) fn enter(&mut self, q: u8) -> Answer
        requires { q < length self.old.machine.setup.homes }
        ensures state { self.new.machine ≡ (by_rx self.old.machine (event.Enter q)).0 }
        ensures answer { result ≡ (by_rx self.old.machine (event.Enter q)).1 }
        ensures setup { self.new.machine.setup ≡ self.old.machine.setup }
        ensures rooms { self.new.rooms ≡ self.old.rooms }
    {
        told(self.rx.enter(q))
    }

    /// Reads the socket flow table for the packet in hand, and keeps what was read.
    #[inline(always)]
    pub(super) fn look(&mut self, q: u8) -> Answer
        requires { q < length self.old.machine.setup.homes }
        ensures state { self.new.machine ≡ (look self.old.machine q).0 }
        ensures answer { result ≡ (look self.old.machine q).1 }
        ensures setup { self.new.machine.setup ≡ self.old.machine.setup }
        ensures rooms { self.new.rooms ≡ self.old.rooms }
    {
        if !self.rx.is_inside(q) {
            return Answer::Idle(Idle::NotInside);
        }
        if !self.notes[q as usize].is_nothing() {
            return Answer::Idle(Idle::WrongStage);
        }
        let Some(id) = self.rx.to_weigh(q) else {
            return Answer::Idle(Idle::WrongStage);
        };
        let want = self.seen_by(q, id);
        self.notes[q as usize] = Note::Looked(want);
        Answer::Done
    }

    // The processor that a packet finds in the socket flow table.
    #[inline(always)]
    fn seen_by(&self, q: u8, id: PacketId) -> Option<u8>
        requires { q < length self.now.machine.setup.homes }
        ensures { result ≡ seen_by self.now.machine q id }
    {
        let hash = self.given.hash_of(id);
        let class = self.rx.class(q, hash);
        socket_seen(&self.socket, class, hash)
    }

    /// Chooses the processor of the packet in hand by the migration rule, with what was read.
    #[inline(always)]
    pub(super) fn weigh(&mut self, q: u8) -> Answer
        requires { q < length self.old.machine.setup.homes }
        ensures state { self.new.machine ≡ (poller_weighs self.old.machine q).0 }
        ensures answer { result ≡ (poller_weighs self.old.machine q).1 }
        ensures setup { self.new.machine.setup ≡ self.old.machine.setup }
        ensures rooms { self.new.rooms ≡ self.old.rooms }
    {
        if !self.rx.is_inside(q) {
            return Answer::Idle(Idle::NotInside);
        }
        let Note::Looked(want) = self.notes[q as usize] else {
            return Answer::Idle(Idle::WrongStage);
        };
        let with = self.weighing(q, want);
        self.notes[q as usize] = Note::Nothing;
        told(
            self.rx
                .weigh(q, with.class, with.want, with.desired, with.online),
        )
    }

    // What the packet in hand is weighed with, if this was read in the socket flow table.
    #[inline(always)]
    fn weighing(&self, q: u8, want: Option<u8>) -> Weighing
        requires queue { q < length self.now.machine.setup.homes }
        requires looked { note_of self.now.machine q ≡ Note.Looked want }
        ensures { weigh_event q result
            ≡ weighing self.now.machine q (next_of self.now.machine.rx q) want }
    {
        let next = self.rx.to_weigh(q);
        let id = next.unwrap();
        let hash = self.given.hash_of(id);
        let class = self.rx.class(q, hash);
        let online = self.settings.online();
        let plain = self.settings.plain_lane(&self.given, q, id).0;
        let desired = desired_cpu(class, want, online, plain);
        Weighing {
            class,
            want,
            desired,
            online,
        }
    }

    /// Puts the packet in hand into the backlog of its processor, and notes a filter if one is due.
    #[inline(always)]
    pub(super) fn put(&mut self, q: u8) -> Answer
        requires { q < length self.old.machine.setup.homes }
        ensures state { self.new.machine ≡ (poller_puts self.old.machine q).0 }
        ensures answer { result ≡ (poller_puts self.old.machine q).1 }
        ensures setup { self.new.machine.setup ≡ self.old.machine.setup }
        ensures rooms { self.new.rooms ≡ self.old.rooms }
    {
        let id = last_of(&self.rx, q).id;
        let hash = self.given.hash_of(id);
        let answer = self.rx.put(q, hash);
        if let Some(position) = position_of(&answer) {
            let choice = last_of(&self.rx, q).choice;
            let filter = filter_for(self.given.homes(), self.filters.count(), choice, position);
            self.notes[q as usize] = Note::asking(filter);
        }
        told(answer)
    }

    /// Writes the filter that is noted.
    pub(super) fn ask(&mut self, q: u8) -> Answer
        requires { q < length self.old.machine.setup.homes }
        ensures state { self.new.machine ≡ (ask self.old.machine q).0 }
        ensures answer { result ≡ (ask self.old.machine q).1 }
        ensures setup { self.new.machine.setup ≡ self.old.machine.setup }
        ensures rooms { self.new.rooms ≡ self.old.rooms }
    {
        if !self.rx.is_inside(q) {
            return Answer::Idle(Idle::NotInside);
        }
        let Note::Asking(filter) = self.notes[q as usize] else {
            return Answer::Idle(Idle::WrongStage);
        };
        let id = last_of(&self.rx, q).id;
        let hash = self.given.hash_of(id);
        write_filter(&mut self.filters, hash, filter);
        self.notes[q as usize] = Note::Nothing;
        Answer::Done
    }

    /// Lets the poller leave the gate, but not between its look and the end of its put or filter.
    pub(super) fn leave(&mut self, q: u8) -> Answer
        requires { q < length self.old.machine.setup.homes }
        ensures state { self.new.machine ≡ (poller_leaves self.old.machine q).0 }
        ensures answer { result ≡ (poller_leaves self.old.machine q).1 }
        ensures setup { self.new.machine.setup ≡ self.old.machine.setup }
        ensures rooms { self.new.rooms ≡ self.old.rooms }
    {
        if !self.rx.is_inside(q) {
            return Answer::Idle(Idle::NotInside);
        }
        if !self.notes[q as usize].is_nothing() {
            return Answer::Idle(Idle::MidPacket);
        }
        told(self.rx.leave(q))
    }
}

// Writes a filter for a hash, and none without one.
fn write_filter(filters: &mut FilterTable, hash: Option<u32>, filter: Filter)
    ensures { filters.new ≡ with_filter filters.old hash filter }
{
    if let Some(hash) = hash {
        filters.steer(hash, filter);
    }
}
