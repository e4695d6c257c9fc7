//! The steps of a processor, from its backlog to the inboxes.
ghost use Rattle.std.specs.Prelude.{◌≡◌, ◌<◌};
ghost use Rattle.hop_model.specs.declared.event.HopEvent.TheVariants as event;
ghost use Rattle.steer_model.specs.Steps.Applications.{cpu_delivers, in_lane};
ghost use Rattle.steer_model.specs.Steps.Outcomes.{by_rx};
ghost use Rattle.steer_model.specs.State.Setup.{app_for};

use crate::actors::Actors;
use steer_base::{Answer, PacketId};
use steer_model::told;

impl Actors {
    /// Takes the first packet of the backlog in hand.
    pub(super) fn pull(&mut self, c: u8) -> Answer
        requires { c < self.old.machine.setup.cpus }
        ensures state { self.new.machine ≡ (by_rx self.old.machine (event.Pull c)).0 }
        ensures answer { result ≡ (by_rx self.old.machine (event.Pull c)).1 }
        ensures setup { self.new.machine.setup ≡ self.old.machine.setup }
        ensures rooms { self.new.rooms ≡ self.old.rooms }
    {
        told(self.rx.pull(c))
    }

    /// Delivers the packet in hand to the inbox of its application.
    pub(super) fn deliver(&mut self, c: u8) -> Answer
        requires { c < self.old.machine.setup.cpus }
        ensures state { self.new.machine ≡ (cpu_delivers self.old.machine c).0 }
        ensures answer { result ≡ (cpu_delivers self.old.machine c).1 }
        ensures setup { self.new.machine.setup ≡ self.old.machine.setup }
        ensures rooms { self.new.rooms ≡ self.old.rooms }
    {
        let to = self.destination(c);
        self.deliver_to(c, to)
    }

    /// Delivers the packet in hand to the inbox of its application, which is `to`.
    pub(super) fn deliver_to(&mut self, c: u8, to: u8) -> Answer
        requires cpu { c < self.old.machine.setup.cpus }
        requires to { to ≡ app_for self.old.machine.setup (in_lane self.old.machine.rx c) }
        ensures state { self.new.machine ≡ (cpu_delivers self.old.machine c).0 }
        ensures answer { result ≡ (cpu_delivers self.old.machine c).1 }
        ensures setup { self.new.machine.setup ≡ self.old.machine.setup }
        ensures rooms { self.new.rooms ≡ self.old.rooms }
    {
        told(self.rx.deliver(c, to))
    }

    /// Where the packet in hand is delivered.
    pub(super) fn destination(&self, c: u8) -> u8
        requires { c < self.now.machine.setup.cpus }
        ensures { result ≡ app_for self.now.machine.setup (in_lane self.now.machine.rx c) }
    {
        let id = match self.rx.to_deliver(c) {
            Some(id) => id,
            None => PacketId(0),
        };
        self.given.app_of(id).0
    }

    /// Raises the head of the processor past the packet that it delivered.
    pub(super) fn retire(&mut self, c: u8) -> Answer
        requires { c < self.old.machine.setup.cpus }
        ensures state { self.new.machine ≡ (by_rx self.old.machine (event.Retire c)).0 }
        ensures answer { result ≡ (by_rx self.old.machine (event.Retire c)).1 }
        ensures setup { self.new.machine.setup ≡ self.old.machine.setup }
        ensures rooms { self.new.rooms ≡ self.old.rooms }
    {
        told(self.rx.retire(c))
    }
}
