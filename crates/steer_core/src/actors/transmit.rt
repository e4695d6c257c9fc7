//! The steps of a transmit queue, from its replies to the port.
ghost use Rattle.std.specs.Prelude.{◌≡◌, ◌<◌};
ghost use Rattle.hop_model.specs.declared.event.HopEvent.TheVariants as event;
ghost use Rattle.steer_model.specs.Steps.Outcomes.{by_tx};

use crate::actors::Actors;
use steer_base::Answer;
use steer_model::told;

impl Actors {
    /// Takes the first reply that waits in hand.
    pub(super) fn tpull(&mut self, t: u8) -> Answer
        requires { t < self.old.machine.setup.txs }
        ensures state { self.new.machine ≡ (by_tx self.old.machine (event.Pull t)).0 }
        ensures answer { result ≡ (by_tx self.old.machine (event.Pull t)).1 }
        ensures setup { self.new.machine.setup ≡ self.old.machine.setup }
        ensures rooms { self.new.rooms ≡ self.old.rooms }
    {
        told(self.tx.pull(t))
    }

    /// Sends the reply in hand out by the port.
    pub(super) fn tdeliver(&mut self, t: u8) -> Answer
        requires { t < self.old.machine.setup.txs }
        ensures state { self.new.machine ≡ (by_tx self.old.machine (event.Deliver t 0)).0 }
        ensures answer { result ≡ (by_tx self.old.machine (event.Deliver t 0)).1 }
        ensures setup { self.new.machine.setup ≡ self.old.machine.setup }
        ensures rooms { self.new.rooms ≡ self.old.rooms }
    {
        told(self.tx.deliver(t, 0))
    }

    /// Raises the head of the transmit queue past the reply that it delivered.
    pub(super) fn tretire(&mut self, t: u8) -> Answer
        requires { t < self.old.machine.setup.txs }
        ensures state { self.new.machine ≡ (by_tx self.old.machine (event.Retire t)).0 }
        ensures answer { result ≡ (by_tx self.old.machine (event.Retire t)).1 }
        ensures setup { self.new.machine.setup ≡ self.old.machine.setup }
        ensures rooms { self.new.rooms ≡ self.old.rooms }
    {
        told(self.tx.retire(t))
    }
}
