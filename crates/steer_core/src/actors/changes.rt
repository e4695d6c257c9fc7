//! The change that a command makes when it is done.
ghost use Rattle.std.specs.Prelude.{◌≡◌, true};
ghost use Rattle.steer_core.specs.Changes.{stands_alone};
ghost use Rattle.steer_invariant.specs.StepInvariant.{IsCommandNamed};
ghost use Rattle.steer_model.specs.Steps.Commands.{answer_to, gone, is_done, set_by};
ghost use Rattle.steer_model.specs.Steps.Commands.{with_settings};

use crate::actors::Actors;
use crate::actors::old_filters::clear_old;
use steer_base::{Command, RxQueue};

impl Actors {
    /// Makes the change of a command that is done.
    pub(super) fn change(&mut self, command: &Command)
        requires named { IsCommandNamed self.old.machine.setup command.now }
        requires done { is_done (answer_to self.old.machine command.now) ≡ true }
        ensures state { self.new.machine ≡ set_by self.old.machine command.now }
        ensures rooms { self.new.rooms ≡ self.old.rooms }
    {
        match command {
            Command::Flows(q, count) => self.set_flows(q.0, *count),
            Command::Sock(size) => self.set_sock(*size),
            Command::Expire => {
                self.expire();
            }
            Command::Mask(..)
            | Command::Offline(_)
            | Command::Online(_)
            | Command::XCpus(..)
            | Command::XQueues(..)
            | Command::Reta(..)
            | Command::Stand(..) => self.set(command),
        }
    }

    // Changes a setting on which no table depends.
    fn set(&mut self, command: &Command)
        requires named { IsCommandNamed self.old.machine.setup command.now }
        requires done { is_done (answer_to self.old.machine command.now) ≡ true }
        requires alone { stands_alone command.now ≡ true }
        ensures state { self.new.machine ≡ with_settings self.old.machine command.now }
        ensures rooms { self.new.rooms ≡ self.old.rooms }
    {
        self.settings.change(command);
    }

    // Gives a receive queue another flow count, which clears its entries in a closed gate.
    fn set_flows(&mut self, q: u8, count: u32)
        requires named { IsCommandNamed self.old.machine.setup (Command.Flows q count) }
        requires done { is_done (answer_to self.old.machine (Command.Flows q count)) ≡ true }
        ensures state { self.new.machine ≡ set_by self.old.machine (Command.Flows q count) }
        ensures rooms { self.new.rooms ≡ self.old.rooms }
    {
        self.settings.change(&Command::Flows(RxQueue(q), count));
        self.rx.close();
        self.rx.resize(q, count);
        self.rx.reopen();
    }

    // Gives the socket flow table another size, which clears it.
    fn set_sock(&mut self, size: u32)
        requires named { IsCommandNamed self.old.machine.setup (Command.Sock size) }
        requires done { is_done (answer_to self.old.machine (Command.Sock size)) ≡ true }
        ensures state { self.new.machine ≡ set_by self.old.machine (Command.Sock size) }
        ensures rooms { self.new.rooms ≡ self.old.rooms }
    {
        self.settings.change(&Command::Sock(size));
        self.socket.resize(size);
    }

    /// Clears the filters that may go, and returns their number.
    pub(super) fn expire(&mut self) -> u32
        ensures state { self.new.machine ≡ set_by self.old.machine Command.Expire }
        ensures count { result ≡ gone self.old.machine }
        ensures rooms { self.new.rooms ≡ self.old.rooms }
    {
        clear_old(&mut self.filters, &self.given, &self.rx, &self.settings)
    }
}
