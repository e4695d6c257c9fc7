//! Commands: how each is answered and listed.
ghost use Rattle.std.specs.Prelude.{◌≡◌, ◌<◌, length, true};
ghost use Rattle.history.specs.Regular.{has_text};
ghost use Rattle.steer_base.specs.Commands.{refusal};
ghost use Rattle.steer_core.specs.Changes.{done_by};
ghost use Rattle.steer_invariant.specs.StepInvariant.{IsCommandNamed};
ghost use Rattle.steer_model.specs.Steps.Commands.{affects, answer_to, by_gate, gated, given};
ghost use Rattle.steer_model.specs.Steps.Commands.{listed};

use crate::actors::Actors;
use crate::actors::hops::gate_answer;
use history::Commanded;
use hotplug::{Online, affected};
use steer_base::{Answer, Command, Refused};
use steer_model::{is_done, refused_answer};

impl Actors {
    /// Lists a command with its answer. It changes nothing else if it is not done.
    pub(super) fn give(&mut self, command: Command) -> Answer
        requires named { IsCommandNamed self.old.machine.setup command }
        requires room { length self.old.machine.commands < self.old.rooms.commands }
        ensures state { self.new.machine ≡ (given self.old.machine command).0 }
        ensures answer { result ≡ (given self.old.machine command).1 }
        ensures rooms { self.new.rooms ≡ self.old.rooms }
    {
        let answer = self.answer_to(&command);
        self.list(&command, &answer);
        answer
    }

    // Lists a command with its answer.
    fn list(&mut self, command: &Command, answer: &Answer)
        requires text { has_text answer.now ≡ true }
        requires room { length self.old.machine.commands < self.old.rooms.commands }
        ensures state { self.new.machine ≡ listed self.old.machine command.now answer.now }
        ensures rooms { self.new.rooms ≡ self.old.rooms }
    {
        self.commands.push(Commanded {
            command: *command,
            answer: *answer,
        });
    }

    // The answer to a command: why it may not be given, else what its gate says. If it is done, its
    // change is made.
    fn answer_to(&mut self, command: &Command) -> Answer
        requires named { IsCommandNamed self.old.machine.setup command.now }
        ensures state { self.new.machine ≡ done_by self.old.machine command.now }
        ensures answer { result ≡ answer_to self.old.machine command.now }
        ensures rooms { self.new.rooms ≡ self.old.rooms }
    {
        match self.refusal(command) {
            Some(why) => refused_answer(&why),
            None => self.by_gate(command),
        }
    }

    // Why a command may not be given.
    fn refusal(&self, command: &Command) -> Option<Refused>
        ensures { result ≡ refusal self.now.machine.settings.online command.now
            self.now.machine.setup.homes self.now.machine.settings.stands }
    {
        let online = Online {
            mask: self.settings.online(),
        };
        match online.may(command, self.given.homes(), self.settings.stands()) {
            Ok(()) => None,
            Err(why) => Some(why),
        }
    }

    // The answer to a command that may be given, whose change is made if it is done. The answer to
    // `expire` is the number of filters that it clears.
    fn by_gate(&mut self, command: &Command) -> Answer
        requires named { IsCommandNamed self.old.machine.setup command.now }
        requires allowed { answer_to self.old.machine command.now
            ≡ by_gate self.old.machine command.now }
        ensures state { self.new.machine ≡ done_by self.old.machine command.now }
        ensures answer { result ≡ by_gate self.old.machine command.now }
        ensures rooms { self.new.rooms ≡ self.old.rooms }
    {
        match command {
            Command::Mask(..)
            | Command::Flows(..)
            | Command::Sock(_)
            | Command::Offline(_)
            | Command::Online(_) => {
                let answer = self.rx_gate(command);
                self.change_if(command, answer)
            }
            Command::XCpus(..) | Command::XQueues(..) => {
                let answer = self.tx_gate(command);
                self.change_if(command, answer)
            }
            Command::Reta(..) | Command::Stand(..) => self.change_if(command, Answer::Done),
            Command::Expire => Answer::Expired(self.expire()),
        }
    }

    // Makes the change of a command if its answer is that it is done.
    fn change_if(&mut self, command: &Command, answer: Answer) -> Answer
        requires named { IsCommandNamed self.old.machine.setup command.now }
        requires answer { answer ≡ answer_to self.old.machine command.now }
        ensures state { self.new.machine ≡ done_by self.old.machine command.now }
        ensures answer { result ≡ answer }
        ensures rooms { self.new.rooms ≡ self.old.rooms }
    {
        if is_done(&answer) {
            self.change(command);
        }
        answer
    }

    // The answer to a command at the receive gate.
    fn rx_gate(&self, command: &Command) -> Answer
        ensures { result
            ≡ gated self.now.machine.rx (affects self.now.machine.setup command.now) }
    {
        let lanes = affected(
            command,
            self.given.homes(),
            self.given.cpus(),
            self.given.txs(),
        );
        gate_answer(&self.rx, lanes)
    }

    // The answer to a command at the transmit gate.
    fn tx_gate(&self, command: &Command) -> Answer
        ensures { result
            ≡ gated self.now.machine.tx (affects self.now.machine.setup command.now) }
    {
        let lanes = affected(
            command,
            self.given.homes(),
            self.given.cpus(),
            self.given.txs(),
        );
        gate_answer(&self.tx, lanes)
    }
}
