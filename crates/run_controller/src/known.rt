//! What the controller knows of the settings.
ghost use Rattle.std.specs.Prelude.{◌≡◌, ◌+◌, ◌-◌, ◌*◌, ◌<◌, ◌≤◌, ◌^◌, IfOk, IfSome, length};
ghost use Rattle.std.specs.Prelude.{slice_index};
ghost use Rattle.steer_base.specs.Commands.{refusal};
ghost use Rattle.steer_base.specs.Counters.{rounded_up};
ghost use Rattle.steer_base.specs.declared.limits.TheConstants.{MAX_FLOW_COUNT};
ghost use Rattle.run_words.specs.Values.{flows_word as word_of};
ghost use Rattle.run_controller.specs.Settings.{IsKnown, first_known, known_after};
ghost use Rattle.run_controller.specs.Settings as settings;
ghost use Rattle.run_controller.specs.Stages.{IsNamed};

use crate::change::Change;
use hotplug::Online;
use plan_reader::Plan;
use run_words::{
    ReceiveSetting, TransmitSetting, cpus_word, flows_word, queues_word, socket_size_word,
};
use std::alloc::Global;
use std::marker::Model;
use steer_base::{Command, OutOfMemory, Refused, RxQueue, round_up};
use steer_model::{Given, InForce};

/// What the controller knows of the settings without reading them, since it alone changes them.
#[derive(Drop)]
pub struct Known {
    settings: InForce,
    // For each receive queue, how often its flow count was changed.
    generations: Vec<u32>,
}

impl Model for Known {
    ghost use Rattle.run_controller.specs.Settings.{KnownSettings};

    ghost Value = { KnownSettings };

    ghost view = { λ k. record { settings = k.settings; generations = k.generations.items } };
}

impl Known {
    /// The settings that a plan begins with, none of them changed yet.
    pub fn of_plan(alloc: Global, plan: &Plan) -> Result<Known, OutOfMemory>
        ensures { IfOk result (λ known. known ≡ first_known plan.now) }
    {
        Ok(Known {
            settings: InForce::of_plan(alloc, plan)?,
            generations: vec![in alloc; 0; plan.queues.len()]?,
        })
    }

    /// Why a command may not be given.
    pub fn refusal(&self, command: &Command, given: &Given) -> Option<Refused>
        requires known { length self.now.settings.stands ≡ given.now.apps }
        ensures { result ≡ refusal self.now.settings.online command.now given.now.homes
            self.now.settings.stands }
    {
        given.ranges();
        let online = Online {
            mask: self.settings.online(),
        };
        match online.may(command, given.homes(), self.settings.stands()) {
            Ok(()) => None,
            Err(why) => Some(why),
        }
    }

    /// The change that a command makes at the receive board, if it makes one.
    pub fn receive_change(&self, command: &Command, given: &Given) -> Option<Change>
        requires named { IsNamed given.now command.now }
        requires known { IsKnown given.now (2 ^ 32 - 2) self.now }
        ensures value { result
            ≡ settings.receive_change (length given.now.homes) self.now command.now }
        ensures within { IfSome result (λ m. m.number < 2 * length given.now.homes + 2) }
    {
        given.ranges();
        let (setting, value) = match *command {
            Command::Mask(queue, mask) => (ReceiveSetting::Cpus(queue), cpus_word(mask)),
            Command::Flows(queue, count) => {
                (ReceiveSetting::Flows(queue), self.next_flows(queue, count))
            }
            Command::Sock(size) => (ReceiveSetting::SocketSize, socket_size_word(round_up(size))),
            Command::Offline(cpu) => {
                let online = self.settings.online().without(cpu);
                (ReceiveSetting::Online, cpus_word(online))
            }
            Command::Online(cpu) => {
                let online = self.settings.online().with(cpu);
                (ReceiveSetting::Online, cpus_word(online))
            }
            _ => return None,
        };
        Some(Change {
            number: setting.number(given.queues()),
            value,
        })
    }

    // The next word of a flow count: the count, rounded up, with the next generation.
    fn next_flows(&self, queue: RxQueue, count: u32) -> u64
        requires queue { queue < length self.now.generations }
        requires few { slice_index self.now.generations queue < 2 ^ 32 - 1 }
        requires count { count ≤ MAX_FLOW_COUNT }
        ensures { result
            ≡ word_of (rounded_up count) (slice_index self.now.generations queue + 1) }
    {
        flows_word(round_up(count), self.generations[queue.0 as usize] + 1)
    }

    /// Keeps the change of a command that was done.
    pub fn remember(&mut self, command: &Command, given: &Given)
        requires named { IsNamed given.now command.now }
        requires known { IsKnown given.now (2 ^ 32 - 2) self.old }
        ensures value { self.new ≡ known_after self.old command.now }
    {
        given.ranges();
        self.settings.change(command);
        if let Command::Flows(queue, _) = command {
            self.generations[queue.0 as usize] += 1;
        }
    }
}

/// The change that a command makes at the transmit board, if it makes one.
pub fn transmit_change(command: &Command, given: &Given) -> Option<Change>
    requires named { IsNamed given.now command.now }
    ensures value { result ≡ settings.transmit_change given.now.txs command.now }
    ensures within { IfSome result (λ m. m.number < 2 * given.now.txs) }
{
    let (setting, value) = match *command {
        Command::XCpus(tx, mask) => (TransmitSetting::Cpus(tx), cpus_word(mask)),
        Command::XQueues(tx, queues) => (TransmitSetting::Queues(tx), queues_word(queues)),
        _ => return None,
    };
    Some(Change {
        number: setting.number(given.txs()),
        value,
    })
}
