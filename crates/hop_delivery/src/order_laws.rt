//! Lemmas on delivery over an order of all steps. The functions have no code.
ghost use Rattle.std.specs.Prelude.{ℕ};
ghost use Rattle.hop_delivery.specs.Orders.Commands.{ReceivedCommandsEmpty, SentCommandsEmpty};
ghost use Rattle.hop_delivery.specs.Orders.DeliveryLaw.{DeliversInOrder};
ghost use Rattle.hop_delivery.specs.Orders.ReceiveSettings.{GoalsAreOnline, Queues};
ghost use Rattle.hop_delivery.specs.Orders.ReceiveSettings.{receive_steering};
ghost use Rattle.hop_delivery.specs.Orders.Runs.{IsSteering};
ghost use Rattle.hop_delivery.specs.Orders.TransmitSettings.{transmit_steering};

/// Lemma: if the six premises hold of what producers did on a board, the packets of each flow of
/// each producer are delivered in the order in which they arrived, without those that were dropped.
pub fn flows_are_delivered_in_order()
    ensures { DeliversInOrder }
{}

/// Lemma: the settings of a receive board and of a transmit board steer as the law requires.
pub fn settings_steer()
    ensures received { (q : Queues) (lanes : ℕ) → IsSteering lanes (receive_steering q) }
    ensures sent { (flow : ℕ → ℕ) (lanes : ℕ) → IsSteering lanes (transmit_steering flow) }
{}

/// Lemma: the lanes that have to be empty for the settings of a command are among those that the
/// command affects.
pub fn commands_empty_their_lanes()
    ensures received { ReceivedCommandsEmpty }
    ensures sent { SentCommandsEmpty }
{}

/// Lemma: a packet is to go to an online processor if the home of its queue is online.
pub fn goals_are_online()
    ensures { GoalsAreOnline }
{}
