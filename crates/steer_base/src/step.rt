//! The steps of a plan.
use crate::command::Command;

/// One step of the machine. The number is that of the actor that makes it: a receive queue for its
/// poller, a processor for its backlog, an application, or a transmit queue, each from 0.
#[derive(Clone, Copy, Debug, PartialEq, Eq)]
pub enum Step {
    /// The next packet of the capture enters the ring of its receive queue.
    Arrive,
    /// A poller takes the first packet of its ring in hand.
    Take(u8),
    /// A poller enters the gate.
    Enter(u8),
    /// A poller looks up the socket flow table for the packet in hand.
    Look(u8),
    /// A poller chooses a processor for the packet in hand.
    Weigh(u8),
    /// A poller puts the packet in hand to the backlog of the chosen processor.
    Put(u8),
    /// A poller writes the filter that the packet in hand asks for.
    Ask(u8),
    /// A poller leaves the gate.
    Leave(u8),
    /// A processor dequeues the first packet of its backlog.
    Pull(u8),
    /// A processor delivers the packet in hand to the inbox of its application.
    Deliver(u8),
    /// A processor is done with the packet in hand, and its head grows by one.
    Retire(u8),
    /// The socket of a flow, by the number of the flow, records the processor of its application.
    Record(u32),
    /// An application takes the next packet of its inbox in hand, to reply to it.
    Send(u8),
    /// An application enters the gate of the transmit side.
    TEnter(u8),
    /// An application leaves the gate of the transmit side.
    TLeave(u8),
    /// An application chooses a transmit queue for the reply in hand.
    TWeigh(u8),
    /// An application puts the reply in hand to the chosen transmit queue.
    TPut(u8),
    /// A transmit queue takes its first waiting reply in hand.
    TPull(u8),
    /// A transmit queue delivers the reply in hand to the port.
    TDeliver(u8),
    /// A transmit queue is done with the reply in hand, and its head grows by one.
    TRetire(u8),
    /// All events of a poller in order, each where it is enabled.
    Poll(u8),
    /// All events of a processor in order, again until it has nothing in hand and nothing waits.
    Drain(u8),
    /// All events of an application in order, each where it is enabled.
    Reply(u8),
    /// The flow of the packet that an application replies to is recorded, and then all events of
    /// the application.
    Serve(u8),
    /// All events of a transmit queue in order, again until it has nothing in hand and nothing
    /// waits.
    Ship(u8),
    /// Rounds of all actors until a round in which all were idle.
    Sweep,
    /// A command is given.
    Give(Command),
}

/// A tap that is detached before the end of the report.
#[derive(Clone, Copy, Debug, PartialEq, Eq)]
pub struct Detach {
    /// The place of the tap among the taps, from 0.
    pub tap: u32,
    /// The number of packet lines that it still sees.
    pub after: u32,
}
