//! The parts of a history, and the history that they make.
ghost use Rattle.std.specs.Prelude.{◌≡◌, ◌∷◌, [], length};
ghost use Rattle.steer_core.specs.HistoryParts.{joined_history};

use history::{Arrival, Commanded, History, LaneList, Sent, SockWrite};
use steer_base::{Chosen, List, PacketId};

/// The parts of a history: what it has of each hop, and what it has beside them.
#[derive(Drop)]
pub struct HistoryParts {
    /// The number of packets in the capture.
    pub total: u32,
    /// The length of a truncated record at the end of the capture, if there is one.
    pub cut: Option<u32>,
    /// What it has of the receive hop.
    pub rx: HopPart,
    /// What it has of the transmit hop.
    pub tx: HopPart,
    /// What it has beside the hops.
    pub beside: BesidePart,
}

/// What a history has of a hop.
#[derive(Drop)]
pub struct HopPart {
    /// For each producer, how many packets it took.
    pub taken: List<u32>,
    /// For each producer, its choices, oldest first.
    pub choices: List<List<Chosen>>,
    /// What became of the packets that were put to each lane.
    pub lanes: List<LaneList>,
    /// For each out lane, the packets that were delivered to it, oldest first.
    pub outs: List<List<PacketId>>,
    /// The number that the counters of the lanes showed before their first packet.
    pub start: u32,
}

/// What a history has beside the hops.
#[derive(Drop)]
pub struct BesidePart {
    /// The packets that arrived.
    pub arrivals: List<Arrival>,
    /// For each application, the replies that it began.
    pub sent: List<List<Sent>>,
    /// For each application, its writes to the socket flow table.
    pub writes: List<List<SockWrite>>,
    /// The commands that were given, with their answers.
    pub commands: List<Commanded>,
}

impl HistoryParts {
    /// The history of these parts. Its lists are moved and not copied.
    pub fn joined(self) -> History
        requires port { length self.tx.outs ≡ 1 }
        ensures { result ≡ joined_history self }
    {
        let HistoryParts {
            total,
            cut,
            rx,
            tx,
            beside,
        } = self;
        History {
            total,
            cut,
            arrivals: beside.arrivals,
            taken: rx.taken,
            choices: rx.choices,
            lanes: rx.lanes,
            inboxes: rx.outs,
            sent: beside.sent,
            tx_choices: tx.choices,
            tx_lanes: tx.lanes,
            port: only_list(tx.outs),
            writes: beside.writes,
            commands: beside.commands,
            start: rx.start,
        }
    }
}

// The only list of these.
fn only_list(lists: List<List<PacketId>>) -> List<PacketId>
    requires { length lists ≡ 1 }
    ensures { lists ≡ result ∷ [] }
{
    lists.into_vec().pop().unwrap()
}
