//! Totals of a history.
ghost use Rattle.std.specs.Prelude.{◌≡◌, ◌<◌, ◌^◌, sum, map, length, count_by};
ghost use Rattle.steer_base.specs.Choices.{has_moved};
ghost use Rattle.replay.specs.Counts.{IsCountable, counts_of, delivered_in, dropped_in, moved_in};

use history::{History, LaneList};
use steer_base::{Chosen, List, PacketId};

/// The number of packets that went each way.
#[derive(Clone, Copy, Debug, PartialEq, Eq)]
pub struct Counts {
    /// The packets that are in an inbox.
    pub delivered: u64,
    /// The packets that a processor dropped.
    pub dropped: u64,
    /// The choices of a processor that moved a flow: its entry was unset, its processor was
    /// offline, or all its packets had passed.
    pub moved: u64,
    /// The replies that left by the port.
    pub replies: u64,
}

impl Counts {
    /// The counts of a history, each of which is below 2^64.
    pub fn of(history: &History) -> Counts
        requires { IsCountable history.now }
        ensures { result ≡ counts_of history.now }
    {
        Counts {
            delivered: delivered_in(history.inboxes.as_slice()),
            dropped: dropped_in(history.lanes.as_slice()),
            moved: moved_in(history.choices.as_slice()),
            replies: history.port.len() as u64,
        }
    }
}

// How many packets are in these inboxes.
fn delivered_in(inboxes: &[List<PacketId>]) -> u64
    requires { delivered_in inboxes.now < 2 ^ 64 }
    ensures { result ≡ delivered_in inboxes.now }
{
    inboxes.iter().map(|inbox| inbox.len() as u64).sum()
}

// How many packets these processors dropped.
fn dropped_in(lanes: &[LaneList]) -> u64
    requires { dropped_in lanes.now < 2 ^ 64 }
    ensures { result ≡ dropped_in lanes.now }
{
    lanes.iter().map(|lane| lane.drops.len() as u64).sum()
}

// How many of these choices are moves.
fn moved_in(queues: &[List<Chosen>]) -> u64
    requires { moved_in queues.now < 2 ^ 64 }
    ensures { result ≡ moved_in queues.now }
{
    queues.iter().map(|choices| moves(choices.as_slice())).sum()
}

// How many choices of a queue are moves.
fn moves(choices: &[Chosen]) -> u64
    ensures { result ≡ count_by (λ c. has_moved c.choice.why) choices.now }
{
    choices
        .iter()
        .filter(|chosen| chosen.choice.why.moved())
        .count() as u64
}
