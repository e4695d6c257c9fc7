//! The lists of a history that the actors of a run leave.
ghost use Rattle.std.specs.Prelude.{◌≡◌, [], length, map};
ghost use Rattle.steer_base.specs.Journals.{journal};
ghost use Rattle.workers.specs.Lists.{ArePairs, AreReceived};

use crate::wire::Wire;
use history::{Sent, SockWrite};
use run_workers::{Poller, Server};
use steer_base::{Chosen, Journal, List};

/// What the pollers leave, by receive queue.
#[derive(Drop)]
pub struct QueueLists {
    /// How many packets each took.
    pub taken: List<u32>,
    /// Its choices.
    pub choices: List<List<Chosen>>,
}

/// What the applications leave, by application.
#[derive(Drop)]
pub struct ReplyLists {
    /// Its replies.
    pub sent: List<List<Sent>>,
    /// The choices for them.
    pub choices: List<List<Chosen>>,
    /// Its writes.
    pub writes: List<List<SockWrite>>,
}

/// Takes the lists of the pollers. Both ends of each ring are in one thread now, so that what came
/// out of it and what is left there is known to be what was given to it.
pub fn take_queues(
    mut pollers: Vec<Poller>,
    wire: &mut Wire,
    mut taken: Journal<u32>,
    mut choices: Journal<List<Chosen>>,
) -> QueueLists
    requires pairs { ArePairs wire.old pollers.items }
    requires taken { taken ≡ journal [] (length pollers.items) }
    requires choices { choices ≡ journal [] (length pollers.items) }
    ensures taken { result.taken ≡ map (λ (p : Poller). length p.choices.items) pollers.items }
    ensures choices { result.choices ≡ map (λ (p : Poller). p.choices.items) pollers.items }
    ensures received { AreReceived wire.old pollers.items }
{
    pollers.reverse();
    while let Some(mut poller) = pollers.pop() {
        let queue = taken.len() as usize;
        poller.ring.slots_beside(&mut wire.rings[queue]);
        taken.push(poller.choices.len());
        choices.push(List::from_vec(poller.choices.into_vec()));
    }
    QueueLists {
        taken: List::from_vec(taken.into_vec()),
        choices: List::from_vec(choices.into_vec()),
    }
}

/// Takes the lists of the applications.
pub fn take_replies(
    mut servers: Vec<Server>,
    mut sent: Journal<List<Sent>>,
    mut choices: Journal<List<Chosen>>,
    mut writes: Journal<List<SockWrite>>,
) -> ReplyLists
    requires sent { sent ≡ journal [] (length servers.items) }
    requires choices { choices ≡ journal [] (length servers.items) }
    requires writes { writes ≡ journal [] (length servers.items) }
    ensures sent { result.sent ≡ map (λ (v : Server). v.sent.items) servers.items }
    ensures choices { result.choices ≡ map (λ (v : Server). v.choices.items) servers.items }
    ensures writes { result.writes ≡ map (λ (v : Server). v.writes.items) servers.items }
{
    servers.reverse();
    while let Some(server) = servers.pop() {
        sent.push(List::from_vec(server.sent.into_vec()));
        choices.push(List::from_vec(server.choices.into_vec()));
        writes.push(List::from_vec(server.writes.into_vec()));
    }
    ReplyLists {
        sent: List::from_vec(sent.into_vec()),
        choices: List::from_vec(choices.into_vec()),
        writes: List::from_vec(writes.into_vec()),
    }
}
