//! The accepted packets of a lane, and those of them that wait.
ghost use Rattle.std.specs.Prelude.{ℕ, ◌≡◌, ◌+◌, ◌-◌, ◌<◌, ◌≤◌, List, [], ◌∷◌, ◌++◌, length, IfOk};
ghost use Rattle.std.specs.Prelude.{nat_lt, slice_get, if◌then◌else◌};
ghost use Rattle.steer_base.specs.Journals.{journal};
ghost use Rattle.backlog.specs.Queues.{QueueLists, queue_lists};
ghost use Rattle.backlog.specs.declared.limits.TheConstants.{MAX_LANE_ROOM};

use std::alloc::Global;
use std::marker::Model;
use steer_base::{Journal, OutOfMemory, PacketId};

/// The accepted packets and how many of them were pulled, the oldest first.
#[derive(Drop)]
pub struct Queue {
    accepted: Journal<PacketId>,
    pulled: u32,
    limit: u32,
}

impl Model for Queue {
    ghost use Rattle.backlog.specs.Queues.{IsQueue, QueueLists, queue_lists};

    ghost Value = { QueueLists };

    ghost view = { λ q. queue_lists q.accepted q.pulled q.limit };

    ghost invariant = { λ q. IsQueue (queue_lists q.accepted q.pulled q.limit) };
}

impl Queue {
    /// An empty queue with memory for `room` packets, of which at most `limit` wait at once.
    pub fn make(alloc: Global, limit: u32, room: u32) -> Result<Queue, OutOfMemory>
        requires { room ≤ MAX_LANE_ROOM }
        ensures { IfOk result (λ queue. queue ≡ queue_lists (journal [] room) 0 limit) }
    {
        let accepted = Journal::make(alloc, room)?;
        Ok(Queue {
            accepted,
            pulled: 0,
            limit,
        })
    }

    /// Accepts a packet.
    pub fn put(&mut self, id: PacketId)
        requires room { length self.old.accepted < self.old.room }
        requires limit { length self.old.accepted - self.old.pulled < self.old.limit }
        ensures { self.new ≡ record self.old { accepted = self.old.accepted ++ id ∷ [] } }
    {
        self.accepted.push(id);
    }

    /// Pulls the oldest packet that waits, if there is one.
    pub fn take(&mut self) -> Option<PacketId>
        ensures lists { self.new ≡ (if nat_lt self.old.pulled (length self.old.accepted)
            then record self.old { pulled = self.old.pulled + 1 } else self.old) }
        ensures packet { result ≡ slice_get self.old.accepted self.old.pulled }
    {
        let id = self.accepted.get(self.pulled)?;
        self.pulled += 1;
        Some(id)
    }

    /// The number of packets that wait.
    pub fn waiting(&self) -> u32
        ensures waiting { result ≡ length self.now.accepted - self.now.pulled }
        ensures limited { result ≤ self.now.limit }
    {
        self.accepted.len() - self.pulled
    }

    /// The number of packets accepted so far.
    pub fn accepted(&self) -> u32
        ensures accepted { result ≡ length self.now.accepted }
        ensures fits { result ≤ self.now.room }
    {
        self.accepted.len()
    }

    /// The number of packets pulled so far.
    pub fn pulled(&self) -> u32
        ensures pulled { result ≡ self.now.pulled }
        ensures within { result ≤ length self.now.accepted }
    {
        self.pulled
    }

    /// The packet that was accepted at an index from 0, if there is one.
    pub fn get(&self, index: u32) -> Option<PacketId>
        ensures { result ≡ slice_get self.now.accepted index }
    {
        self.accepted.get(index)
    }

    /// The accepted packets as a vector, without copying.
    pub fn into_accepted(self) -> Vec<PacketId>
        ensures { result.items ≡ self.accepted }
    {
        let Queue { accepted, .. } = self;
        accepted.into_vec()
    }
}
