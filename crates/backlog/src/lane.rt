//! A lane: the packets it accepted and dropped, and how many were pulled.
ghost use Rattle.std.specs.Prelude.{ℕ, ◌≡◌, ◌+◌, ◌-◌, ◌<◌, ◌≤◌, length, IfOk, slice_get};
ghost use Rattle.steer_base.specs.Counters.{number};
ghost use Rattle.backlog.specs.Kept.{most_drops};
ghost use Rattle.backlog.specs.Puts.{IsLane, SameShape, after_put, after_take, new_lane};
ghost use Rattle.backlog.specs.Puts.{next_waiting, put_answer, put_count};
ghost use Rattle.backlog.specs.declared.limits.TheConstants.{MAX_LANE_ROOM};

use crate::bucket::{bucket_of, drop_cause};
use crate::lane_offers::LaneOffers;
use crate::queue::Queue;
use std::alloc::Global;
use std::marker::Model;
use steer_base::{LaneDrop, OutOfMemory, PacketId, Put, number_at};

/// A queue of packets with a limit on those that wait, after the kernel's backlog of a processor
/// (`netdev_max_backlog`) and, where it is limited, the flow limit of the scaling chapter.
#[derive(Drop)]
pub struct Lane {
    parts: Box<Parts>,
}

/// What a lane consists of. A lane is moved into and out of its place on a board at each hold, so
/// it is one pointer to them.
#[derive(Drop)]
struct Parts {
    queue: Queue,
    offers: LaneOffers,
    drops: Vec<LaneDrop>,
    limit: u32,
    room: u32,
    start: u32,
}

impl Model for Lane {
    ghost use Rattle.std.specs.Prelude.{vec_capacity};
    ghost use Rattle.steer_base.specs.Lanes.{LaneLists};
    ghost use Rattle.backlog.specs.Kept.{IsKept, lane_lists};

    ghost Value = { LaneLists };

    ghost view = { λ l. lane_lists l.parts.value.queue l.parts.value.offers
        l.parts.value.drops.items l.parts.value.limit l.parts.value.room l.parts.value.start };

    ghost invariant = { λ l.
        IsKept (lane_lists l.parts.value.queue l.parts.value.offers l.parts.value.drops.items
        l.parts.value.limit l.parts.value.room l.parts.value.start)
        l.parts.value.queue l.parts.value.offers (vec_capacity l.parts.value.drops) };
}

impl Lane {
    /// An empty lane with memory for `room` packets, accepted and dropped together, of which at
    /// most `limit` wait at once. Its counter begins at the number `start`. `limited` says whether
    /// the flow limit applies.
    pub fn make(
        alloc: Global,
        limit: u32,
        room: u32,
        start: u32,
        limited: bool,
    ) -> Result<Lane, OutOfMemory>
        requires limit { 1 ≤ limit }
        requires room { room ≤ MAX_LANE_ROOM }
        ensures { IfOk result (λ lane. lane ≡ new_lane limit room start limited) }
    {
        let queue = Queue::make(alloc, limit, room)?;
        let offers = LaneOffers::make(alloc, room, limited)?;
        let drops = Vec::with_capacity(alloc, most_drops(limit, room, limited) as usize)?;
        let parts = Parts {
            queue,
            offers,
            drops,
            limit,
            room,
            start,
        };
        Ok(Lane {
            parts: Box::new(alloc, parts)?,
        })
    }

    /// Offers a packet with this hash to the lane. It is dropped if as many packets wait as the
    /// limit allows, or if the flow limit applies and says so; otherwise it is accepted. Returns
    /// its position, or the drop with its number, counts and cause. It is inlined, so that its
    /// result stays in registers: written to memory in parts and read as a whole, it would hold the
    /// processor up.
    #[inline(always)]
    pub fn put(&mut self, id: PacketId, hash: Option<u32>) -> Put
        requires { put_count self.old < self.old.room }
        ensures lists { self.new ≡ after_put self.old id hash }
        ensures answer { result ≡ put_answer self.old hash }
        ensures one_more { put_count self.new ≡ put_count self.old + 1 }
        ensures shape { SameShape self.old self.new }
    {
        let (accepted, pulled) = (self.parts.queue.accepted(), self.parts.queue.pulled());
        let waiting = self.parts.queue.waiting();
        let count = self.parts.offers.note(bucket_of(hash));
        let limited = self.parts.offers.limited();
        match drop_cause(limited, self.parts.limit, waiting, count) {
            None => {
                self.parts.queue.put(id);
                Put::At(number_at(self.parts.start, accepted + 1))
            }
            Some(cause) => {
                self.parts
                    .drops
                    .push(LaneDrop {
                        id,
                        accepted,
                        pulled,
                        cause,
                    })
                    .unwrap();
                Put::Dropped {
                    number: self.parts.drops.len() as u32,
                    accepted,
                    pulled,
                    cause,
                }
            }
        }
    }

    /// Pulls the oldest packet that waits, if there is one.
    pub fn take(&mut self) -> Option<PacketId>
        ensures lists { self.new ≡ after_take self.old }
        ensures packet { result ≡ next_waiting self.old }
        ensures shape { SameShape self.old self.new }
    {
        self.parts.queue.take()
    }

    /// How many more packets may be put: the room less the packets accepted or dropped so far.
    pub fn room(&self) -> u32
        ensures { result + put_count self.now ≡ self.now.room }
    {
        self.parts.room - self.parts.queue.accepted() - self.parts.drops.len() as u32
    }

    /// The number of packets accepted so far.
    pub fn accepted_len(&self) -> u32
        ensures { result ≡ length self.now.accepted }
    {
        self.parts.queue.accepted()
    }

    /// The accepted packet at index `n`, from 0, if more than `n` were accepted.
    pub fn accepted_at(&self, n: u32) -> Option<PacketId>
        ensures { result ≡ slice_get self.now.accepted n }
    {
        self.parts.queue.get(n)
    }

    /// The drops, in the order of their numbers.
    pub fn drops(&self) -> &[LaneDrop]
        ensures { result.now ≡ self.now.drops }
    {
        &self.parts.drops
    }

    /// The number of packets pulled so far.
    pub fn pulled(&self) -> u32
        ensures pulled { result ≡ self.now.pulled }
        ensures lane { IsLane self.now }
    {
        self.parts.queue.pulled()
    }

    /// The counter number of the accepted packets, which wraps at 32 bits.
    pub fn tail(&self) -> u32
        ensures { result ≡ number self.now.start (length self.now.accepted) }
    {
        number_at(self.parts.start, self.parts.queue.accepted())
    }

    /// The packets that the lane accepted and its drops, as vectors, without copying.
    pub fn into_lists(self) -> (Vec<PacketId>, Vec<LaneDrop>)
        ensures accepted { result.0.items ≡ self.accepted }
        ensures drops { result.1.items ≡ self.drops }
    {
        let Parts { queue, drops, .. } = Box::into_inner(self.parts);
        (queue.into_accepted(), drops)
    }
}

// The most packets that a lane can drop: none if all may wait at once and no flow limit applies.
fn most_drops(limit: u32, room: u32, limited: bool) -> u32
    ensures { result ≡ most_drops limit room limited }
{
    if limited || limit < room { room } else { 0 }
}
