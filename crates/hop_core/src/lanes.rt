//! The lanes of a hop.
ghost use Rattle.std.specs.Prelude.{◌≡◌, ℕ, ◌<◌, ◌≤◌, length, map, slice_get, slice_index, IfOk};
ghost use Rattle.std.specs.List.{range_with_len, zip};
ghost use Rattle.steer_base.specs.Counters.{number};
ghost use Rattle.backlog.specs.Puts.{after_put, after_take, next_waiting, put_answer, put_count};
ghost use Rattle.hop_core.specs.LaneTable.{lane_at, new_lanes, with_lane};
ghost use Rattle.hop_core.specs.Left.{left_of};
ghost use Rattle.hop_model.specs.declared.shape.TheConstants.{MAX_HOP_ROOM};

use crate::left::LeftLane;
use backlog::Lane;
use std::alloc::Global;
use std::marker::Model;
use steer_base::{CpuMask, LaneDrop, List, OutOfMemory, PacketId, Put, number_at};

/// The lanes of a hop, of one limit and one room.
#[derive(Drop)]
pub struct Lanes {
    lanes: Vec<Lane>,
    limit: u32,
    room: u32,
    start: u32,
    limited: CpuMask,
}

impl Model for Lanes {
    ghost use Rattle.std.specs.Prelude.{◌≤◌, length, map};
    ghost use Rattle.hop_core.specs.LaneTable.{AreShaped, LaneTable};
    ghost use Rattle.hop_model.specs.declared.shape.TheConstants.{MAX_HOP_ROOM};

    ghost Value = { LaneTable };

    ghost view = { λ t. record {
      accepted = map (λ l. l.accepted) t.lanes.items;
      offers = map (λ l. l.offers) t.lanes.items;
      drops = map (λ l. l.drops) t.lanes.items;
      pulled = map (λ l. l.pulled) t.lanes.items;
      limit = t.limit;
      room = t.room;
      start = t.start;
      limited = t.limited;
    } };

    ghost invariant = { λ t. (t.room ≤ MAX_HOP_ROOM) × (length t.lanes.items ≤ 255)
        × AreShaped t.limit t.room t.start t.limited t.lanes.items };
}

impl Lanes {
    /// `count` empty lanes. Their counters begin at the number `start`; the flow limit applies to
    /// the lanes in `limited`.
    pub fn make(
        alloc: Global,
        count: u8,
        limit: u32,
        room: u32,
        start: u32,
        limited: CpuMask,
    ) -> Result<Lanes, OutOfMemory>
        requires limit { 1 ≤ limit }
        requires room { room ≤ MAX_HOP_ROOM }
        ensures { IfOk result (λ lanes. lanes ≡ new_lanes count limit room start limited) }
    {
        let mut lanes = Vec::with_capacity(alloc, count as usize)?;
        for lane in 0..count {
            lanes.push(Lane::make(alloc, limit, room, start, limited.has(lane))?)?;
        }
        Ok(Lanes {
            lanes,
            limit,
            room,
            start,
            limited,
        })
    }

    /// Offers a packet to a lane.
    pub fn put(&mut self, lane: u8, id: PacketId, hash: Option<u32>) -> Put
        requires lane { lane < length self.old.accepted }
        requires room { put_count (lane_at self.old lane) < self.old.room }
        ensures lists { self.new
            ≡ with_lane self.old lane (after_put (lane_at self.old lane) id hash) }
        ensures answer { result ≡ put_answer (lane_at self.old lane) hash }
    {
        let lane = &mut self.lanes[lane as usize];
        lane.put(id, hash)
    }

    /// Pulls the oldest packet that waits in a lane, if there is one.
    pub fn pull(&mut self, lane: u8) -> Option<PacketId>
        requires { lane < length self.old.accepted }
        ensures lists { self.new ≡ with_lane self.old lane (after_take (lane_at self.old lane)) }
        ensures packet { result ≡ next_waiting (lane_at self.old lane) }
    {
        let lane = &mut self.lanes[lane as usize];
        lane.take()
    }

    /// The accepted packet of a lane at an index.
    pub fn accepted_at(&self, lane: u8, n: u32) -> PacketId
        requires lane { lane < length self.now.accepted }
        requires within { n < length (lane_at self.now lane).accepted }
        ensures { result ≡ slice_index (lane_at self.now lane).accepted n }
    {
        let lane = &self.lanes[lane as usize];
        lane.accepted_at(n).unwrap()
    }

    /// The packet that a lane accepted at index `n`, from 0, if it accepted more than `n`.
    pub fn get(&self, lane: u8, n: u32) -> Option<PacketId>
        requires { lane < length self.now.accepted }
        ensures { result ≡ slice_get (lane_at self.now lane).accepted n }
    {
        let lane = &self.lanes[lane as usize];
        lane.accepted_at(n)
    }

    /// The drops of a lane.
    pub fn drops(&self, lane: u8) -> &[LaneDrop]
        requires { lane < length self.now.accepted }
        ensures { result.now ≡ (lane_at self.now lane).drops }
    {
        let lane = &self.lanes[lane as usize];
        lane.drops()
    }

    /// The number of packets pulled from a lane.
    pub fn pulled(&self, lane: u8) -> u32
        requires { lane < length self.now.accepted }
        ensures { result ≡ slice_index self.now.pulled lane }
    {
        let lane = &self.lanes[lane as usize];
        lane.pulled()
    }

    /// The counter number of a lane's tail.
    pub fn tail(&self, lane: u8) -> u32
        requires { lane < length self.now.accepted }
        ensures { result ≡ number self.now.start (length (lane_at self.now lane).accepted) }
    {
        let lane = &self.lanes[lane as usize];
        lane.tail()
    }

    /// The number of lanes.
    pub fn count(&self) -> u8
        ensures { result ≡ length self.now.accepted }
    {
        self.lanes.len() as u8
    }

    /// The number at which the counters of the lanes begin.
    pub fn start(&self) -> u32
        ensures { result ≡ self.now.start }
    {
        self.start
    }

    /// The counter number of a lane at a count of packets.
    pub fn number_at(&self, count: u32) -> u32
        ensures { result ≡ number self.now.start count }
    {
        number_at(self.start, count)
    }

    /// What each lane leaves, of which these numbers of packets were delivered and retired. Copies
    /// no list; the memory is for the list of lanes.
    pub fn into_left(
        self,
        alloc: Global,
        delivered: Vec<u32>,
        retired: Vec<u32>,
    ) -> Result<Vec<LeftLane>, OutOfMemory>
        requires delivered { length delivered.items ≡ length self.accepted }
        requires retired { length retired.items ≡ length self.accepted }
        ensures { IfOk result (λ lanes. lanes.items ≡ map (λ c. left_of (lane_at self c)
            (slice_index delivered.items c) (slice_index retired.items c))
            (range_with_len 0 (length self.accepted))) }
    {
        let Lanes { lanes, .. } = self;
        left_lanes(alloc, lanes, delivered, retired)
    }
}

// What each of these lanes leaves.
fn left_lanes(
    alloc: Global,
    lanes: Vec<Lane>,
    delivered: Vec<u32>,
    retired: Vec<u32>,
) -> Result<Vec<LeftLane>, OutOfMemory>
    ensures { IfOk result (λ left. left.items ≡ map (λ lane. left_of lane.0.0 lane.0.1 lane.1)
        (zip (zip lanes.items delivered.items) retired.items)) }
{
    Ok(
        lanes
            .into_iter()
            .zip(delivered)
            .zip(retired)
            .map(|((lane, delivered), retired)| left_lane(lane, delivered, retired))
            .collect(alloc)?,
    )
}

// What a lane leaves.
fn left_lane(lane: Lane, delivered: u32, retired: u32) -> LeftLane
    ensures { result ≡ left_of lane delivered retired }
{
    let pulled = lane.pulled();
    let (accepted, drops) = lane.into_lists();
    LeftLane {
        accepted: List::from_vec(accepted),
        drops: List::from_vec(drops),
        pulled,
        delivered,
        retired,
    }
}
