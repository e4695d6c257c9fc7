//! Reads of a hop's state.
ghost use Rattle.std.specs.Prelude.{◌≡◌, ◌↔◌, ℕ, ◌-◌, ◌<◌, IsOk, length, slice_get, slice_index};
ghost use Rattle.steer_base.specs.Choices.{class_of};
ghost use Rattle.hop_model.specs.Emptied.{AreEmptied, emptied};
ghost use Rattle.hop_model.specs.Hop.{accepted_at, arrivals_of, choices_of, delivered_at};
ghost use Rattle.hop_model.specs.Hop.{drops_at, head_at, inside_of};
ghost use Rattle.hop_model.specs.Hop.{out_at, placed_of, pulled_at, retired_at, tail_at, taken_of};
ghost use Rattle.hop_model.specs.Reads.{last_choice, to_deliver, to_put, to_weigh};

use crate::hop::Hop;
use steer_base::{Busy, Chosen, CpuMask, LaneDrop, PacketId};

impl Hop {
    /// Checks that each of these lanes is empty. Otherwise returns the first one that is not, with
    /// the numbers of its head and tail.
    pub fn emptied(&self, lanes: CpuMask) -> Result<(), Busy>
        ensures answer { result ≡ emptied self.now lanes }
        ensures ok { IsOk result ↔ AreEmptied self.now lanes }
    {
        for lane in 0..self.lanes.count() {
            let (head, tail) = (self.head(lane), self.tail(lane));
            if lanes.has(lane) && head != tail {
                return Err(Busy::NotEmpty { lane, head, tail });
            }
        }
        Ok(())
    }

    /// The counter number of a lane's head.
    pub fn head(&self, lane: u8) -> u32
        requires { lane < length self.now.bare.accepted }
        ensures { result ≡ head_at self.now.fixed.start self.now.bare lane }
    {
        self.lanes.number_at(self.hands.retired[lane as usize])
    }

    /// The counter number of a lane's tail.
    pub fn tail(&self, lane: u8) -> u32
        requires { lane < length self.now.bare.accepted }
        ensures { result ≡ tail_at self.now.fixed.start self.now.bare lane }
    {
        self.lanes.tail(lane)
    }

    /// The number of packets pulled from a lane.
    pub fn pulled(&self, lane: u8) -> u32
        requires { lane < length self.now.bare.accepted }
        ensures { result ≡ pulled_at self.now.bare lane }
    {
        self.lanes.pulled(lane)
    }

    /// The number of packets that a lane delivered.
    pub fn delivered(&self, lane: u8) -> u32
        requires { lane < length self.now.bare.accepted }
        ensures { result ≡ delivered_at self.now.bare lane }
    {
        self.hands.delivered[lane as usize]
    }

    /// The number of packets that a lane accepted and has not retired.
    pub fn unretired(&self, lane: u8) -> u32
        requires { lane < length self.now.bare.accepted }
        ensures { result ≡ length (accepted_at self.now.bare lane) - retired_at self.now.bare lane }
    {
        let head = self.lanes.number_at(self.hands.retired[lane as usize]);
        self.lanes.tail(lane).wrapping_sub(head)
    }

    /// The number of packets that a lane retired.
    pub fn retired(&self, lane: u8) -> u32
        requires { lane < length self.now.bare.accepted }
        ensures { result ≡ retired_at self.now.bare lane }
    {
        self.hands.retired[lane as usize]
    }

    /// The packet in a lane's hand that is delivered next, if there is one.
    pub fn to_deliver(&self, lane: u8) -> Option<PacketId>
        requires { lane < length self.now.bare.accepted }
        ensures { result ≡ to_deliver self.now.bare lane }
    {
        let delivered = self.hands.delivered[lane as usize];
        if delivered < self.lanes.pulled(lane) {
            Some(self.lanes.accepted_at(lane, delivered))
        } else {
            None
        }
    }

    /// The number of packets that a lane accepted.
    pub fn accepted_len(&self, lane: u8) -> u32
        requires { lane < length self.now.bare.accepted }
        ensures { result ≡ length (accepted_at self.now.bare lane) }
    {
        let none = self.lanes.number_at(0);
        self.lanes.tail(lane).wrapping_sub(none)
    }

    /// The packet that a lane accepted at index `n`, from 0, if it accepted more than `n`.
    pub fn accepted_at(&self, lane: u8, n: u32) -> Option<PacketId>
        requires { lane < length self.now.bare.accepted }
        ensures { result ≡ slice_get (accepted_at self.now.bare lane) n }
    {
        self.lanes.get(lane, n)
    }

    /// The packets that a lane dropped, oldest first, each with the counts and the cause of its
    /// drop.
    pub fn drops(&self, lane: u8) -> &[LaneDrop]
        requires { lane < length self.now.bare.accepted }
        ensures { result.now ≡ drops_at self.now.bare lane }
    {
        self.lanes.drops(lane)
    }

    /// The packets that were delivered to an out lane, oldest first.
    pub fn out(&self, to: u8) -> &[PacketId]
        requires { to < length self.now.bare.outs }
        ensures { result.now ≡ out_at self.now.bare to }
    {
        self.outs.list(to)
    }

    /// The number of actors inside the gate.
    pub fn inside(&self) -> u32
        ensures { result ≡ self.now.bare.inside }
    {
        self.gate.inside
    }

    /// Whether an actor is inside the gate.
    pub fn is_inside(&self, a: u8) -> bool
        requires { a < length self.now.visits }
        ensures { result ≡ inside_of self.now a }
    {
        self.gate.visits[a as usize]
    }

    /// Whether the gate is closed.
    pub fn is_closed(&self) -> bool
        ensures { result ≡ self.now.bare.closed }
    {
        self.gate.closed
    }

    /// The class of a hash among those of a producer.
    pub fn class(&self, p: u8, hash: Option<u32>) -> Option<u32>
        requires { p < length self.now.arrivals }
        ensures { result ≡ class_of (slice_index self.now.counts p) hash }
    {
        self.tables.class(p, hash)
    }

    /// The number of packets that arrived in a producer's ring.
    pub fn arrivals_len(&self, p: u8) -> u32
        requires { p < length self.now.arrivals }
        ensures { result ≡ length (arrivals_of self.now p) }
    {
        self.rings.arrivals.len_of(p)
    }

    /// The number of packets that a producer has taken.
    pub fn taken(&self, p: u8) -> u32
        requires { p < length self.now.arrivals }
        ensures { result ≡ taken_of self.now p }
    {
        self.rings.taken[p as usize]
    }

    /// The packet that a producer has taken and weighs next, if there is one.
    pub fn to_weigh(&self, p: u8) -> Option<PacketId>
        requires { p < length self.now.arrivals }
        ensures { result ≡ to_weigh self.now p }
    {
        let count = self.rings.choices.len_of(p);
        if count < self.rings.taken[p as usize] {
            Some(self.rings.arrivals.get(p, count))
        } else {
            None
        }
    }

    /// The number of a producer's choices that were put.
    pub fn placed(&self, p: u8) -> u32
        requires { p < length self.now.arrivals }
        ensures { result ≡ placed_of self.now p }
    {
        self.rings.placed[p as usize]
    }

    /// The choice that a producer puts next, if there is one.
    pub fn to_put(&self, p: u8) -> Option<Chosen>
        requires { p < length self.now.arrivals }
        ensures { result ≡ to_put self.now p }
    {
        let placed = self.rings.placed[p as usize];
        if placed < self.rings.choices.len_of(p) {
            Some(self.rings.choices.get(p, placed))
        } else {
            None
        }
    }

    /// The choices of a producer, oldest first.
    pub fn choices(&self, p: u8) -> &[Chosen]
        requires { p < length self.now.arrivals }
        ensures { result.now ≡ choices_of self.now p }
    {
        self.rings.choices.list(p)
    }

    /// The last choice of a producer, if it made one.
    pub fn last_choice(&self, p: u8) -> Option<Chosen>
        requires { p < length self.now.arrivals }
        ensures { result ≡ last_choice self.now p }
    {
        let count = self.rings.choices.len_of(p);
        if count == 0 {
            None
        } else {
            Some(self.rings.choices.get(p, count - 1))
        }
    }
}
