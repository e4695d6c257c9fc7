//! Which events may be asked of a hop.
ghost use Rattle.std.specs.Prelude.{◌≡◌, ℕ, ◌<◌, ◌≢◌, false, IsTrue, length, slice_index};
ghost use Rattle.steer_base.specs.Sets.{has};
ghost use Rattle.hop_model.specs.Events.{IsClassBelow, IsEmptied, MayAsk};
ghost use Rattle.hop_model.specs.Hop.{arrivals_of};

use crate::hop::Hop;
use hop_model::HopEvent;
use steer_base::{CpuMask, MAX_FLOW_COUNT, PacketId};

impl Hop {
    /// Whether `step` may be asked for an event now. For an arrival this takes time in the number
    /// of packets that arrived, for other events in the number of lanes.
    pub fn may_ask(&self, e: HopEvent) -> bool
        ensures may { IsTrue result → MayAsk self.now e }
        ensures must { MayAsk self.now e → IsTrue result }
    {
        let producers = self.rings.taken.len();
        let actors = self.gate.visits.len();
        let lanes = self.lanes.count();
        match e {
            HopEvent::Arrive { p, id } => {
                (p as usize) < producers && id.0 < self.rings.arrivals.room() && self.is_new(id)
            }
            HopEvent::Take { p } | HopEvent::Put { p, .. } => (p as usize) < producers,
            HopEvent::Enter { p } | HopEvent::Leave { p } => (p as usize) < actors,
            HopEvent::Weigh {
                p,
                class,
                desired,
                online,
                ..
            } => {
                (p as usize) < producers
                    && desired < lanes
                    && self.has_class(p, class)
                    && online.has(desired)
                    && self.is_empty_but(online)
            }
            HopEvent::Pull { lane } | HopEvent::Retire { lane } => lane < lanes,
            HopEvent::Deliver { lane, to } => lane < lanes && (to as usize) < self.outs.count(),
            HopEvent::Resize { p, count } => {
                (p as usize) < producers
                    && count <= MAX_FLOW_COUNT
                    && !self.tables.is_exact()
                    && self.gate.closed
                    && self.is_empty()
            }
            HopEvent::Close => !self.gate.closed,
            HopEvent::Reopen => self.gate.closed,
        }
    }

    // Whether the packet has not arrived yet.
    fn is_new(&self, id: PacketId) -> bool
        ensures new { IsTrue result → (q i : ℕ) → i < length (arrivals_of self.now q)
            → slice_index (arrivals_of self.now q) i ≢ id }
        ensures known { ((q i : ℕ) → i < length (arrivals_of self.now q)
            → slice_index (arrivals_of self.now q) i ≢ id) → IsTrue result }
    {
        for p in 0..self.rings.taken.len() {
            for n in 0..self.rings.arrivals.len_of(p as u8) {
                if self.rings.arrivals.get(p as u8, n) == id {
                    return false;
                }
            }
        }
        true
    }

    // Whether each lane that is offline is empty.
    fn is_empty_but(&self, online: CpuMask) -> bool
        ensures empty { IsTrue result → (c : ℕ) → c < length self.now.bare.accepted
            → has online c ≡ false → IsEmptied self.now.bare c }
        ensures waiting { ((c : ℕ) → c < length self.now.bare.accepted
            → has online c ≡ false → IsEmptied self.now.bare c) → IsTrue result }
    {
        for lane in 0..self.lanes.count() {
            let (head, tail) = (self.head(lane), self.tail(lane));
            if !online.has(lane) && head != tail {
                return false;
            }
        }
        true
    }

    // Whether each lane is empty.
    fn is_empty(&self) -> bool
        ensures empty { IsTrue result → (c : ℕ) → c < length self.now.bare.accepted
            → IsEmptied self.now.bare c }
        ensures waiting { ((c : ℕ) → c < length self.now.bare.accepted
            → IsEmptied self.now.bare c) → IsTrue result }
    {
        for lane in 0..self.lanes.count() {
            let (head, tail) = (self.head(lane), self.tail(lane));
            if head != tail {
                return false;
            }
        }
        true
    }

    // Whether the class, if there is one, is one of the producer's.
    fn has_class(&self, p: u8, class: Option<u32>) -> bool
        requires { p < length self.now.arrivals }
        ensures below { IsTrue result → IsClassBelow (slice_index self.now.counts p) class }
        ensures above { IsClassBelow (slice_index self.now.counts p) class → IsTrue result }
    {
        match class {
            Some(class) => class < self.counts[p as usize],
            None => true,
        }
    }
}
