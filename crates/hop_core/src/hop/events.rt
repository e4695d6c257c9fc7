//! The events of a hop, each as a call of its own. [`Hop::step`] makes any of them.
ghost use Rattle.std.specs.Prelude.{◌≡◌, ◌<◌, false, length};
ghost use Rattle.steer_base.specs.Counters.{rounded_up};
ghost use Rattle.hop_model.specs.Events.{MayArrive, MayDeliver, MayResize, MayWeigh};
ghost use Rattle.hop_model.specs.Events.{close, deliver, enter, leave, pull, put, retire, take};
ghost use Rattle.hop_model.specs.Events.{weigh};
ghost use Rattle.hop_model.specs.Hop.{arrived, resized, with_bare, with_closed};
ghost use Rattle.hop_model.specs.declared.event.HopAnswer.TheVariants as answer;

use crate::hop::Hop;
use hop_model::HopAnswer;
use steer_base::{Chosen, CpuMask, Idle, PacketId, round_up};

impl Hop {
    /// A packet arrives in a producer's ring.
    pub fn arrive(&mut self, p: u8, id: PacketId) -> HopAnswer
        requires { MayArrive self.old p id }
        ensures state { self.new ≡ arrived self.old p id }
        ensures answer { result ≡ answer.Done }
    {
        self.rings.arrivals.push(p, id);
        HopAnswer::Done
    }

    /// A producer takes the oldest packet of its ring in hand.
    pub fn take(&mut self, p: u8) -> HopAnswer
        requires producer { p < length self.old.arrivals }
        ensures state { self.new ≡ (take self.old p).0 }
        ensures answer { result ≡ (take self.old p).1 }
    {
        let taken = self.rings.taken[p as usize];
        if self.rings.placed[p as usize] < taken {
            return HopAnswer::Idle(Idle::HandFull);
        }
        if taken < self.rings.arrivals.len_of(p) {
            self.rings.taken[p as usize] = taken + 1;
            HopAnswer::Took(self.rings.arrivals.get(p, taken))
        } else {
            HopAnswer::Idle(Idle::RingEmpty)
        }
    }

    /// An actor enters the gate, unless it is closed.
    pub fn enter(&mut self, a: u8) -> HopAnswer
        requires actor { a < length self.old.visits }
        ensures state { self.new ≡ (enter self.old a).0 }
        ensures answer { result ≡ (enter self.old a).1 }
    {
        if self.gate.visits[a as usize] {
            return HopAnswer::Idle(Idle::AlreadyInside);
        }
        if self.gate.closed {
            return HopAnswer::Closed;
        }
        self.gate.visits[a as usize] = true;
        self.gate.inside += 1;
        HopAnswer::Done
    }

    /// An actor leaves the gate. A producer stays inside until its choice is put.
    pub fn leave(&mut self, a: u8) -> HopAnswer
        requires actor { a < length self.old.visits }
        ensures state { self.new ≡ (leave self.old a).0 }
        ensures answer { result ≡ (leave self.old a).1 }
    {
        if !self.gate.visits[a as usize] {
            return HopAnswer::Idle(Idle::NotInside);
        }
        if (a as usize) < self.rings.placed.len()
            && self.rings.placed[a as usize] < self.rings.choices.len_of(a)
        {
            return HopAnswer::Idle(Idle::MidPacket);
        }
        self.gate.visits[a as usize] = false;
        self.gate.inside -= 1;
        HopAnswer::Done
    }

    /// A producer, inside, chooses the lane of the packet in hand by the migration rule.
    #[inline(always)]
    pub fn weigh(
        &mut self,
        p: u8,
        class: Option<u32>,
        want: Option<u8>,
        desired: u8,
        online: CpuMask,
    ) -> HopAnswer
        requires { MayWeigh self.old p class desired online }
        ensures state { self.new ≡ (weigh self.old p class want desired online).0 }
        ensures answer { result ≡ (weigh self.old p class want desired online).1 }
    {
        if !self.gate.visits[p as usize] {
            return HopAnswer::Idle(Idle::NotInside);
        }
        let Some(id) = self.to_weigh(p) else {
            return HopAnswer::Idle(Idle::WrongStage);
        };
        let choice = self
            .tables
            .choose(&self.hands.retired, p, class, want, desired, online);
        self.rings.choices.push(p, Chosen { id, choice });
        HopAnswer::Chose(choice)
    }

    /// A producer, inside, puts the packet in hand to the lane of its choice.
    #[inline(always)]
    pub fn put(&mut self, p: u8, hash: Option<u32>) -> HopAnswer
        requires producer { p < length self.old.arrivals }
        ensures state { self.new ≡ (put self.old p hash).0 }
        ensures answer { result ≡ (put self.old p hash).1 }
    {
        let inside = self.gate.visits[p as usize];
        if !inside {
            return HopAnswer::Idle(Idle::NotInside);
        }
        let placed = self.rings.placed[p as usize];
        let Some(chosen) = self.to_put(p) else {
            return HopAnswer::Idle(Idle::WrongStage);
        };
        let went = self.lanes.put(chosen.choice.lane, chosen.id, hash);
        self.rings.placed[p as usize] = placed + 1;
        self.tables.note(p, chosen.choice.class, went);
        HopAnswer::Went(went)
    }

    /// The server of a lane pulls the oldest packet that waits there.
    pub fn pull(&mut self, lane: u8) -> HopAnswer
        requires lane { lane < length self.old.bare.accepted }
        ensures state { self.new ≡ (pull self.old lane).0 }
        ensures answer { result ≡ (pull self.old lane).1 }
    {
        if self.hands.retired[lane as usize] < self.lanes.pulled(lane) {
            return HopAnswer::Idle(Idle::HandFull);
        }
        match self.lanes.pull(lane) {
            Some(id) => HopAnswer::Took(id),
            None => HopAnswer::Idle(Idle::NothingWaiting),
        }
    }

    /// The server of a lane delivers the packet in its hand to an out lane.
    pub fn deliver(&mut self, lane: u8, to: u8) -> HopAnswer
        requires { MayDeliver self.old lane to }
        ensures state { self.new ≡ (deliver self.old lane to).0 }
        ensures answer { result ≡ (deliver self.old lane to).1 }
    {
        let delivered = self.hands.delivered[lane as usize];
        if delivered < self.lanes.pulled(lane) {
            let id = self.lanes.accepted_at(lane, delivered);
            let place = self.outs.len_of(to) + 1;
            self.outs.push(to, id);
            self.hands.delivered[lane as usize] = delivered + 1;
            HopAnswer::Position(place)
        } else if self.hands.retired[lane as usize] < delivered {
            HopAnswer::Idle(Idle::AlreadyDelivered)
        } else {
            HopAnswer::Idle(Idle::HandEmpty)
        }
    }

    /// The server of a lane retires the packet that it delivered: the head rises.
    pub fn retire(&mut self, lane: u8) -> HopAnswer
        requires lane { lane < length self.old.bare.accepted }
        ensures state { self.new ≡ (retire self.old lane).0 }
        ensures answer { result ≡ (retire self.old lane).1 }
    {
        let retired = self.hands.retired[lane as usize];
        if retired < self.hands.delivered[lane as usize] {
            self.hands.retired[lane as usize] = retired + 1;
            HopAnswer::Done
        } else if self.hands.delivered[lane as usize] < self.lanes.pulled(lane) {
            HopAnswer::Idle(Idle::NotDelivered)
        } else {
            HopAnswer::Idle(Idle::HandEmpty)
        }
    }

    /// A producer's classes become `count`, rounded up, and all of them are cleared.
    pub fn resize(&mut self, p: u8, count: u32) -> HopAnswer
        requires { MayResize self.old p count }
        ensures state { self.new ≡ resized self.old p (rounded_up count) }
        ensures answer { result ≡ answer.Done }
    {
        self.tables.resize(p, count);
        self.counts[p as usize] = round_up(count);
        self.rings.since[p as usize] = self.rings.choices.len_of(p);
        HopAnswer::Done
    }

    /// The gate is closed, if no actor is inside.
    pub fn close(&mut self) -> HopAnswer
        requires { self.old.bare.closed ≡ false }
        ensures state { self.new ≡ (close self.old).0 }
        ensures answer { result ≡ (close self.old).1 }
    {
        if self.gate.inside == 0 {
            self.gate.closed = true;
            HopAnswer::Done
        } else {
            HopAnswer::Inside(self.gate.inside)
        }
    }

    /// The gate is opened again.
    pub fn reopen(&mut self) -> HopAnswer
        ensures state { self.new ≡ with_bare self.old (with_closed self.old.bare false) }
        ensures answer { result ≡ answer.Done }
    {
        self.gate.closed = false;
        HopAnswer::Done
    }
}
