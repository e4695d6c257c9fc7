//! Clause 11: the replies are by the rule, and they leave in order.
ghost use Rattle.std.specs.Prelude.{◌≡◌, ◌<◌, None, length, map, slice_index_or};
ghost use Rattle.std.specs.List.{list_all};
ghost use Rattle.steer_base.specs.declared.choice.Chosen.{Chosen as AChosen};
ghost use Rattle.history.specs.Lists.{no_arrival};
ghost use Rattle.good_check.specs.Positions.{position_in};
ghost use Rattle.good_check.specs.Replies.{is_from, reply_pick, tx_position};

use crate::case::Case;
use crate::positions::position_in;
use dev_flow_table::DevTable;
use history::{History, Known, Sent};
use rule_check::{Producer, Question, are_by_rule};
use std::alloc::Global;
use steer_base::{Chosen, Cpu, CpuMask, List, OutOfMemory, PacketId, RxQueue};
use steer_model::{Given, InForce};

/// All lanes: the transmit queues are always online.
const EVERYONE: CpuMask = CpuMask(0xffff_ffff);

/// An application of a history, as the producer of its transmit choices.
#[derive(Drop)]
pub(crate) struct Sender<'a> {
    given: &'a Given,
    settings: &'a InForce,
    h: &'a History,
    known: &'a Known,
    queues: &'a [RxQueue],
    a: u8,
    ghost are_queues: { queues.now ≡ map (λ arrival. arrival.queue) h.now.arrivals },
    ghost has_stand: { a < length settings.now.stands },
    ghost are_known: { (c : AChosen) → position_in h.now.start
        (slice_index_or known.now.tx_lanes c.id None)
        (slice_index_or known.now.tx_accepted c.id None) c.choice.lane ≡ tx_position h.now c },
}

// The queue of a packet among those of the packets that arrived; queue 0 if it did not.
fn queue_at(queues: &[RxQueue], id: PacketId) -> RxQueue
    ensures { result ≡ slice_index_or queues.now id 0 }
{
    match queues.get(id.0 as usize) {
        Some(queue) => *queue,
        None => RxQueue(0),
    }
}

impl Sender<'_> {
    // The queue at which a packet arrived; queue 0 if it did not.
    fn queue_of(&self, id: PacketId) -> RxQueue
        ensures { result ≡ (slice_index_or self.now.h.now.arrivals id no_arrival).queue }
    {
        queue_at(self.queues, id)
    }

    // The transmit queue that the maps pick for the reply to a packet.
    fn pick(&self, id: PacketId) -> u8
        ensures { result ≡ reply_pick self.now.given.now self.now.settings.now self.now.h.now
            self.now.a id }
    {
        let cpu = self.settings.stand(self.a);
        self.settings
            .pick(self.queue_of(id), cpu, self.given.hash_of(id))
    }
}

impl<'a> Producer for Sender<'a> {
    ghost use Rattle.good_check.specs.Replies.{tx_questions};

    ghost questions = { λ p. tx_questions p.given.now p.settings.now p.h.now p.a };

    fn question(&self, chosen: Chosen) -> Question {
        let pick = self.pick(chosen.id);
        Question {
            class: Some(self.given.flow_of(chosen.id)),
            want: Some(pick),
            desired: pick,
            position: position_in(
                self.h.start,
                self.known.tx_lanes.get(chosen.id),
                self.known.tx_accepted.get(chosen.id),
                chosen.choice.lane,
            ),
        }
    }

    fn online(&self) -> CpuMask {
        EVERYONE
    }
}

// Whether all replies keep this processor.
fn are_from(cpu: Cpu, sent: &List<Sent>) -> bool
    ensures { result ≡ list_all (is_from cpu) sent.now }
{
    sent.as_slice().iter().all(|reply| reply.cpu == cpu)
}

impl Case<'_> {
    ghost use Rattle.std.specs.Prelude.{ℕ, ◌≡◌, ◌<◌, ◌≤◌, IfOk, length, map, true};
    ghost use Rattle.dev_flow_table.specs.declared.table.TheConstants.{MAX_EXACT_CLASSES};
    ghost use Rattle.steer_model.specs.Good.Deliveries.{IsSwept};
    ghost use Rattle.steer_model.specs.Good.GoodHistory.{never};
    ghost use Rattle.steer_model.specs.Good.Replies.{RepliesAreByRule};
    ghost use Rattle.steer_model.specs.State.Setup.{flow_number_of};
    ghost use Rattle.good_check.specs.Cases.{IsPlain, input_of};
    ghost use Rattle.good_check.specs.Replies.{HasReplied};

    // One more than the greatest flow number of a packet. A packet beyond the capture has 0.
    pub(crate) fn flow_classes(&self) -> u32
        requires plain { IsPlain self.now }
        ensures above { (x : ℕ) → flow_number_of self.now.given.now x < result }
        ensures few { result ≤ MAX_EXACT_CLASSES }
    {
        let mut classes = 1;
        for x in 0..self.given.packet_count() {
            classes = classes.max(self.given.flow_of(PacketId(x)) + 1);
        }
        classes
    }

    // Whether each reply of an application keeps its processor, and each choice is by the rule.
    fn has_replied(
        &self,
        alloc: Global,
        a: u8,
        flows: u32,
        queues: &[RxQueue],
    ) -> Result<bool, OutOfMemory>
        requires plain { IsPlain self.now }
        requires queues { queues.now ≡ map (λ arrival. arrival.queue) self.now.h.now.arrivals }
        requires app { a < length self.now.plan.now.apps }
        requires above { (x : ℕ) → flow_number_of self.now.given.now x < flows }
        requires few { flows ≤ MAX_EXACT_CLASSES }
        ensures yes { IfOk result (λ r. r ≡ true
            → HasReplied self.now.given.now self.now.settings.now self.now.h.now flows a) }
        ensures no { IfOk result (λ r.
            HasReplied self.now.given.now self.now.settings.now self.now.h.now flows a
            → r ≡ true) }
    {
        let cpu = self.settings.stand(a);
        if !are_from(cpu, self.h.sent.get(usize::from(a))) {
            return Ok(false);
        }
        let choices = self.h.tx_choices.get(usize::from(a)).as_slice();
        let mut table = DevTable::make_exact(alloc, flows, self.h.start)?;
        let sender = Sender {
            given: self.given,
            settings: self.settings,
            h: self.h,
            known: self.known,
            queues,
            a,
        };
        Ok(are_by_rule(&mut table, choices, &sender))
    }

    // The queue of each packet that arrived: less memory to look it up in.
    fn arrival_queues(&self, alloc: Global) -> Result<Vec<RxQueue>, OutOfMemory>
        ensures { IfOk result (λ queues.
            queues.items ≡ map (λ arrival. arrival.queue) self.now.h.now.arrivals) }
    {
        let mut queues = Vec::with_capacity(alloc, self.h.arrivals.len())?;
        for arrival in self.h.arrivals.as_slice() {
            queues.push(arrival.queue)?;
        }
        Ok(queues)
    }

    // Whether all applications have, with tables of so many classes.
    fn have_replied(&self, alloc: Global, flows: u32) -> Result<bool, OutOfMemory>
        requires plain { IsPlain self.now }
        requires above { (x : ℕ) → flow_number_of self.now.given.now x < flows }
        requires few { flows ≤ MAX_EXACT_CLASSES }
        ensures yes { IfOk result (λ r. r ≡ true → (a : ℕ) → a < length self.now.plan.now.apps
            → HasReplied self.now.given.now self.now.settings.now self.now.h.now flows a) }
        ensures no { IfOk result (λ r. ((a : ℕ) → a < length self.now.plan.now.apps
            → HasReplied self.now.given.now self.now.settings.now self.now.h.now flows a)
            → r ≡ true) }
    {
        let queues = self.arrival_queues(alloc)?;
        for a in 0..self.given.apps() {
            if !self.has_replied(alloc, a, flows, &queues)? {
                return Ok(false);
            }
        }
        Ok(true)
    }

    /// Clause 11: whether each application replied to the packets of its inbox from its processor,
    /// each reply's transmit queue is chosen by the migration rule with the head that its choice
    /// keeps, each reply is at one place, and they leave in order. Asked of a history that is
    /// swept.
    ///
    /// # Errors
    ///
    /// `OutOfMemory`, and nothing else.
    pub fn has_replies(&self, alloc: Global) -> Result<bool, OutOfMemory>
        requires plain { IsPlain self.now }
        requires swept { IsSwept self.now.h.now }
        ensures yes { IfOk result (λ r. r ≡ true
            → RepliesAreByRule (input_of self.now) self.now.h.now never) }
        ensures no { IfOk result (λ r. RepliesAreByRule (input_of self.now) self.now.h.now never
            → r ≡ true) }
    {
        if !self.have_replied(alloc, self.flow_classes())? {
            return Ok(false);
        }
        self.leaves_in_order(alloc)
    }
}
