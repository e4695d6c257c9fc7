//! Clause 3: the choices of each receive queue are by the rule.
ghost use Rattle.std.specs.Prelude.{◌≡◌, ◌<◌, None, length, slice_index_or};
ghost use Rattle.steer_base.specs.declared.choice.Chosen.{Chosen as AChosen};
ghost use Rattle.good_check.specs.Choices.{rx_position};
ghost use Rattle.good_check.specs.Positions.{position_in};

use crate::case::Case;
use crate::positions::position_in;
use dev_flow_table::DevTable;
use history::{History, Known};
use rule_check::{Producer, Question, are_by_rule};
use std::alloc::Global;
use steer_base::{Chosen, CpuMask, OutOfMemory, place_of_hash};
use steer_model::{Given, InForce, desired_cpu};

/// A receive queue of a history, as the producer of its choices.
#[derive(Drop)]
pub(crate) struct Poller<'a> {
    given: &'a Given,
    settings: &'a InForce,
    h: &'a History,
    known: &'a Known,
    q: u8,
    ghost has_home: { q < length given.now.homes },
    ghost has_mask: { q < length settings.now.masks },
    ghost has_count: { q < length settings.now.counts },
    ghost are_known: { (c : AChosen) → position_in h.now.start
        (slice_index_or known.now.lanes c.id None) (slice_index_or known.now.accepted c.id None)
        c.choice.lane ≡ rx_position h.now c },
}

impl<'a> Producer for Poller<'a> {
    ghost use Rattle.good_check.specs.Choices.{rx_questions};

    ghost questions = { λ p. rx_questions p.given.now p.settings.now p.h.now p.q };

    fn question(&self, chosen: Chosen) -> Question {
        let hash = self.given.hash_of(chosen.id);
        let class = place_of_hash(hash, self.settings.flow_count(self.q));
        let plain = self.settings.plain_lane(self.given, self.q, chosen.id);
        let want = chosen.choice.want;
        Question {
            class,
            want,
            desired: desired_cpu(class, want, self.settings.online(), plain.0),
            position: position_in(
                self.h.start,
                self.known.lanes.get(chosen.id),
                self.known.accepted.get(chosen.id),
                chosen.choice.lane,
            ),
        }
    }

    fn online(&self) -> CpuMask {
        self.settings.online()
    }
}

impl Case<'_> {
    ghost use Rattle.std.specs.Prelude.{ℕ, ◌≡◌, ◌<◌, IfOk, true};
    ghost use Rattle.dev_flow_table.specs.Tables.{cleared};
    ghost use Rattle.history.specs.Lists.{list_at};
    ghost use Rattle.rule_check.specs.Turns.{AreByTurns};
    ghost use Rattle.steer_model.specs.Good.Choices.{ChoicesAreByRule};
    ghost use Rattle.steer_model.specs.Good.GoodHistory.{never};
    ghost use Rattle.good_check.specs.Cases.{IsPlain, input_of};
    ghost use Rattle.good_check.specs.Choices.{HasChosen, rx_questions};

    // Whether a queue has a choice for each packet that was taken, each by the rule.
    fn has_chosen(&self, alloc: Global, q: u8) -> Result<bool, OutOfMemory>
        requires plain { IsPlain self.now }
        requires queue { q < length self.now.plan.now.queues }
        requires queues { length self.now.h.now.taken ≡ length self.now.plan.now.queues }
        ensures yes { IfOk result (λ r. r ≡ true
            → HasChosen self.now.given.now self.now.settings.now self.now.h.now q) }
        ensures no { IfOk result (λ r.
            HasChosen self.now.given.now self.now.settings.now self.now.h.now q → r ≡ true) }
    {
        let choices = self.h.choices.get(usize::from(q)).as_slice();
        if choices.len() != *self.h.taken.get(usize::from(q)) as usize {
            return Ok(false);
        }
        let flows = self.plan.queues.get(usize::from(q)).flows;
        let mut table = DevTable::make(alloc, flows, self.h.start)?;
        let poller = Poller {
            given: self.given,
            settings: self.settings,
            h: self.h,
            known: self.known,
            q,
        };
        Ok(are_by_rule(&mut table, choices, &poller))
    }

    /// Clause 3: whether each receive queue has a choice for each packet that was taken, in their
    /// order, each by the migration rule with the want and the head that it keeps.
    ///
    /// # Errors
    ///
    /// `OutOfMemory`, and nothing else.
    pub fn has_choices(&self, alloc: Global) -> Result<bool, OutOfMemory>
        requires plain { IsPlain self.now }
        requires queues { length self.now.h.now.taken ≡ length self.now.plan.now.queues }
        ensures yes { IfOk result (λ r. r ≡ true
            → ChoicesAreByRule (input_of self.now) self.now.h.now never) }
        ensures no { IfOk result (λ r. ChoicesAreByRule (input_of self.now) self.now.h.now never
            → r ≡ true) }
    {
        for q in 0..self.given.queues() {
            if !self.has_chosen(alloc, q)? {
                return Ok(false);
            }
        }
        Ok(true)
    }
}
