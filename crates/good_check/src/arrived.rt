//! Clause 1: all packets of the capture arrived.
use crate::case::Case;
use rule_check::same_words;

impl Case<'_> {
    ghost use Rattle.std.specs.Prelude.{◌≡◌, length, true};
    ghost use Rattle.steer_model.specs.Good.Arrivals.{HasArrived};
    ghost use Rattle.good_check.specs.Cases.{IsPlain, input_of};

    /// Clause 1: whether all packets arrived, with the capture's cut and the plan's start, and
    /// there are lists for the plan's queues, processors and transmit queues.
    pub fn has_arrived(&self) -> bool
        requires plain { IsPlain self.now }
        ensures yes { result ≡ true → HasArrived (input_of self.now) self.now.h.now }
        ensures no { HasArrived (input_of self.now) self.now.h.now → result ≡ true }
    {
        let count = self.given.packet_count();
        if self.h.arrivals.len() != count as usize {
            return false;
        }
        self.h.total == count
            && same_words(self.h.cut, self.given.cut())
            && self.h.start == self.plan.start
            && self.h.taken.len() == self.plan.queues.len()
            && self.h.lanes.len() == self.plan.cpus as usize
            && self.h.tx_lanes.len() == self.plan.tx.len()
    }
}
