//! Whether the applications of a history replied to the packets of their inboxes.
ghost use Rattle.std.specs.Prelude.{◌≡◌, ◌<◌, length, map};
ghost use Rattle.std.specs.List.{list_all};
ghost use Rattle.history_check.specs.Tests.{begins, has_replies, have_replies, is_from_queue};
ghost use Rattle.history_check.specs.Tests.{is_of_flow};

use crate::item_test::ItemTest;
use crate::slots::is_number;
use history::Sent;
use steer_base::{Chosen, PacketId};

// Whether replies are to the first packets of an inbox.
fn are_to_first(sent: &[Sent], inbox: &[PacketId]) -> bool
    ensures { result ≡ begins (map (λ s. s.id) sent.now) inbox.now }
{
    for (i, reply) in sent.iter().enumerate() {
        if i >= inbox.len() || reply.id != inbox[i] {
            return false;
        }
    }
    true
}

// Whether transmit choices are of the first replies.
fn are_for_first(choices: &[Chosen], sent: &[Sent]) -> bool
    ensures { result ≡ begins (map (λ c. c.id) choices.now) (map (λ s. s.id) sent.now) }
{
    for (i, chosen) in choices.iter().enumerate() {
        if i >= sent.len() || chosen.id != sent[i].id {
            return false;
        }
    }
    true
}

impl ItemTest<'_> {
    // Whether a reply has the queue of the arrival of its packet.
    fn is_from_queue(&self, sent: &Sent) -> bool
        ensures { result ≡ is_from_queue self.now.h.now sent.now }
    {
        let at = sent.id.0 as usize;
        at < self.h.arrivals.len() && self.h.arrivals.get(at).queue == sent.rxq
    }

    // Whether a transmit choice has the flow number of its packet as class, and a want.
    fn is_of_flow(&self, chosen: &Chosen) -> bool
        ensures { result ≡ is_of_flow self.now.packets.now self.now.h.now chosen.now }
    {
        let at = chosen.id.0 as usize;
        at < self.h.arrivals.len()
            && is_number(chosen.choice.class, self.packets[at].flow_number as usize)
            && chosen.choice.want.is_some()
    }

    fn are_from_queues(&self, sent: &[Sent]) -> bool
        ensures { result ≡ list_all (is_from_queue self.now.h.now) sent.now }
    {
        sent.iter().all(|reply| self.is_from_queue(reply))
    }

    fn are_of_flows(&self, choices: &[Chosen]) -> bool
        ensures { result ≡ list_all (is_of_flow self.now.packets.now self.now.h.now) choices.now }
    {
        choices.iter().all(|chosen| self.is_of_flow(chosen))
    }

    fn has_replies(&self, app: usize) -> bool
        requires inbox { app < length self.now.h.now.inboxes }
        requires sent { app < length self.now.h.now.sent }
        requires choices { app < length self.now.h.now.tx_choices }
        ensures { result ≡ has_replies self.now.packets.now self.now.h.now app }
    {
        let sent = self.h.sent.get(app).as_slice();
        let choices = self.h.tx_choices.get(app).as_slice();
        are_to_first(sent, self.h.inboxes.get(app).as_slice())
            && self.are_from_queues(sent)
            && are_for_first(choices, sent)
            && self.are_of_flows(choices)
    }

    pub(crate) fn have_replies(&self) -> bool
        requires inbox { length self.now.h.now.inboxes ≡ self.now.apps }
        requires sent { length self.now.h.now.sent ≡ self.now.apps }
        requires choices { length self.now.h.now.tx_choices ≡ self.now.apps }
        ensures { result ≡ have_replies self.now.packets.now self.now.apps self.now.h.now }
    {
        for app in 0..self.apps as usize {
            if !self.has_replies(app) {
                return false;
            }
        }
        true
    }
}
