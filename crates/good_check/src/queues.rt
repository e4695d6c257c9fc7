//! Clause 2: each arrival is at the queue of values of the run.
ghost use Rattle.std.specs.Prelude.{ℕ, ◌≡◌, Some, None, true};
ghost use Rattle.steer_base.specs.Arrivals.{route};
ghost use Rattle.steer_base.specs.Filters.{home_queue};
ghost use Rattle.history.specs.Regular.{route_of};
ghost use Rattle.rule_check.specs.Pairs.{has_pair};
ghost use Rattle.good_check.specs.Queues.{filter_is_in};

use crate::case::Case;
use crate::positions::position_in;
use history::Arrival;
use rule_check::PairSet;
use std::alloc::Global;
use steer_base::{Chosen, Cpu, List, OutOfMemory, RxQueue, place_of_hash};

// Whether a queue is there, and is this one.
fn is_queue(found: Option<RxQueue>, queue: RxQueue) -> bool
    ensures yes { result ≡ true → found ≡ Some queue }
    ensures no { found ≡ Some queue → result ≡ true }
{
    match found {
        None => false,
        Some(other) => other == queue,
    }
}

// Whether an arrival is at queue 0, without a filter and an entry.
fn is_unhashed(arrival: &Arrival) -> bool
    ensures yes { result ≡ true → route_of arrival.now ≡ route None None 0 }
    ensures no { route_of arrival.now ≡ route None None 0 → result ≡ true }
{
    arrival.queue.0 == 0 && arrival.filter.is_none() && arrival.entry.is_none()
}

// Whether an arrival is at the queue of an entry.
fn is_by_entry(arrival: &Arrival, queue: RxQueue) -> bool
    ensures yes { result ≡ true → (hash : ℕ)
        → route_of arrival.now ≡ route (Some hash) None queue }
    ensures no { (hash : ℕ) → route_of arrival.now ≡ route (Some hash) None queue
        → result ≡ true }
{
    arrival.queue == queue && arrival.filter.is_none() && is_queue(arrival.entry, queue)
}

// Whether an arrival is at the queue of a filter that it saw.
fn is_by_filter(arrival: &Arrival, queue: RxQueue) -> bool
    ensures yes { result ≡ true → (hash : ℕ)
        → route_of arrival.now ≡ route (Some hash) (Some queue) 0 }
    ensures no { (hash : ℕ) → route_of arrival.now ≡ route (Some hash) (Some queue) 0
        → result ≡ true }
{
    arrival.queue == queue && is_queue(arrival.filter, queue) && arrival.entry.is_none()
}

// Whether a set of filters has one at a place, if there is a place, that sends to a queue.
fn filter_is_in(set: &PairSet, place: Option<u32>, queue: RxQueue) -> bool
    ensures { result ≡ filter_is_in (has_pair set.now) place queue }
{
    match place {
        None => false,
        Some(place) => set.has(place, queue.0),
    }
}

// The lowest queue whose home is a processor.
fn home_queue(homes: &[Cpu], cpu: Cpu) -> Option<usize>
    ensures { result ≡ home_queue homes.now cpu }
{
    homes.iter().position(|home| *home == cpu)
}

impl Case<'_> {
    ghost use Rattle.std.specs.Prelude.{ℕ, ◌≡◌, ◌||◌, IfOk, OnOk, Some, is_some, true};
    ghost use Rattle.std.specs.List.{All, list_any};
    ghost use Rattle.rule_check.specs.Pairs.{has_pair};
    ghost use Rattle.steer_model.specs.Good.Arrivals.{QueuesAreSeen};
    ghost use Rattle.steer_model.specs.State.Setup.{packet_hash};
    ghost use Rattle.good_check.specs.Cases.{IsPlain, input_of};
    ghost use Rattle.good_check.specs.Choices.{rx_position};
    ghost use Rattle.good_check.specs.Queues.{IsSeenIn, asks_for, is_asked_for};

    // Whether the processor of a choice accepted its packet.
    fn accepts(&self, chosen: &Chosen) -> bool
        requires plain { IsPlain self.now }
        ensures { result ≡ is_some (rx_position self.now.h.now chosen.now) }
    {
        position_in(
            self.h.start,
            self.known.lanes.get(chosen.id),
            self.known.accepted.get(chosen.id),
            chosen.choice.lane,
        )
        .is_some()
    }

    // Notes the filter that a choice asks for, if it does.
    fn note_filter(&self, set: &mut PairSet, chosen: &Chosen) -> Result<(), OutOfMemory>
        requires plain { IsPlain self.now }
        ensures { OnOk result ((n m : ℕ) → has_pair set.new n m ≡ (has_pair set.old n m
            || asks_for self.now.given.now self.now.h.now self.now.plan.now.filters n m
            chosen.now)) }
    {
        if !chosen.choice.why.moved() || !self.accepts(chosen) {
            return Ok(());
        }
        let Some(queue) = home_queue(self.given.homes(), Cpu(chosen.choice.lane)) else {
            return Ok(());
        };
        let Some(place) = place_of_hash(self.given.hash_of(chosen.id), self.plan.filters) else {
            return Ok(());
        };
        set.add(place, queue as u8)
    }

    // Notes the filters that the choices of a queue ask for.
    fn note_filters(&self, set: &mut PairSet, choices: &List<Chosen>) -> Result<(), OutOfMemory>
        requires plain { IsPlain self.now }
        ensures { OnOk result ((n m : ℕ) → has_pair set.new n m ≡ (has_pair set.old n m
            || list_any (asks_for self.now.given.now self.now.h.now self.now.plan.now.filters n m)
            choices.now)) }
    {
        for chosen in choices.as_slice() {
            self.note_filter(set, chosen)?;
        }
        Ok(())
    }

    // The filters that all choices ask for, each by its place and its queue.
    fn filters(&self, alloc: Global) -> Result<PairSet, OutOfMemory>
        requires plain { IsPlain self.now }
        ensures { IfOk result (λ set. (n m : ℕ) → has_pair set n m
            ≡ is_asked_for self.now.given.now self.now.h.now self.now.plan.now.filters n m
            self.now.h.now.choices) }
    {
        let mut set = PairSet::make(alloc, self.plan.filters as usize)?;
        for choices in self.h.choices.as_slice() {
            self.note_filters(&mut set, choices)?;
        }
        Ok(set)
    }

    // Whether an arrival with a hash is at the queue of the table's entry, or at that of a filter
    // of a set.
    fn is_led(&self, set: &PairSet, hash: u32, arrival: &Arrival) -> bool
        ensures yes { result ≡ true → IsSeenIn (has_pair set.now) self.now.settings.now.reta.entries
            self.now.plan.now.filters (Some hash) arrival.now }
        ensures no { IsSeenIn (has_pair set.now) self.now.settings.now.reta.entries
            self.now.plan.now.filters (Some hash) arrival.now → result ≡ true }
    {
        if is_by_entry(arrival, self.settings.queue(Some(hash))) {
            return true;
        }
        if !is_by_filter(arrival, arrival.queue) {
            return false;
        }
        filter_is_in(
            set,
            place_of_hash(Some(hash), self.plan.filters),
            arrival.queue,
        )
    }

    // Whether an arrival is at the queue of values of the run.
    fn is_seen(&self, set: &PairSet, arrival: &Arrival) -> bool
        ensures yes { result ≡ true → IsSeenIn (has_pair set.now) self.now.settings.now.reta.entries
            self.now.plan.now.filters (packet_hash self.now.given.now arrival.now.id) arrival.now }
        ensures no { IsSeenIn (has_pair set.now) self.now.settings.now.reta.entries
            self.now.plan.now.filters (packet_hash self.now.given.now arrival.now.id) arrival.now
            → result ≡ true }
    {
        match self.given.hash_of(arrival.id) {
            None => is_unhashed(arrival),
            Some(hash) => self.is_led(set, hash, arrival),
        }
    }

    // Whether all arrivals are.
    fn are_seen(&self, set: &PairSet) -> bool
        ensures yes { result ≡ true → All (λ a. IsSeenIn (has_pair set.now)
            self.now.settings.now.reta.entries self.now.plan.now.filters
            (packet_hash self.now.given.now a.id) a) self.now.h.now.arrivals }
        ensures no { All (λ a. IsSeenIn (has_pair set.now) self.now.settings.now.reta.entries
            self.now.plan.now.filters (packet_hash self.now.given.now a.id) a)
            self.now.h.now.arrivals → result ≡ true }
    {
        for arrival in self.h.arrivals.as_slice() {
            if !self.is_seen(set, arrival) {
                return false;
            }
        }
        true
    }

    /// Clause 2: whether each arrival is at the queue of the values that it keeps, and these are
    /// values of the run.
    ///
    /// # Errors
    ///
    /// `OutOfMemory`, and nothing else.
    pub fn has_queues(&self, alloc: Global) -> Result<bool, OutOfMemory>
        requires plain { IsPlain self.now }
        ensures yes { IfOk result (λ r. r ≡ true
            → QueuesAreSeen (input_of self.now) self.now.h.now) }
        ensures no { IfOk result (λ r. QueuesAreSeen (input_of self.now) self.now.h.now
            → r ≡ true) }
    {
        let set = self.filters(alloc)?;
        Ok(self.are_seen(&set))
    }
}
