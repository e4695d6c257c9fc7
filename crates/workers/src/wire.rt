//! The wire, which gives each packet to the ring of its receive queue.
ghost use Rattle.std.specs.Prelude.{◌≡◌, ℕ, ◌<◌, ◌≤◌, ◌+◌, IfSome, Some, [], length, map};
ghost use Rattle.std.specs.List.{range_with_len};
ghost use Rattle.steer_base.specs.Arrivals.{filter_place};
ghost use Rattle.steer_base.specs.Journals.{grown};
ghost use Rattle.plan_reader.specs.declared.limits.TheConstants.{MAX_PLAN_FILTERS};
ghost use Rattle.steer_model.specs.State.Setup.{packet_hash};
ghost use Rattle.run_words.specs.Numbers.{word_count};
ghost use Rattle.workers.specs.Wires.{ArePushed, Arrives, HasRings};
ghost use Rattle.run_crew.specs.Routes.{Ends, HasAnnounced};
ghost use Rattle.workers.specs.Wires.{KeepsRings};
ghost use Rattle.run_crew.specs.Routes.{LooksUpEntry, LooksUpFilter, Routes};

use hint_words::HintSeat;
use history::Arrival;
use rss_table::{RETA_ENTRIES, Reta};
use rtrb::Producer;
use run_words::{DONE, HintWord, Pace, Shared, filter_in, place_in, place_word};
use std::alloc::Global;
use steer_base::{Filter, Journal, PacketId, RxQueue, place_of_hash};

/// The wire.
#[derive(Drop)]
pub struct Wire {
    /// The rings of the receive queues, by queue, to which the packets are given by their numbers.
    pub rings: Vec<Producer<u32, Global>>,
    /// The arrivals, in their order.
    pub arrivals: Journal<Arrival>,
    /// The redirection table of the plan: an entry counts as its until a word says otherwise.
    pub reta: Reta,
}

impl Wire {
    /// Lets all packets arrive, in their order: each at the queue of the filter that its hash
    /// finds, or else of the entry of the redirection table; without a hash at queue 0. Its queue
    /// is announced in its word before it is given to the queue's ring. In the end the word is
    /// written that says that all packets have arrived.
    ///
    /// The rings have room for all packets, so the wire never waits.
    pub fn run<P: Pace>(&mut self, shared: &Shared, seat: &mut HintSeat, pace: &P, number: u32)
        requires table { seat.old.table ≡ shared.now.hints.table }
        requires words { shared.now.hints.words ≡ word_count (length shared.now.given.packets) }
        requires filters { shared.now.filters ≤ MAX_PLAN_FILTERS }
        requires queues { self.old.reta.queues ≡ length shared.now.given.homes }
        requires none { self.old.arrivals.items ≡ [] }
        requires room { length shared.now.given.packets ≤ self.old.arrivals.room }
        requires rings { HasRings shared.now.given self.old }
        requires pushed { ArePushed (length shared.now.given.packets) self.old }
        ensures all { map (λ a. a.id) self.new.arrivals.items
            ≡ range_with_len 0 (length shared.now.given.packets) }
        ensures ends { Ends shared.now.given shared.now.filters self.old.reta
            self.new.arrivals.items seat.old seat.new }
        ensures pushed { ArePushed (length shared.now.given.packets) self.new }
        ensures table { seat.new.table ≡ seat.old.table }
        ensures rings { KeepsRings self.old self.new }
        ensures reta { self.new.reta ≡ self.old.reta }
    {
        for id in 0..shared.given.packet_count() {
            pace.turn(number, id as u64 + 1);
            self.arrive(shared, seat, PacketId(id));
        }
        shared.hints.store(seat, HintWord::Done.number(), DONE);
    }

    // Lets the next packet arrive.
    fn arrive(&mut self, shared: &Shared, seat: &mut HintSeat, id: PacketId)
        requires table { seat.old.table ≡ shared.now.hints.table }
        requires words { shared.now.hints.words ≡ word_count (length shared.now.given.packets) }
        requires filters { shared.now.filters ≤ MAX_PLAN_FILTERS }
        requires queues { self.old.reta.queues ≡ length shared.now.given.homes }
        requires id { id < length shared.now.given.packets }
        requires next { id ≡ length self.old.arrivals.items }
        requires room { length shared.now.given.packets ≤ self.old.arrivals.room }
        requires rings { HasRings shared.now.given self.old }
        requires pushed { ArePushed (length shared.now.given.packets) self.old }
        ensures arrives { Arrives shared.now.given shared.now.filters id self.old self.new
            seat.old seat.new }
        ensures table { seat.new.table ≡ seat.old.table }
        ensures pushed { ArePushed (length shared.now.given.packets) self.new }
        ensures rings { KeepsRings self.old self.new }
    {
        shared.given.ranges();
        let arrival = self.route(shared, seat, id);
        let word = HintWord::Queue(id).number();
        shared.hints.store(seat, word, place_word(arrival.queue.0));
        self.give(shared, seat, arrival);
    }

    // Gives an arrival to the ring of its queue, once the queue is announced.
    fn give(&mut self, shared: &Shared, seat: &HintSeat, arrival: Arrival)
        requires announced { HasAnnounced arrival seat.now.steps }
        requires queue { arrival.queue < length shared.now.given.homes }
        requires next { arrival.id ≡ length self.old.arrivals.items }
        requires known { arrival.id < length shared.now.given.packets }
        requires room { length shared.now.given.packets ≤ self.old.arrivals.room }
        requires rings { HasRings shared.now.given self.old }
        requires pushed { ArePushed (length shared.now.given.packets) self.old }
        ensures noted { self.new.arrivals ≡ grown self.old.arrivals arrival }
        ensures pushed { ArePushed (length shared.now.given.packets) self.new }
        ensures rings { KeepsRings self.old self.new }
        ensures reta { self.new.reta ≡ self.old.reta }
    {
        self.rings[arrival.queue.0 as usize].push_reserved(arrival.id.0);
        self.arrivals.push(arrival);
    }

    // How a packet comes to its queue, by the words that are loaded for it.
    fn route(&self, shared: &Shared, seat: &mut HintSeat, id: PacketId) -> Arrival
        requires table { seat.old.table ≡ shared.now.hints.table }
        requires words { shared.now.hints.words ≡ word_count (length shared.now.given.packets) }
        requires filters { shared.now.filters ≤ MAX_PLAN_FILTERS }
        requires queues { self.now.reta.queues ≡ length shared.now.given.homes }
        ensures id { result.id ≡ id }
        ensures within { result.queue < length shared.now.given.homes }
        ensures routes { Routes shared.now.given shared.now.filters self.now.reta
            (packet_hash shared.now.given id) result seat.old seat.new }
        ensures table { seat.new.table ≡ seat.old.table }
    {
        shared.given.ranges();
        let Some(hash) = shared.given.hash_of(id) else {
            let queue = RxQueue(0);
            return Arrival {
                id,
                queue,
                filter: None,
                entry: None,
            };
        };
        if let Some(filter) = look_up_filter(shared, seat, hash) {
            let queue = filter.queue;
            return Arrival {
                id,
                queue,
                filter: Some(queue),
                entry: None,
            };
        }
        let queue = self.look_up_entry(shared, seat, hash);
        Arrival {
            id,
            queue,
            filter: None,
            entry: Some(queue),
        }
    }

    // The queue of a hash by the redirection table: that of the entry's word, or else the plan's.
    fn look_up_entry(&self, shared: &Shared, seat: &mut HintSeat, hash: u32) -> RxQueue
        requires table { seat.old.table ≡ shared.now.hints.table }
        requires words { shared.now.hints.words ≡ word_count (length shared.now.given.packets) }
        requires queues { self.now.reta.queues ≡ length shared.now.given.homes }
        ensures within { result < length shared.now.given.homes }
        ensures looks { LooksUpEntry shared.now.given self.now.reta hash result
            seat.old seat.new }
        ensures table { seat.new.table ≡ seat.old.table }
    {
        let entry = (hash % RETA_ENTRIES as u32) as u8;
        let word = shared
            .hints
            .load(seat, HintWord::Redirection(entry).number());
        match place_in(word, shared.given.queues()) {
            Some(queue) => RxQueue(queue),
            None => self.reta.queue(Some(hash)),
        }
    }
}

// The filter that a hash finds, if the card has filters and the word of its place says one.
fn look_up_filter(shared: &Shared, seat: &mut HintSeat, hash: u32) -> Option<Filter>
    requires table { seat.old.table ≡ shared.now.hints.table }
    requires words { shared.now.hints.words ≡ word_count (length shared.now.given.packets) }
    requires filters { shared.now.filters ≤ MAX_PLAN_FILTERS }
    ensures within { IfSome result (λ f. f.queue < length shared.now.given.homes) }
    ensures looks { LooksUpFilter shared.now.given (filter_place shared.now.filters (Some hash))
        seat.old seat.new result }
    ensures table { seat.new.table ≡ seat.old.table }
{
    let place = place_of_hash(Some(hash), shared.filters)?;
    let word = shared.hints.load(seat, HintWord::Filter(place).number());
    filter_in(word, shared.given.queues(), shared.given.cpus())
}
