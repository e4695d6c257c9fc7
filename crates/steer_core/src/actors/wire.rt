//! The step of the wire: a packet of the capture arrives.
ghost use Rattle.std.specs.Prelude.{◌≡◌, ◌<◌, length};
ghost use Rattle.steer_core.specs.Resting.{next_queue};
ghost use Rattle.steer_model.specs.Steps.Pollers.{arrival_by, arrive, route_by};
ghost use Rattle.steer_model.specs.State.Setup.{packet_hash};

use crate::actors::Actors;
use history::Arrival;
use steer_base::{Answer, Idle, PacketId, RxQueue};

impl Actors {
    /// Puts the next packet of the capture in the ring of its receive queue.
    pub(super) fn arrive(&mut self) -> Answer
        ensures state { self.new.machine ≡ (arrive self.old.machine).0 }
        ensures answer { result ≡ (arrive self.old.machine).1 }
        ensures setup { self.new.machine.setup ≡ self.old.machine.setup }
        ensures rooms { self.new.rooms ≡ self.old.rooms }
    {
        match self.arrive_next() {
            Some(_) => Answer::Done,
            None => Answer::Idle(Idle::NothingLeft),
        }
    }

    /// Puts the next packet of the capture in the ring of its receive queue, which it returns, if
    /// there is a next one.
    pub(super) fn arrive_next(&mut self) -> Option<RxQueue>
        ensures state { self.new.machine ≡ (arrive self.old.machine).0 }
        ensures queue { result ≡ next_queue self.old.machine }
        ensures setup { self.new.machine.setup ≡ self.old.machine.setup }
        ensures rooms { self.new.rooms ≡ self.old.rooms }
    {
        let next = self.arrivals.len();
        if next >= self.given.packet_count() {
            return None;
        }
        let id = PacketId(next);
        let arrival = self.arriving(id);
        let queue = arrival.queue;
        self.rx.arrive(queue.0, id);
        self.arrivals.push(arrival);
        Some(queue)
    }

    // The queue that a packet goes to now, and the value that leads there.
    fn arriving(&self, id: PacketId) -> Arrival
        ensures { result
            ≡ arrival_by id (route_by self.now.machine (packet_hash self.now.machine.setup id)) }
    {
        let Some(hash) = self.given.hash_of(id) else {
            return Arrival {
                id,
                queue: RxQueue(0),
                filter: None,
                entry: None,
            };
        };
        match self.filters.look(hash) {
            Some(filter) => Arrival {
                id,
                queue: filter.queue,
                filter: Some(filter.queue),
                entry: None,
            },
            None => {
                let queue = self.settings.queue(Some(hash));
                Arrival {
                    id,
                    queue,
                    filter: None,
                    entry: Some(queue),
                }
            }
        }
    }
}
