//! The step of a socket: an application records its processor for a flow.
ghost use Rattle.std.specs.Prelude.{◌≡◌, ◌<◌, length};
ghost use Rattle.steer_core.specs.Rooms.{HasSpare};
ghost use Rattle.steer_model.specs.State.Setup.{flow_number_of};
ghost use Rattle.steer_model.specs.Steps.Applications.{record_flow, record_hash, visited, wrote};

use crate::actors::Actors;
use history::SockWrite;
use steer_base::{Answer, Idle, PacketId, app_of};

impl Actors {
    /// Records the processor of the application of a flow in the socket flow table.
    pub(super) fn record(&mut self, flow: u32) -> Answer
        requires { HasSpare self.old.rooms self.old.machine }
        ensures state { self.new.machine ≡ (record_flow self.old.machine flow).0 }
        ensures answer { result ≡ (record_flow self.old.machine flow).1 }
        ensures setup { self.new.machine.setup ≡ self.old.machine.setup }
        ensures rooms { self.new.rooms ≡ self.old.rooms }
    {
        let Some(hash) = self.given.flow_hash(flow) else {
            return Answer::Idle(Idle::NoFlow);
        };
        let Some(hash) = hash else {
            return Answer::Idle(Idle::NoHash);
        };
        self.record_hash(hash)
    }

    /// Records the processor of the application of a packet's flow. A packet of the capture has the
    /// hash of its flow, so this is not looked up.
    pub(super) fn record_of(&mut self, id: PacketId)
        requires { HasSpare self.old.rooms self.old.machine }
        ensures state { self.new.machine
            ≡ (record_flow self.old.machine (flow_number_of self.old.machine.setup id)).0 }
        ensures setup { self.new.machine.setup ≡ self.old.machine.setup }
        ensures rooms { self.new.rooms ≡ self.old.rooms }
    {
        self.sound();
        if id.0 >= self.given.packet_count() {
            let flow = self.given.flow_of(id);
            self.record(flow);
        } else if let Some(hash) = self.given.hash_of(id) {
            self.record_hash(hash);
        }
    }

    // The application of a hash goes through the receive gate and records its processor.
    #[inline(always)]
    fn record_hash(&mut self, hash: u32) -> Answer
        requires { HasSpare self.old.rooms self.old.machine }
        ensures state { self.new.machine ≡ (record_hash self.old.machine hash).0 }
        ensures answer { result ≡ (record_hash self.old.machine hash).1 }
        ensures setup { self.new.machine.setup ≡ self.old.machine.setup }
        ensures rooms { self.new.rooms ≡ self.old.rooms }
    {
        if self.settings.sock() == 0 {
            return Answer::Idle(Idle::NoTable);
        }
        let a = app_of(Some(hash), self.given.apps()).0;
        self.visit(a);
        self.write(a, hash);
        Answer::Done
    }

    // An application goes through the receive gate and out again.
    fn visit(&mut self, a: u8)
        requires { a < self.old.machine.setup.apps }
        ensures state { self.new.machine ≡ visited self.old.machine a }
        ensures rooms { self.new.rooms ≡ self.old.rooms }
    {
        let guest = self.given.queues() + a;
        self.rx.enter(guest);
        self.rx.leave(guest);
    }

    // An application writes its processor to the entry of a hash.
    fn write(&mut self, a: u8, hash: u32)
        requires app { a < self.old.machine.setup.apps }
        requires some { 0 < length self.old.machine.socket }
        requires room { HasSpare self.old.rooms self.old.machine }
        ensures state { self.new.machine ≡ wrote self.old.machine a hash }
        ensures rooms { self.new.rooms ≡ self.old.rooms }
    {
        let cpu = self.settings.stand(a);
        let entry = hash % self.settings.sock();
        self.socket.note(hash, cpu);
        self.writes.push(a, SockWrite { entry, cpu });
    }
}
