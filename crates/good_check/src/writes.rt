//! Clause 9: the writes to the socket flow table.
use crate::case::Case;
use history::SockWrite;
use steer_base::{Cpu, PacketId, place_of_hash};

impl Case<'_> {
    ghost use Rattle.std.specs.Prelude.{◌≡◌, ◌<◌, true, length};
    ghost use Rattle.history.specs.Lists.{list_at};
    ghost use Rattle.steer_model.specs.Good.Writes.{AreWrites, WritesAreRight};
    ghost use Rattle.good_check.specs.Cases.{IsPlain, input_of};
    ghost use Rattle.good_check.specs.Writes.{writes_for};

    // Whether an application on a processor made these writes for its inbox: one for each packet
    // with a hash, in their order, and none if the table has no entries.
    fn wrote(&self, cpu: Cpu, inbox: &[PacketId], writes: &[SockWrite]) -> bool
        ensures yes { result ≡ true
            → writes.now ≡ writes_for self.now.given.now self.now.settings.now.sock cpu inbox.now }
        ensures no { writes.now
            ≡ writes_for self.now.given.now self.now.settings.now.sock cpu inbox.now
            → result ≡ true }
    {
        let mut next = 0;
        for id in inbox {
            if let Some(entry) = place_of_hash(self.given.hash_of(*id), self.settings.sock()) {
                if next >= writes.len() || writes[next] != (SockWrite { entry, cpu }) {
                    return false;
                }
                next += 1;
            }
        }
        next == writes.len()
    }

    // The same of the application with this number.
    fn has_written(&self, a: u8) -> bool
        requires plain { IsPlain self.now }
        requires app { a < length self.now.plan.now.apps }
        ensures yes { result ≡ true → AreWrites (input_of self.now) self.now.h.now a
            (list_at self.now.h.now.inboxes a) (list_at self.now.h.now.writes a) }
        ensures no { AreWrites (input_of self.now) self.now.h.now a
            (list_at self.now.h.now.inboxes a) (list_at self.now.h.now.writes a)
            → result ≡ true }
    {
        self.wrote(
            self.settings.stand(a),
            self.h.inboxes.get(a as usize).as_slice(),
            self.h.writes.get(a as usize).as_slice(),
        )
    }

    /// Clause 9: whether each application made one write for each packet of its inbox that has a
    /// hash, in their order, and none if the table has no entries.
    pub fn has_writes(&self) -> bool
        requires plain { IsPlain self.now }
        ensures yes { result ≡ true → WritesAreRight (input_of self.now) self.now.h.now }
        ensures no { WritesAreRight (input_of self.now) self.now.h.now → result ≡ true }
    {
        for a in 0..self.given.apps() {
            if !self.has_written(a) {
                return false;
            }
        }
        true
    }
}
