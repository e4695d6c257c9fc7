//! The test of each item of a history's lists, over what the lists tell of each packet.
ghost use Rattle.std.specs.Prelude.{◌≡◌, ◌≤◌, ◌==◌, ◌&&◌, length, map};
ghost use Rattle.std.specs.List.{range_with_len};
ghost use Rattle.history.specs.Known.{IsKnown};
ghost use Rattle.history_check.specs.Tests.{are_delivered, are_shipped, are_steered, each};
ghost use Rattle.history_check.specs.Tests.{is_accepted, is_delivered, is_fallen, is_queued};
ghost use Rattle.history_check.specs.Tests.{is_shipped};

use crate::slots::{drop_is, is_place, lane_is};
use history::{History, Known, LaneList};
use steer_base::{LaneDrop, Packet, PacketId, app_of};

/// A history with its slots, for the packets of a capture and `apps` applications.
#[derive(Drop)]
pub(crate) struct ItemTest<'a> {
    pub(crate) h: &'a History,
    pub(crate) known: &'a Known,
    pub(crate) packets: &'a [Packet],
    pub(crate) apps: u8,
    ghost is_known: { IsKnown h.now known.now },
    ghost are_numbered: { map (λ a. a.id) h.now.arrivals
        ≡ range_with_len 0 (length h.now.arrivals) },
    ghost of_the_capture: { length h.now.arrivals ≤ length packets.now },
    ghost has_apps: { 1 ≤ apps },
}

impl ItemTest<'_> {
    // Whether a processor accepted the packet as that of an index.
    fn is_accepted(&self, cpu: usize, index: usize, id: PacketId) -> bool
        ensures { result ≡ is_accepted self.now.h.now cpu index id }
    {
        (id.0 as usize) < self.h.arrivals.len()
            && lane_is(self.known.lanes.get(id), cpu)
            && is_place(self.known.accepted.get(id), index)
            && self.known.drops.get(id).is_none()
    }

    // Whether it dropped the packet as that of an index.
    fn is_fallen(&self, cpu: usize, index: usize, id: PacketId) -> bool
        ensures { result ≡ is_fallen self.now.h.now cpu index id }
    {
        (id.0 as usize) < self.h.arrivals.len()
            && lane_is(self.known.lanes.get(id), cpu)
            && drop_is(self.known.drops.get(id), index)
    }

    fn are_accepted(&self, cpu: usize, accepted: &[PacketId]) -> bool
        ensures { result ≡ each (is_accepted self.now.h.now cpu) accepted.now }
    {
        accepted
            .iter()
            .enumerate()
            .all(|(i, id)| self.is_accepted(cpu, i, *id))
    }

    fn are_fallen(&self, cpu: usize, drops: &[LaneDrop]) -> bool
        ensures { result ≡ each (λ i d. is_fallen self.now.h.now cpu i d.id) drops.now }
    {
        drops
            .iter()
            .enumerate()
            .all(|(i, fallen)| self.is_fallen(cpu, i, fallen.id))
    }

    fn is_steered(&self, cpu: usize, lane: &LaneList) -> bool
        ensures { result
            ≡ each (is_accepted self.now.h.now cpu) lane.now.accepted
            && each (λ i d. is_fallen self.now.h.now cpu i d.id) lane.now.drops }
    {
        self.are_accepted(cpu, lane.accepted.as_slice())
            && self.are_fallen(cpu, lane.drops.as_slice())
    }

    pub(crate) fn are_steered(&self) -> bool
        ensures { result ≡ are_steered self.now.h.now }
    {
        self.h
            .lanes
            .as_slice()
            .iter()
            .enumerate()
            .all(|(cpu, lane)| self.is_steered(cpu, lane))
    }

    // Whether the inbox of an application has the packet as that of an index.
    fn is_delivered(&self, app: usize, index: usize, id: PacketId) -> bool
        ensures { result
            ≡ is_delivered self.now.packets.now self.now.apps self.now.h.now app index id }
    {
        let at = id.0 as usize;
        at < self.h.arrivals.len()
            && is_place(self.known.inboxes.get(id), index)
            && app_of(self.packets[at].hash, self.apps).0 as usize == app
            && self.known.accepted.get(id).is_some()
    }

    fn has_inbox(&self, app: usize, inbox: &[PacketId]) -> bool
        ensures { result
            ≡ each (is_delivered self.now.packets.now self.now.apps self.now.h.now app) inbox.now }
    {
        inbox
            .iter()
            .enumerate()
            .all(|(i, id)| self.is_delivered(app, i, *id))
    }

    pub(crate) fn are_delivered(&self) -> bool
        ensures { result ≡ are_delivered self.now.packets.now self.now.apps self.now.h.now }
    {
        self.h
            .inboxes
            .as_slice()
            .iter()
            .enumerate()
            .all(|(app, inbox)| self.has_inbox(app, inbox.as_slice()))
    }

    // Whether a transmit queue accepted the packet as that of an index.
    fn is_queued(&self, tx: usize, index: usize, id: PacketId) -> bool
        ensures { result ≡ is_queued self.now.h.now tx index id }
    {
        (id.0 as usize) < self.h.arrivals.len()
            && lane_is(self.known.tx_lanes.get(id), tx)
            && is_place(self.known.tx_accepted.get(id), index)
    }

    fn are_queued(&self, tx: usize, accepted: &[PacketId]) -> bool
        ensures { result ≡ each (is_queued self.now.h.now tx) accepted.now }
    {
        accepted
            .iter()
            .enumerate()
            .all(|(i, id)| self.is_queued(tx, i, *id))
    }

    fn has_queue(&self, tx: usize, lane: &LaneList) -> bool
        ensures { result
            ≡ (length lane.now.drops == 0) && each (is_queued self.now.h.now tx) lane.now.accepted }
    {
        lane.drops.len() == 0 && self.are_queued(tx, lane.accepted.as_slice())
    }

    fn have_queues(&self) -> bool
        ensures { result
            ≡ each
            (λ t lane. (length lane.drops == 0)
            && each (is_queued self.now.h.now t) lane.accepted) self.now.h.now.tx_lanes }
    {
        self.h
            .tx_lanes
            .as_slice()
            .iter()
            .enumerate()
            .all(|(tx, lane)| self.has_queue(tx, lane))
    }

    // Whether the port has the packet as that of an index.
    fn is_shipped(&self, index: usize, id: PacketId) -> bool
        ensures { result ≡ is_shipped self.now.h.now index id }
    {
        (id.0 as usize) < self.h.arrivals.len()
            && is_place(self.known.port.get(id), index)
            && self.known.tx_accepted.get(id).is_some()
    }

    fn have_left(&self, port: &[PacketId]) -> bool
        ensures { result ≡ each (is_shipped self.now.h.now) port.now }
    {
        port.iter()
            .enumerate()
            .all(|(i, id)| self.is_shipped(i, *id))
    }

    pub(crate) fn are_shipped(&self) -> bool
        ensures { result ≡ are_shipped self.now.h.now }
    {
        self.have_queues() && self.have_left(self.h.port.as_slice())
    }
}
