//! Where packets are, in histories written by hand.
ghost use Rattle.std.specs.Prelude.{◌≤◌, length};
ghost use Rattle.history.specs.Places.{IsInReach};

use crate::equal::same;
use crate::histories::{full, lane, lanes, moved, none, one, received};
use history::{History, Place};
use std::process::Abort;
use steer_base::{AppId, Cpu, PacketId};

// A history with few lanes has each packet in reach.
fn is_in_reach(h: &History, id: PacketId)
    requires lanes { length h.now.lanes ≤ 256 }
    requires inboxes { length h.now.inboxes ≤ 256 }
    ensures { IsInReach h.now id }
{}

fn has_place(rt: &impl Abort, h: &History, id: u32, place: Place) {
    assert!(rt; h.lanes.len() <= 256 && h.inboxes.len() <= 256);
    assert!(rt; h.has_arrived(PacketId(id)));
    is_in_reach(h, PacketId(id));
    same(rt, &h.place(PacketId(id)), &place, id as usize);
}

// Each packet has its place, the first one that of number 0.
fn has_places(rt: &impl Abort, h: History, places: &[Place]) {
    for (place, id) in places.iter().zip(0u32..) {
        has_place(rt, &h, id, *place);
    }
}

#[test]
fn packets_are_in_hand_dropped_and_waiting(rt: HostRuntime) {
    let places = [
        Place::Hand(Cpu(1)),
        Place::Dropped(Cpu(1)),
        Place::Backlog(Cpu(1)),
    ];
    has_places(&rt, full(&rt, rt.alloc()), &places);
}

#[test]
fn delivered_packets_are_in_the_inbox(rt: HostRuntime) {
    let places = [
        Place::Inbox(AppId(0)),
        Place::Inbox(AppId(0)),
        Place::Inbox(AppId(0)),
        Place::Backlog(Cpu(2)),
    ];
    has_places(&rt, moved(&rt, rt.alloc(), 0), &places);
}

#[test]
fn the_poller_takes_the_first_of_its_queue(rt: HostRuntime) {
    let alloc = rt.alloc();
    let mut h = received(&rt, alloc, &[0, 1, 0], &[], none(alloc), &[]);
    h.taken = one(&rt, alloc, 1);
    has_places(&rt, h, &[Place::Poller, Place::Ring, Place::Ring]);
}

#[test]
fn the_least_processor_is_shown(rt: HostRuntime) {
    let alloc = rt.alloc();
    let lanes = lanes(
        &rt,
        alloc,
        3,
        lane(&rt, alloc, &[0], 0),
        lane(&rt, alloc, &[0], 0),
    );
    let h = received(&rt, alloc, &[0], &[], lanes, &[]);
    has_places(&rt, h, &[Place::Backlog(Cpu(1))]);
}
