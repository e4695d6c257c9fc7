//! The notes of threads beside the lists that their board left.
use crate::notes::{Notes, Offer};
use board_api::BoardLists;
use history::LaneList;
use steer_base::{LaneDrop, Put};

/// The number that the counters of the lanes show at no packet.
pub const START: u32 = 4_294_967_295;

/// Each packet that was accepted stands at the position of its answer, and each that was dropped at
/// its number among the drops, with the counts and the cause that the answer told.
pub fn offers_stand(notes: &Notes, lists: &BoardLists) -> bool {
    for offer in notes.offers.as_slice() {
        let Some(lane) = lists.lanes.as_slice().get(offer.lane as usize) else {
            return false;
        };
        if !offer_stands(offer, lane) {
            return false;
        }
    }
    true
}

fn offer_stands(offer: &Offer, lane: &LaneList) -> bool {
    match offer.answer {
        Put::At(tail) => {
            let index = tail.wrapping_sub(START).wrapping_sub(1);
            lane.accepted.as_slice().get(index as usize) == Some(&offer.id)
        }
        Put::Dropped {
            number,
            accepted,
            pulled,
            cause,
        } => {
            let fallen = LaneDrop {
                id: offer.id,
                accepted,
                pulled,
                cause,
            };
            lane.drops.as_slice().get(number.wrapping_sub(1) as usize) == Some(&fallen)
        }
    }
}

/// How many packets the threads put to a lane that were accepted, and that were dropped.
pub fn put_to(notes: &[Notes], lane: u8) -> (usize, usize) {
    let mut counts = (0usize, 0usize);
    for own in notes {
        let (accepted, dropped) = put_by(own, lane);
        counts = (
            counts.0.wrapping_add(accepted),
            counts.1.wrapping_add(dropped),
        );
    }
    counts
}

fn put_by(notes: &Notes, lane: u8) -> (usize, usize) {
    let (mut accepted, mut dropped) = (0usize, 0usize);
    for offer in notes.offers.as_slice() {
        if offer.lane == lane {
            match offer.answer {
                Put::At(_) => accepted = accepted.wrapping_add(1),
                Put::Dropped { .. } => dropped = dropped.wrapping_add(1),
            }
        }
    }
    (accepted, dropped)
}

/// How many packets the threads delivered to an out lane.
pub fn given_to(notes: &[Notes], out: u8) -> usize {
    let mut count = 0usize;
    for own in notes {
        count = count.wrapping_add(given_by(own, out));
    }
    count
}

fn given_by(notes: &Notes, out: u8) -> usize {
    let mut count = 0usize;
    for gift in notes.gifts.as_slice() {
        if gift.out == out {
            count = count.wrapping_add(1);
        }
    }
    count
}

/// Each packet that was delivered stands at its place.
pub fn gifts_stand(notes: &Notes, lists: &BoardLists) -> bool {
    for gift in notes.gifts.as_slice() {
        let Some(out) = lists.outs.as_slice().get(gift.out as usize) else {
            return false;
        };
        let index = gift.place.wrapping_sub(1) as usize;
        if out.as_slice().get(index) != Some(&gift.id) {
            return false;
        }
    }
    true
}

/// The n-th packet of a lane that the thread delivered is the n-th that the lane accepted, and as
/// many were pulled and retired.
pub fn lane_was_served(notes: &Notes, number: u8, lane: &LaneList) -> bool {
    let mut served = 0usize;
    for gift in notes.gifts.as_slice() {
        if gift.lane == number {
            if lane.accepted.as_slice().get(served) != Some(&gift.id) {
                return false;
            }
            served = served.wrapping_add(1);
        }
    }
    let counts = (
        lane.pulled as usize,
        lane.delivered as usize,
        lane.retired as usize,
    );
    counts == (served, served, served)
}

/// The settings that a thread read never fall, and none is above the last that was made.
pub fn settings_rise(notes: &Notes, last: u64) -> bool {
    let mut before = 0;
    for reading in notes.readings.as_slice() {
        if reading.setting < before || reading.setting > last {
            return false;
        }
        before = reading.setting;
    }
    true
}

/// The heads of a lane that a thread read never fall, and count no more than was retired.
pub fn heads_rise(notes: &Notes, number: u8, lane: &LaneList) -> bool {
    let mut before = 0;
    for reading in notes.readings.as_slice() {
        if reading.lane == number {
            let count = reading.head.wrapping_sub(START);
            if count < before || count > lane.retired {
                return false;
            }
            before = count;
        }
    }
    true
}
