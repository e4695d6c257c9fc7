//! Words of lanes, heads and gates, with counters that start at 0 and that wrap.
use crate::equal::same;
use board_api::{GateWord, HeadWord, LaneWord};
use std::process::Abort;

// A lane word has these two parts.
fn shows_lane(rt: &impl Abort, word: u64, held: bool, tail: u32) {
    let shown = LaneWord(word);
    same(rt, &(shown.is_held(), shown.tail()), &(held, tail), word);
}

// A gate word has these three.
fn shows_gate(rt: &impl Abort, word: u64, visits: u32, closed: bool, openings: u32) {
    let shown = GateWord(word);
    let parts = (shown.visits(), shown.is_closed(), shown.openings());
    same(rt, &parts, &(visits, closed, openings), word);
}

// The first three are a lane of a board that starts at 0: before its hold, while it is held, and
// after a put. The others wrap: their start is the last number of 32 bits, or the one before it.
#[test]
fn a_lane_word_shows_its_holder_and_its_tail(rt: HostRuntime) {
    for (word, held, tail) in [
        (0, false, 0),
        (1, true, 0),
        (2, false, 1),
        (8_589_934_590, false, 4_294_967_295),
        (8_589_934_591, true, 4_294_967_295),
        (8_589_934_592, false, 0),
        (8_589_934_593, true, 0),
        (8_589_934_594, false, 1),
    ] {
        shows_lane(&rt, word, held, tail);
    }
}

#[test]
fn a_lane_at_rest_has_twice_its_tail(rt: HostRuntime) {
    for (start, count, word) in [
        (0, 0, 0),
        (0, 1, 2),
        (4_294_967_295, 0, 8_589_934_590),
        (4_294_967_295, 1, 8_589_934_592),
        (4_294_967_294, 3, 8_589_934_594),
        (4_294_967_295, 262_144, 8_590_458_878),
    ] {
        same(&rt, &LaneWord::resting(start, count).0, &word, word);
    }
}

#[test]
fn a_head_word_shows_its_head(rt: HostRuntime) {
    for (word, head) in [
        (0, 0),
        (1, 1),
        (4_294_967_295, 4_294_967_295),
        (4_294_967_296, 0),
        (4_294_967_297, 1),
    ] {
        same(&rt, &HeadWord(word).head(), &head, word);
    }
}

// An open gate with nobody inside, and with one visitor; a closed one, with nobody and with a
// visitor who has to step back; and the same after an opening.
#[test]
fn a_gate_word_shows_visits_closes_and_openings(rt: HostRuntime) {
    for (word, visits, closed, openings) in [
        (0, 0, false, 0),
        (1, 1, false, 0),
        (2_147_483_648, 2_147_483_648, true, 0),
        (2_147_483_649, 2_147_483_649, true, 0),
        (4_294_967_296, 0, false, 1),
        (4_294_967_298, 2, false, 1),
        (6_442_450_944, 2_147_483_648, true, 1),
        (4_294_967_296_000_000_000, 0, false, 1_000_000_000),
    ] {
        shows_gate(&rt, word, visits, closed, openings);
    }
    same(&rt, &GateWord::empty(0), &GateWord(0), 0);
    same(&rt, &GateWord::empty(1), &GateWord(4_294_967_296), 1);
}
