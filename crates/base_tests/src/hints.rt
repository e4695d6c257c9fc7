//! Seats that take turns, seats of two threads, and hints without words.
ghost use Rattle.std.specs.Prelude.{◌≡◌, ◌<◌, ◌≤◌};
ghost use Rattle.std.specs.Vec.{vec_len, vec_capacity};

use crate::equal::same;
use hint_words::{HintSeat, Hints};
use std::thread::join;

#[test]
fn each_seat_finds_the_last_write(rt: HostRuntime) {
    let Ok((hints, mut seats)) = Hints::make(rt.alloc(), 2, 2) else {
        panic!(rt; "no memory")
    };
    let (Some(mut one), Some(mut zero)) = (seats.pop(), seats.pop()) else {
        panic!(rt; "fewer than two seats")
    };
    same(&rt, &hints.load(&mut zero, 0), &0, 0);
    hints.store(&mut zero, 0, 5);
    same(&rt, &hints.load(&mut one, 0), &5, 1);
    same(&rt, &hints.load(&mut one, 1), &0, 2);
    assert!(rt; !hints.clear_if(&mut one, 0, 4));
    same(&rt, &hints.load(&mut one, 0), &5, 3);
    assert!(rt; hints.clear_if(&mut one, 0, 5));
    same(&rt, &hints.load(&mut zero, 0), &0, 4);
    same(&rt, &hints.load(&mut zero, 1), &0, 5);
    close_two(hints, seats, zero, one);
}

#[test]
fn hints_may_have_no_word(rt: HostRuntime) {
    let Ok((hints, seats)) = Hints::make(rt.alloc(), 0, 3) else {
        panic!(rt; "no memory")
    };
    same(&rt, &seats.len(), &3, 0);
    hints.close_hints(seats);
}

const ROUNDS: usize = 1000;

// What one thread stored at its own word, and what it loaded from the other's.
#[derive(Drop)]
struct Kept {
    stored: [u64; ROUNDS],
    loaded: [u64; ROUNDS],
}

#[test]
fn threads_load_what_was_stored(rt: HostRuntime) {
    let Ok((hints, mut seats)) = Hints::make(rt.alloc(), 2, 2) else {
        panic!(rt; "no memory")
    };
    let (Some(one), Some(zero)) = (seats.pop(), seats.pop()) else {
        panic!(rt; "fewer than two seats")
    };
    let ((zero, first), (one, second)) = join(
        &rt,
        || -> (HintSeat, Kept)
            requires { (zero.table ≡ hints.table) × (hints.words ≡ 2) }
            ensures { result.0.table ≡ hints.table }
        { play(&hints, zero, 0, 1) },
        || -> (HintSeat, Kept)
            requires { (one.table ≡ hints.table) × (hints.words ≡ 2) }
            ensures { result.0.table ≡ hints.table }
        { play(&hints, one, 1, 0) },
    );
    close_two(hints, seats, zero, one);
    for value in first.loaded {
        assert!(rt; value == 0 || second.stored.contains(&value));
    }
    for value in second.loaded {
        assert!(rt; value == 0 || first.stored.contains(&value));
    }
}

// Stores a thousand numbers at the own word, which no other seat stores, and loads the other as
// often.
fn play(hints: &Hints, mut seat: HintSeat, own: u32, other: u32) -> (HintSeat, Kept)
    requires table { seat.table ≡ hints.now.table }
    requires own { own < hints.now.words }
    requires other { other < hints.now.words }
    ensures { result.0.table ≡ hints.now.table }
{
    let mut stored = [0; ROUNDS];
    let mut loaded = [0; ROUNDS];
    for round in 0..ROUNDS {
        let value = 2 * round as u64 + 2 + own as u64;
        hints.store(&mut seat, own, value);
        stored[round] = value;
        loaded[round] = hints.load(&mut seat, other);
    }
    (seat, Kept { stored, loaded })
}

// Gives the seats back to a list that had them.
fn close_two(hints: Hints, mut seats: Vec<HintSeat>, zero: HintSeat, one: HintSeat)
    requires empty { vec_len seats ≡ 0 }
    requires room { 2 ≤ vec_capacity seats }
    requires zero { zero.table ≡ hints.table }
    requires one { one.table ≡ hints.table }
    requires all { hints.seats ≡ 2 }
{
    seats.push_reserved(zero);
    seats.push_reserved(one);
    hints.close_hints(seats);
}
