//! Seats that are dealt out and taken back.
ghost use Rattle.std.specs.Prelude.{◌≡◌, [], ◌∷◌, IfOk};
ghost use Rattle.linearization.specs.Views.{all_hands};

use crate::equal::same;
use atomic_table::{Seat, Table};
use linearization::{Gathered, Hands, OneOrder, StepRule, close, deal};
use std::alloc::{AllocError, Global};

// One word, which stays 7. The table is told how many seats there are.
struct Still;

impl StepRule<(), u64, u64> for Still {
    ghost seats = { λ count. count };

    ghost lawful = { λ count order words homes. words ≡ 7 ∷ [] };
}

type StillTable = Table<(), Hands<u64>, u64, OneOrder<Still>, Global>;

fn made(alloc: Global) -> Result<(StillTable, Seat<(), Hands<u64>>), AllocError>
    ensures words { IfOk result (λ t. t.0.shared.table_id.words ≡ 1) }
    ensures slots { IfOk result (λ t. t.0.shared.table_id.slots ≡ 0) }
    ensures seats { IfOk result (λ t. t.0.shared.key ≡ 3) }
    ensures table { IfOk result (λ t. t.1.table_id ≡ t.0.shared.table_id) }
    ensures all { IfOk result (λ t. t.1.me ≡ (all_hands 3, [])) }
{
    Table::of_words(alloc, &[7], &3)
}

#[test]
fn a_table_closes_with_the_seats_that_were_dealt(rt: HostRuntime) {
    let Ok((table, main)) = made(rt.alloc()) else {
        panic!(rt; "no memory")
    };
    let Ok(seats) = deal(rt.alloc(), &table.shared, main, 3) else {
        panic!(rt; "no memory")
    };
    same(&rt, &seats.len(), &3, 0);
    let closed = close(table, seats);
    same(&rt, &closed.word(0), &7, 1);
    closed.free();
}

#[test]
fn seats_are_taken_back_one_by_one(rt: HostRuntime) {
    let Ok((table, main)) = made(rt.alloc()) else {
        panic!(rt; "no memory")
    };
    let Ok(mut seats) = deal(rt.alloc(), &table.shared, main, 3) else {
        panic!(rt; "no memory")
    };
    let (Some(two), Some(one), Some(zero)) = (seats.pop(), seats.pop(), seats.pop()) else {
        panic!(rt; "fewer than three seats")
    };
    let mut all = Gathered::sit(&table.shared);
    all.join(&table.shared, one);
    all.join(&table.shared, zero);
    all.join(&table.shared, two);
    let closed = all.finish(table);
    same(&rt, &closed.word(0), &7, 0);
    closed.free();
}
