//! Creating the seats of a new table.
ghost use Rattle.std.specs.Prelude.{◌≡◌, ◌<◌, [], IfOk, All};
ghost use Rattle.std.specs.Vec.{vec_len};
ghost use Rattle.linearization.specs.Views.{all_hands};
ghost use Rattle.linearization.specs.Seats.{new_seats};

use crate::hands::Hands;
use crate::passing::Deals;
use crate::rule::{OneOrder, StepRule};
use crate::seat::OrderedSeat;
use atomic_table::{Seat, Shared};
use std::alloc::{AllocError, Global};

/// Creates the `seats` seats of a table on which no step was made, numbered from 0. `main` is the
/// seat that came with the table. The only error is out of memory.
pub fn deal<S, D, K, R: StepRule<S, D, K>>(
    alloc: Global,
    shared: &Shared<S, Hands<D>, K, OneOrder<R>>,
    mut main: Seat<S, Hands<D>>,
    seats: u32,
) -> Result<Vec<OrderedSeat<S, D>>, AllocError>
    requires words { 0 < shared.now.table_id.words }
    requires table { main.table_id ≡ shared.now.table_id }
    requires all { main.me ≡ (all_hands seats, []) }
    ensures given { IfOk result (λ v. v.items ≡ new_seats shared.now.table_id 0 seats) }
    ensures table { IfOk result (λ v. All (λ s. s.table ≡ shared.now.table_id) v.items) }
    ensures all { IfOk result (λ v. vec_len v ≡ seats) }
{
    let mut given = Vec::with_capacity(alloc, seats as usize)?;
    for _ in 0..seats {
        let seat = shared.split_seat::<Deals<D>>(&mut main);
        given.push_reserved(OrderedSeat { seat });
    }
    Ok(given)
}
