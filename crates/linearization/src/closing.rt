//! The end of a table: its seats are taken back one by one, without an allocation.
ghost use Rattle.std.specs.Prelude.{◌≡◌, ◌<◌, ◌∷◌, [], length, All};
ghost use Rattle.std.specs.Vec.{vec_len};
ghost use Rattle.std.specs.Slots.{slots_items, slots_len, IsFull};
ghost use Rattle.linearization.specs.Closings.{Ends};

use crate::gathered::Gathered;
use crate::hands::Hands;
use crate::passing::{Gathers, Sits};
use crate::rule::{OneOrder, StepRule};
use crate::seat::OrderedSeat;
use atomic_table::{Closed, Shared, Table};
use std::alloc::Global;

impl<S, D> Gathered<S, D> {
    /// Begins to take back the seats of a table, with none taken back yet.
    pub fn sit<K, R: StepRule<S, D, K>>(
        shared: &Shared<S, Hands<D>, K, OneOrder<R>>,
    ) -> Gathered<S, D>
        requires words { 0 < shared.now.table_id.words }
        ensures table { result.table ≡ shared.now.table_id }
        ensures none { result.seats ≡ [] }
    {
        let (_, seat) = shared.load_new_seat::<Sits<D>>(0);
        Gathered { seat }
    }

    /// Takes back one more seat, and puts it before those that were taken back earlier.
    pub fn join<K, R: StepRule<S, D, K>>(
        &mut self,
        shared: &Shared<S, Hands<D>, K, OneOrder<R>>,
        next: OrderedSeat<S, D>,
    )
        requires words { 0 < shared.now.table_id.words }
        requires table { self.old.table ≡ shared.now.table_id }
        requires next { next.table ≡ shared.now.table_id }
        ensures { self.new ≡ record self.old { seats = next ∷ self.old.seats } }
    {
        shared.join_seat::<Gathers<D>>(&mut self.seat, next.seat);
    }

    /// Closes the table after all seats were taken back, as many as it was made with.
    pub fn finish<K, R: StepRule<S, D, K>>(
        self,
        table: Table<S, Hands<D>, K, OneOrder<R>, Global>,
    ) -> Closed<S, Global>
        requires table { self.table ≡ table.shared.table_id }
        requires all { length self.seats ≡ R.seats table.shared.key }
        ensures words { (slots_len result.words ≡ table.shared.table_id.words)
            × IsFull result.words }
        ensures slots { (slots_len result.slots ≡ table.shared.table_id.slots)
            × IsFull result.slots }
        ensures ends { Ends (R.seats table.shared.key) (R.lawful table.shared.key) self.seats
            (slots_items result.words) (slots_items result.slots) }
    {
        table.close_with(self.seat)
    }
}

/// Takes back all these seats of a table.
pub fn gather<S, D, K, R: StepRule<S, D, K>>(
    shared: &Shared<S, Hands<D>, K, OneOrder<R>>,
    mut seats: Vec<OrderedSeat<S, D>>,
) -> Gathered<S, D>
    requires words { 0 < shared.now.table_id.words }
    requires table { All (λ s. s.table ≡ shared.now.table_id) seats.items }
    ensures table { result.table ≡ shared.now.table_id }
    ensures all { result.seats ≡ seats.items }
{
    let mut all = Gathered::sit(shared);
    while let Some(next) = seats.pop() {
        all.join(shared, next);
    }
    seats.destroy_empty();
    all
}

/// Closes a table with all of its seats, as many as it was made with.
pub fn close<S, D, K, R: StepRule<S, D, K>>(
    table: Table<S, Hands<D>, K, OneOrder<R>, Global>,
    seats: Vec<OrderedSeat<S, D>>,
) -> Closed<S, Global>
    requires words { 0 < table.shared.table_id.words }
    requires table { All (λ s. s.table ≡ table.shared.table_id) seats.items }
    requires all { vec_len seats ≡ R.seats table.shared.key }
    ensures words { (slots_len result.words ≡ table.shared.table_id.words)
        × IsFull result.words }
    ensures slots { (slots_len result.slots ≡ table.shared.table_id.slots)
        × IsFull result.slots }
    ensures ends { Ends (R.seats table.shared.key) (R.lawful table.shared.key) seats.items
        (slots_items result.words) (slots_items result.slots) }
{
    gather(&table.shared, seats).finish(table)
}
