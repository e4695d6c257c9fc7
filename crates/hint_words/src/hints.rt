//! The words, how they are made and how they end.
ghost use Rattle.std.specs.Prelude.{◌≡◌, IfOk, All};
ghost use Rattle.std.specs.Vec.{vec_len};
ghost use Rattle.linearization.specs.Seats.{new_seats};
ghost use Rattle.hint_words.specs.Closings.{HaveEnded};
ghost use Rattle.hint_words.specs.Loads.{LoadsAreStored};

use crate::rule::LastWrites;
use crate::sizes::Sizes;
use crate::step::HintStep;
use atomic_table::Table;
use linearization::{Hands, OneOrder, OrderedSeat, close, deal};
use std::alloc::Global;
use std::marker::Model;
use steer_base::OutOfMemory;

/// The right of one thread to make steps on the words.
pub type HintSeat = OrderedSeat<(), HintStep>;

/// 64-bit words that any thread with a seat may load, store and clear. Each begins as 0.
#[derive(Drop)]
pub struct Hints {
    pub(crate) table: Table<(), Hands<HintStep>, Sizes, OneOrder<LastWrites>, Global>,
}

impl Model for Hints {
    ghost use Rattle.std.specs.Prelude.{◌≡◌, ◌+◌};
    ghost use Rattle.hint_words.specs.Views.{HintsView};

    ghost Value = { HintsView };

    ghost view = { λ h. record {
      table = h.table.shared.table_id;
      words = h.table.shared.key.words;
      seats = h.table.shared.key.seats;
    } };

    ghost invariant = { λ h. (h.table.shared.table_id.words ≡ h.table.shared.key.words + 1)
        × (h.table.shared.table_id.slots ≡ 0) };
}

impl Hints {
    /// Makes `words` words, each 0, and their `seats` seats, numbered from 0. The only error is out
    /// of memory.
    pub fn make(
        alloc: Global,
        words: u32,
        seats: u32,
    ) -> Result<(Hints, Vec<HintSeat>), OutOfMemory>
        ensures words { IfOk result (λ r. r.0.words ≡ words) }
        ensures seats { IfOk result (λ r. r.0.seats ≡ seats) }
        ensures given { IfOk result (λ r. r.1.items ≡ new_seats r.0.table 0 seats) }
        ensures table { IfOk result (λ r. All (λ s. s.table ≡ r.0.table) r.1.items) }
        ensures all { IfOk result (λ r. vec_len r.1 ≡ seats) }
    {
        let zeros = vec![in alloc; 0; words as usize + 1]?;
        let about = Sizes { words, seats };
        let (table, main) = Table::of_words(alloc, &zeros, &about)?;
        let given = deal(alloc, &table.shared, main, seats)?;
        Ok((Hints { table }, given))
    }

    /// Ends the words. It takes all seats that came with them, in any order, and allocates nothing.
    pub fn close_hints(self, seats: Vec<HintSeat>)
        requires table { All (λ s. s.table ≡ self.table) seats.items }
        requires all { vec_len seats ≡ self.seats }
        ensures order { HaveEnded seats.items }
        ensures stored { LoadsAreStored seats.items }
    {
        close(self.table, seats).free();
    }
}
