//! Whether the queues of a history were polled as its arrivals came.
ghost use Rattle.std.specs.Prelude.{ℕ, ◌≡◌, ◌+◌, ◌<◌, ◌&&◌, [], IfOk, drop, false, length, nat_le};
ghost use Rattle.std.specs.Prelude.{slice_index, true, vec_len};
ghost use Rattle.history.specs.Counted.{IsCounted};
ghost use Rattle.history.specs.Lists.{arrivals_at};
ghost use Rattle.history_check.specs.Meeting.{AreMet, HasOther, IsAt, chosen_ids};
ghost use Rattle.history_check.specs.Tests.{are_polled, begins, is_polled};

use history::{Counted, History};
use std::alloc::Global;
use steer_base::{OutOfMemory, PacketId};

// Counts the choice for an arrival as met. Whether the next choice of its queue, if there is one,
// is for it.
fn meet(h: &History, met: &mut Vec<usize>, queue: usize, id: PacketId) -> bool
    requires { vec_len met.old ≡ length h.now.choices }
    ensures yes { result ≡ true → (i : ℕ) → IsAt h.now i queue id → AreMet h.now i met.old.items
        → AreMet h.now (i + 1) met.new.items }
    ensures no { result ≡ false → (i : ℕ) → IsAt h.now i queue id → AreMet h.now i met.old.items
        → HasOther h.now }
    ensures count { vec_len met.new ≡ vec_len met.old }
{
    if queue >= met.len() {
        return true;
    }
    let choices = h.choices.get(queue).as_slice();
    let next = met[queue];
    if next >= choices.len() {
        return true;
    }
    if choices[next].id != id {
        return false;
    }
    met[queue] = next + 1;
    true
}

// Counts the choices of each queue that are for its arrivals, in their order. Whether no choice is
// for another packet.
fn meet_all(h: &History, met: &mut Vec<usize>) -> bool
    requires count { vec_len met.old ≡ length h.now.choices }
    requires none { AreMet h.now 0 met.old.items }
    ensures yes { result ≡ true → (q : ℕ) → q < length h.now.choices
        → begins (drop (slice_index met.new.items q) (chosen_ids h.now q)) []
        ≡ begins (chosen_ids h.now q) (arrivals_at h.now.arrivals q) }
    ensures no { result ≡ false → HasOther h.now }
    ensures count { vec_len met.new ≡ length h.now.choices }
{
    for arrival in h.arrivals.as_slice() {
        if !meet(h, met, arrival.queue.0 as usize, arrival.id) {
            return false;
        }
    }
    true
}

// Whether no more are taken from a queue than arrived, and its choices are no more than are taken
// and were all met.
fn is_polled_by(taken: u32, arrived: u32, choices: usize, met: usize) -> bool
    ensures { result
        ≡ nat_le taken arrived && nat_le choices taken && nat_le choices met }
{
    taken <= arrived && choices <= taken as usize && choices <= met
}

fn is_polled(h: &History, counted: &Counted, met: &[usize], queue: usize) -> bool
    requires counted { IsCounted h.now counted.now }
    requires queue { queue < length h.now.taken }
    requires choices { length h.now.choices ≡ length h.now.taken }
    requires count { length met.now ≡ length h.now.choices }
    requires met { begins (drop (slice_index met.now queue) (chosen_ids h.now queue)) []
        ≡ begins (chosen_ids h.now queue) (arrivals_at h.now.arrivals queue) }
    ensures { result ≡ is_polled h.now queue }
{
    is_polled_by(
        *h.taken.get(queue),
        counted.arrived[queue],
        h.choices.get(queue).len(),
        met[queue],
    )
}

// Whether all queues were, whose choices were met so far.
fn all_are_polled(h: &History, counted: &Counted, met: &[usize]) -> bool
    requires counted { IsCounted h.now counted.now }
    requires choices { length h.now.choices ≡ length h.now.taken }
    requires count { length met.now ≡ length h.now.choices }
    requires met { (q : ℕ) → q < length h.now.choices
        → begins (drop (slice_index met.now q) (chosen_ids h.now q)) []
        ≡ begins (chosen_ids h.now q) (arrivals_at h.now.arrivals q) }
    ensures { result ≡ are_polled h.now }
{
    for queue in 0..h.taken.len() {
        if !is_polled(h, counted, met, queue) {
            return false;
        }
    }
    true
}

pub(crate) fn are_polled(alloc: Global, h: &History, counted: &Counted) -> Result<bool, OutOfMemory>
    requires counted { IsCounted h.now counted.now }
    requires choices { length h.now.choices ≡ length h.now.taken }
    ensures { IfOk result (λ polled. polled ≡ are_polled h.now) }
{
    let mut met = Vec::new(alloc);
    met.resize(h.choices.len(), 0)?;
    if !meet_all(h, &mut met) {
        return Ok(false);
    }
    Ok(all_are_polled(h, counted, &met))
}
