//! The processor choices of the receive queues.
ghost use Rattle.std.specs.Prelude.{ℕ, ◌≡◌, ◌≢◌, ◌<◌, ◌++◌, ◌∷◌, [], List as Items, IfOk, OnOk};
ghost use Rattle.std.specs.Prelude.{length};
ghost use Rattle.std.specs.List.{cons_option};
ghost use Rattle.history.specs.Lists.{list_at};
ghost use Rattle.steer_base.specs.declared.choice.Chosen.{Chosen as PacketChoice};
ghost use Rattle.report_history.specs.Shown.{queue_choice};
ghost use Rattle.report_history.specs.Lists.{AreChoices};

use crate::lookup::shown_choice;
use history::Arrival;
use report_reader::SeenList;
use std::alloc::Global;
use std::mem;
use steer_base::{Chosen, List, OutOfMemory};

/// The receive queues that a number of 8 bits names.
const QUEUES: usize = 256;

// How many packets arrived at each queue: a list of its choices grows no longer.
fn counts(alloc: Global, arrivals: &[Arrival]) -> Result<Vec<u32>, OutOfMemory> {
    let mut counts = Vec::new(alloc);
    counts.resize(QUEUES, 0u32)?;
    for arrival in arrivals {
        let at = usize::from(arrival.queue.0);
        if at < counts.len() {
            counts[at] = counts[at].saturating_add(1);
        }
    }
    Ok(counts)
}

// An empty list for each of so many queues, with room for the choices of its packets.
fn empty_lists(
    alloc: Global,
    counts: &[u32],
    queues: usize,
) -> Result<Vec<List<Chosen>>, OutOfMemory>
    ensures long { IfOk result (λ v. length v.items ≡ queues) }
    ensures empty { IfOk result (λ v. (q : ℕ) → list_at v.items q ≡ []) }
{
    let mut lists = Vec::with_capacity(alloc, queues)?;
    for queue in 0..queues {
        let room = counts.get(queue).copied().unwrap_or(0) as usize;
        lists.push(List::from_vec(Vec::with_capacity(alloc, room)?))?;
    }
    Ok(lists)
}

// The choice for a packet that arrived at this queue.
fn queue_choice(seen: &SeenList, queue: usize, arrival: Arrival) -> Option<Chosen>
    ensures { result ≡ queue_choice seen.now queue arrival }
{
    if arrival.queue.0 as usize != queue {
        return None;
    }
    Some(Chosen {
        id: arrival.id,
        choice: shown_choice(seen, arrival.id)?,
    })
}

// Adds an item to one of some lists.
pub(crate) fn add<T: Copy>(
    alloc: Global,
    lists: &mut Vec<List<T>>,
    at: usize,
    item: T,
) -> Result<(), OutOfMemory>
    requires { at < length lists.old.items }
    ensures long { OnOk result (length lists.new.items ≡ length lists.old.items) }
    ensures own { OnOk result (list_at lists.new.items at
        ≡ list_at lists.old.items at ++ item ∷ []) }
    ensures others { OnOk result ((q : ℕ) → q ≢ at
        → list_at lists.new.items q ≡ list_at lists.old.items q) }
{
    let mut own = mem::replace(&mut lists[at], List::from_vec(Vec::new(alloc))).into_vec();
    own.push(item)?;
    lists[at] = List::from_vec(own);
    Ok(())
}

// Adds the choice for a packet, if there is one, to the list of its queue.
fn note(
    alloc: Global,
    lists: &mut Vec<List<Chosen>>,
    seen: &SeenList,
    arrival: Arrival,
) -> Result<(), OutOfMemory>
    ensures long { OnOk result (length lists.new.items ≡ length lists.old.items) }
    ensures each { OnOk result ((q : ℕ) → q < length lists.old.items
        → list_at lists.new.items q
        ≡ list_at lists.old.items q ++ cons_option (queue_choice seen.now q arrival) []) }
{
    let at = usize::from(arrival.queue.0);
    if at >= lists.len() {
        return Ok(());
    }
    match queue_choice(seen, at, arrival) {
        Some(chosen) => add(alloc, lists, at, chosen),
        None => Ok(()),
    }
}

/// The choices of each of so many queues, in one walk over the arrivals.
pub fn choices(
    alloc: Global,
    seen: &SeenList,
    arrivals: &[Arrival],
    queues: usize,
) -> Result<Vec<List<Chosen>>, OutOfMemory>
    ensures { IfOk result (λ v. (lists : Items (Items PacketChoice))
        → AreChoices seen.now arrivals.now queues lists → v.items ≡ lists) }
{
    let counts = counts(alloc, arrivals)?;
    let mut lists = empty_lists(alloc, &counts, queues)?;
    for arrival in arrivals {
        note(alloc, &mut lists, seen, *arrival)?;
    }
    Ok(lists)
}
