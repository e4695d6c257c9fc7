//! Lists of packets that are filled by their places.
ghost use Rattle.std.specs.Prelude.{ℕ, ◌≡◌, ◌≤◌, ◌<◌, ◌-◌, ◌+◌, ◌∷◌, List, Some, IfOk, length};
ghost use Rattle.std.specs.Prelude.{drop, map, slice_index_or, slice_set};
ghost use Rattle.steer_base.specs.declared.limits.TheConstants.{MAX_PACKETS};
ghost use Rattle.history.specs.Lists.{list_at};
ghost use Rattle.report_reader.specs.Slots.{IsShelved, one_at, place_for, slot_of};
ghost use Rattle.report_reader.specs.declared.shelf.TheConstants.{LISTS};
ghost use Rattle.report_reader.specs.declared.slots.Kind.{Kind as AKind};
ghost use Rattle.report_reader.specs.declared.slots.Seen.{Seen as SeenLines};

use crate::seen_list::SeenList;
use crate::slots::{Kind, Slot, slot_of_kind};
use std::alloc::Global;
use std::marker::Model;
use steer_base::{List as Items, OutOfMemory, PacketId};

/// The lists that a number of 8 bits names.
const LISTS: usize = 256;

// Counts a packet in the list where it stands.
fn count_one(counts: &mut Vec<u32>, slot: Option<Slot>)
    requires lists { length counts.old.items ≡ LISTS }
    requires few { (n : ℕ) → n < LISTS → slice_index_or counts.old.items n 0 < MAX_PACKETS }
    ensures lists { length counts.new.items ≡ LISTS }
    ensures each { (n : ℕ) → n < LISTS → slice_index_or counts.new.items n 0
        ≡ slice_index_or counts.old.items n 0 + one_at (place_for n slot) }
{
    if let Some(slot) = slot {
        counts[usize::from(slot.list)] += 1;
    }
}

// Where a packet stands among the lists of a kind. Of its two rows only the one that says so is
// looked at.
fn slot_at(seen: &SeenList, x: usize, kind: Kind, start: u32) -> Option<Slot>
    requires { x < length seen.now }
    ensures { map (slot_of start kind) (drop x seen.now)
        ≡ result ∷ map (slot_of start kind) (drop (x + 1) seen.now) }
{
    match kind {
        Kind::Accepted => slot_of_kind(&seen.at(x), Kind::Accepted, start),
        Kind::Dropped => slot_of_kind(&seen.at(x), Kind::Dropped, start),
        Kind::Inbox => slot_of_kind(&seen.at(x), Kind::Inbox, start),
        Kind::Shipped => slot_of_kind(&seen.at(x), Kind::Shipped, start),
        Kind::Port => slot_of_kind(&seen.at(x), Kind::Port, start),
    }
}

// Where each packet stands among the lists of a kind.
fn slots(
    alloc: Global,
    seen: &SeenList,
    kind: Kind,
    start: u32,
) -> Result<Vec<Option<Slot>>, OutOfMemory>
    ensures { IfOk result (λ slots. slots.items ≡ map (slot_of start kind) seen.now) }
{
    let mut slots = Vec::with_capacity(alloc, seen.len())?;
    for x in 0..seen.len() {
        slots.push(slot_at(seen, x, kind, start))?;
    }
    Ok(slots)
}

// How many packets stand in each list of a kind.
fn counts(alloc: Global, slots: &[Option<Slot>]) -> Result<Vec<u32>, OutOfMemory>
    requires { length slots.now ≤ MAX_PACKETS }
    ensures { IfOk result (λ counts. (start : ℕ) (kind : AKind) (seen : List SeenLines)
        (n : ℕ) (wanted : List ℕ) → slots.now ≡ map (slot_of start kind) seen
        → IsShelved start kind seen n wanted
        → slice_index_or counts.items n 0 ≡ length wanted) }
{
    let mut counts = Vec::new(alloc);
    counts.resize(LISTS, 0)?;
    for x in 0..slots.len() {
        let slot = slots[x];
        count_one(&mut counts, slot);
    }
    Ok(counts)
}

// How many packets stand in the list with this number.
fn count_at(counts: &[u32], list: usize) -> usize
    ensures { result ≡ slice_index_or counts.now list 0 }
{
    match counts.get(list) {
        Some(count) => *count as usize,
        None => 0,
    }
}

// So many zeros.
fn zeros(alloc: Global, count: usize) -> Result<Vec<PacketId>, OutOfMemory>
    ensures { IfOk result (λ ids. length ids.items ≡ count) }
{
    let mut ids = Vec::new(alloc);
    ids.resize(count, PacketId(0))?;
    Ok(ids)
}

// Puts a packet at a place, if the list has that place.
fn put_at(ids: &mut Vec<PacketId>, place: u32, id: PacketId)
    ensures { 0 < place → place ≤ length ids.old.items
        → ids.new.items ≡ slice_set ids.old.items (place - 1) id }
{
    if place == 0 || place as usize > ids.len() {
        return;
    }
    ids[place as usize - 1] = id;
}

/// Lists side by side with a place for each packet. Contracts see the list of the lists.
#[derive(Drop)]
struct Places {
    lists: Vec<Vec<PacketId>>,
}

impl Model for Places {
    ghost use Rattle.std.specs.Prelude.{ℕ, List, map};

    ghost Value = { List (List ℕ) };

    ghost view = { λ s. map (λ list. list.items) s.lists.items };
}

impl Places {
    // So many lists, each with as many places as are counted.
    fn make(alloc: Global, count: usize, counts: &[u32]) -> Result<Places, OutOfMemory>
        ensures lists { IfOk result (λ s. length s ≡ count) }
        ensures long { IfOk result (λ s. (n : ℕ) → n < count
            → length (list_at s n) ≡ slice_index_or counts.now n 0) }
    {
        let mut lists = Vec::with_capacity(alloc, count)?;
        for n in 0..count {
            lists.push(zeros(alloc, count_at(counts, n))?)?;
        }
        Ok(Places { lists })
    }

    // Puts a packet where it stands, if there is that place.
    fn put(&mut self, slot: Option<Slot>, id: PacketId)
        ensures lists { length self.new ≡ length self.old }
        ensures set { (n p : ℕ) → n < length self.old → place_for n slot ≡ Some p → 0 < p
            → p ≤ length (list_at self.old n)
            → list_at self.new n ≡ slice_set (list_at self.old n) (p - 1) id }
        ensures same { (n : ℕ) → place_for n slot ≡ None
            → list_at self.new n ≡ list_at self.old n }
    {
        let Some(slot) = slot else {
            return;
        };
        let list = usize::from(slot.list);
        if list >= self.lists.len() {
            return;
        }
        put_at(&mut self.lists[list], slot.place, id);
    }

    // The lists, without copying.
    fn into_lists(self, alloc: Global) -> Result<Vec<Items<PacketId>>, OutOfMemory>
        ensures { IfOk result (λ v. v.items ≡ self) }
    {
        let Places { lists } = self;
        Ok(lists.into_iter().map(Items::from_vec).collect(alloc)?)
    }
}

/// The lists of a kind with the numbers below `count`, in one walk over the packets: each packet
/// stands at its place. The memory of each list is allocated once.
pub fn shelves(
    alloc: Global,
    seen: &SeenList,
    kind: Kind,
    count: usize,
    start: u32,
) -> Result<Vec<Items<PacketId>>, OutOfMemory>
    requires { length seen.now ≤ MAX_PACKETS }
    ensures lists { IfOk result (λ v. length v.items ≡ count) }
    ensures each { IfOk result (λ v. (n : ℕ) (wanted : List ℕ) → n < count
        → IsShelved start kind seen.now n wanted → list_at v.items n ≡ wanted) }
{
    let slots = slots(alloc, seen, kind, start)?;
    let counts = counts(alloc, &slots)?;
    let mut shelves = Places::make(alloc, count, &counts)?;
    for x in 0..slots.len() {
        let slot = slots[x];
        shelves.put(slot, PacketId(x as u32));
    }
    let lists = shelves.into_lists(alloc)?;
    Ok(lists)
}

/// The list of a kind with this number: each packet stands at its place.
pub fn shelf(
    alloc: Global,
    seen: &SeenList,
    kind: Kind,
    list: usize,
    start: u32,
) -> Result<Vec<PacketId>, OutOfMemory>
    requires { length seen.now ≤ MAX_PACKETS }
    ensures { IfOk result (λ ids. (wanted : List ℕ)
        → IsShelved start kind seen.now list wanted → ids.items ≡ wanted) }
{
    if list > usize::from(u8::MAX) {
        return Ok(Vec::new(alloc));
    }
    let mut lists = shelves(alloc, seen, kind, list + 1, start)?;
    Ok(lists.swap_remove(list).into_vec())
}
