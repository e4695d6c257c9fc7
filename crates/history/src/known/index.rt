//! One slot for each packet, filled in one pass over each list of a history.
ghost use Rattle.std.specs.Prelude.{◌≡◌, ℕ, ◌<◌, ◌+◌, ◌^◌, None, length, slice_index_or, replicate};
ghost use Rattle.std.specs.Prelude.{IfOk, nat_lt};
ghost use Rattle.std.specs.List.{list_any};
ghost use Rattle.std.specs.Option.{option_map};
ghost use Rattle.steer_base.specs.Entries.{place_in};
ghost use Rattle.steer_base.specs.declared.put.Put.TheVariants.{Dropped as dropped};
ghost use Rattle.history.specs.Finding.{first_some, found};
ghost use Rattle.history.specs.Index.{IsIndex, noted, noted_by};
ghost use Rattle.history.specs.Lines.{accepted_place, choice_in, drop_in};
ghost use Rattle.history.specs.Lists.{lane_at, list_at};

use crate::known::places::Places;
use crate::lane_list::LaneList;
use crate::sent::Sent;
use std::alloc::Global;
use std::marker::Model;
use steer_base::{Chosen, Cpu, LaneDrop, List, OutOfMemory, PacketId, Put};

/// One slot for each packet. The first value that is noted for a packet stays.
#[derive(Drop)]
pub struct Index<T> {
    slots: Vec<Option<T>>,
}

impl<T> Model for Index<T> {
    ghost use Rattle.std.specs.Prelude.{List, Option};

    ghost Value = { List (Option T) };

    ghost view = { λ i. i.slots.items };
}

impl<T: Copy> Index<T> {
    // `count` empty slots.
    pub(crate) fn empty(alloc: Global, count: usize) -> Result<Index<T>, OutOfMemory>
        ensures { IfOk result (λ i. i ≡ replicate count None) }
    {
        let mut slots = Vec::new(alloc);
        slots.resize(count, None)?;
        Ok(Index { slots })
    }

    // Notes a value if the packet has an empty slot.
    pub(crate) fn note(&mut self, id: PacketId, value: T)
        ensures { self.new ≡ noted self.old id value }
    {
        let at = id.0 as usize;
        if at < self.slots.len() && self.slots[at].is_none() {
            self.slots[at] = Some(value);
        }
    }

    /// The value that was noted for a packet.
    pub fn get(&self, id: PacketId) -> Option<T>
        ensures { result ≡ slice_index_or self.now id None }
    {
        let at = id.0 as usize;
        if at < self.slots.len() {
            self.slots[at]
        } else {
            None
        }
    }
}

// The lane of the choice for each packet.
pub(crate) fn index_lanes(
    alloc: Global,
    count: usize,
    lists: &List<List<Chosen>>,
) -> Result<Index<u8>, OutOfMemory>
    ensures { IfOk result (λ i. IsIndex count i
        (λ x. option_map (λ c. c.lane) (first_some (choice_in x) lists.now))) }
{
    let mut index = Index::empty(alloc, count)?;
    for list in lists.as_slice() {
        note_lanes(&mut index, list);
    }
    Ok(index)
}

fn note_lanes(index: &mut Index<u8>, list: &List<Chosen>)
    ensures { index.new ≡ noted_by (λ c. c.id) (λ i c. c.choice.lane) 0 index.old list.now }
{
    for chosen in list.as_slice() {
        index.note(chosen.id, chosen.choice.lane);
    }
}

// The processor of the reply to each packet.
pub(crate) fn index_senders(
    alloc: Global,
    count: usize,
    lists: &List<List<Sent>>,
) -> Result<Index<Cpu>, OutOfMemory>
    ensures { IfOk result (λ i. IsIndex count i
        (λ x. option_map (λ s. s.cpu) (first_some (found (λ s. s.id) x) lists.now))) }
{
    let mut index = Index::empty(alloc, count)?;
    for list in lists.as_slice() {
        note_senders(&mut index, list);
    }
    Ok(index)
}

fn note_senders(index: &mut Index<Cpu>, list: &List<Sent>)
    ensures { index.new ≡ noted_by (λ s. s.id) (λ i s. s.cpu) 0 index.old list.now }
{
    for sent in list.as_slice() {
        index.note(sent.id, sent.cpu);
    }
}

// The place of each packet in the lists, from 1.
pub(crate) fn index_places(
    alloc: Global,
    count: usize,
    lists: &List<List<PacketId>>,
) -> Result<Places, OutOfMemory>
    requires { (i : ℕ) → length (list_at lists.now i) < 2 ^ 32 }
    ensures { IfOk result (λ i. IsIndex count i (λ x. first_some (place_in x) lists.now)) }
{
    let mut index = Places::empty(alloc, count)?;
    for list in lists.as_slice() {
        note_places(&mut index, list);
    }
    Ok(index)
}

// The same in one list.
pub(crate) fn index_list(
    alloc: Global,
    count: usize,
    list: &List<PacketId>,
) -> Result<Places, OutOfMemory>
    requires { length list.now < 2 ^ 32 }
    ensures { IfOk result (λ i. IsIndex count i (λ x. place_in x list.now)) }
{
    let mut index = Places::empty(alloc, count)?;
    note_places(&mut index, list);
    Ok(index)
}

// The same among the packets that the lanes accepted.
pub(crate) fn index_accepted(
    alloc: Global,
    count: usize,
    lanes: &List<LaneList>,
) -> Result<Places, OutOfMemory>
    requires { (c : ℕ) → length (lane_at lanes.now c).accepted < 2 ^ 32 }
    ensures { IfOk result (λ i. IsIndex count i (λ x. accepted_place lanes.now x)) }
{
    let mut index = Places::empty(alloc, count)?;
    for lane in lanes.as_slice() {
        note_places(&mut index, &lane.accepted);
    }
    Ok(index)
}

fn note_places(index: &mut Places, list: &List<PacketId>)
    requires { length list.now < 2 ^ 32 }
    ensures { index.new ≡ noted_by (λ x. x) (λ i x. i + 1) 0 index.old list.now }
{
    for (i, id) in list.as_slice().iter().enumerate() {
        index.note(*id, i as u32 + 1);
    }
}

// The drop of each packet, with its number.
fn index_drops(
    alloc: Global,
    count: usize,
    lanes: &List<LaneList>,
) -> Result<Index<Put>, OutOfMemory>
    requires { (c : ℕ) → length (lane_at lanes.now c).drops < 2 ^ 32 }
    ensures { IfOk result (λ i. IsIndex count i (λ x. first_some (drop_in x) lanes.now)) }
{
    let mut index = Index::empty(alloc, count)?;
    for lane in lanes.as_slice() {
        note_drops(&mut index, &lane.drops);
    }
    Ok(index)
}

fn note_drops(index: &mut Index<Put>, list: &List<LaneDrop>)
    requires { length list.now < 2 ^ 32 }
    ensures { index.new
        ≡ noted_by (λ d. d.id)
        (λ i d. dropped (i + 1) d.accepted d.pulled d.cause) 0 index.old list.now }
{
    for (i, fallen) in list.as_slice().iter().enumerate() {
        let put = Put::Dropped {
            number: i as u32 + 1,
            accepted: fallen.accepted,
            pulled: fallen.pulled,
            cause: fallen.cause,
        };
        index.note(fallen.id, put);
    }
}

// The drop of each packet, with its number. It takes no memory where no lane dropped a packet.
pub(crate) fn some_drops(
    alloc: Global,
    count: usize,
    lanes: &List<LaneList>,
) -> Result<Index<Put>, OutOfMemory>
    requires { (c : ℕ) → length (lane_at lanes.now c).drops < 2 ^ 32 }
    ensures { IfOk result (λ i. (x : ℕ) → x < count
        → slice_index_or i x None ≡ first_some (drop_in x) lanes.now) }
{
    if has_drops(lanes) {
        index_drops(alloc, count, lanes)
    } else {
        Index::empty(alloc, 0)
    }
}

// Whether a lane dropped a packet.
fn has_drops(lanes: &List<LaneList>) -> bool
    ensures { result ≡ list_any (λ lane. nat_lt 0 (length lane.drops)) lanes.now }
{
    lanes.as_slice().iter().any(|lane| lane.drops.len() > 0)
}
