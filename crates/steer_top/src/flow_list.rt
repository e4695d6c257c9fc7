//! The flows of the packets of a capture.
ghost use Rattle.std.specs.Prelude.{◌≡◌, ◌<◌, ◌^◌, [], ◌∷◌, ◌++◌, length, get_or, IfOk, OnOk};
ghost use Rattle.std.specs.Prelude.{OnErr};
ghost use Rattle.steer_base.specs.declared.flow.Flow.TheVariants.{Bare};
ghost use Rattle.steer_top.specs.FlowLists.{IsEntryOf, IsPairOf, IsWithin, flow_of_entry, pair_at};

use std::alloc::Global;
use std::marker::Model;
use steer_base::{Flow, OutOfMemory, Pair, Proto};

// A flow, with the place of its addresses where they are of IPv6.
#[derive(Clone, Copy)]
enum Entry {
    Bare,
    Two4 {
        src: u32,
        dst: u32,
    },
    Four4 {
        proto: Proto,
        src: u32,
        dst: u32,
        sport: u16,
        dport: u16,
    },
    Two6 {
        place: u32,
    },
    Four6 {
        proto: Proto,
        place: u32,
        sport: u16,
        dport: u16,
    },
}

const _: () = prove!(size_of::<Entry>() == 16);

// The two IPv6 addresses of a flow.
#[derive(Clone, Copy)]
struct LongPair {
    src: u128,
    dst: u128,
}

const _: () = prove!(size_of::<LongPair>() == 32);

/// A list of flows. A flow takes 16 bytes, and 32 more if it has IPv6 addresses.
#[derive(Drop)]
pub struct FlowList {
    entries: Vec<Entry>,
    // The IPv6 addresses of the entries.
    long: Vec<LongPair>,
}

impl Model for FlowList {
    ghost use Rattle.std.specs.Prelude.{List, map};
    ghost use Rattle.steer_base.specs.declared.flow.Flow.{Flow};
    ghost use Rattle.steer_top.specs.FlowLists.{AreWithin, flow_of_entry};

    ghost Value = { List Flow };

    ghost view = { λ list. map (flow_of_entry list.long.items) list.entries.items };

    ghost invariant = { λ list. AreWithin list.long.items list.entries.items };
}

impl FlowList {
    /// No flows. Allocates nothing.
    pub fn new(alloc: Global) -> FlowList
        ensures { result ≡ [] }
    {
        FlowList {
            entries: Vec::new(alloc),
            long: Vec::new(alloc),
        }
    }

    /// Appends a flow. If memory runs out, the list stays.
    pub fn push(&mut self, flow: Flow) -> Result<(), OutOfMemory>
        requires few { length self.old < 2 ^ 32 }
        ensures ok { OnOk result (self.new ≡ self.old ++ flow ∷ []) }
        ensures err { OnErr result (self.new ≡ self.old) }
    {
        self.entries.reserve(1)?;
        let entry = entry_of(&mut self.long, flow)?;
        self.entries.push_reserved(entry);
        Ok(())
    }

    /// The number of flows.
    pub fn len(&self) -> usize
        ensures { result ≡ length self.now }
    {
        self.entries.len()
    }

    /// The flow at an index.
    pub fn get(&self, index: usize) -> Flow
        requires { index < length self.now }
        ensures { result ≡ get_or self.now index Bare }
    {
        flow_of_entry(&self.long, self.entries[index])
    }
}

// The entry of a flow. Its IPv6 addresses are appended to those that are kept.
fn entry_of(long: &mut Vec<LongPair>, flow: Flow) -> Result<Entry, OutOfMemory>
    requires few { length long.old.items < 2 ^ 32 }
    ensures ok { IfOk result (IsEntryOf long.old.items long.new.items flow) }
    ensures err { OnErr result (long.new.items ≡ long.old.items) }
{
    match flow {
        Flow::Bare => Ok(Entry::Bare),
        Flow::Two(Pair::V4 { src, dst }) => Ok(Entry::Two4 { src, dst }),
        Flow::Four(Pair::V4 { src, dst }, proto, sport, dport) => Ok(Entry::Four4 {
            proto,
            src,
            dst,
            sport,
            dport,
        }),
        Flow::Two(Pair::V6 { src, dst }) => {
            let place = keep(long, src, dst)?;
            Ok(Entry::Two6 { place })
        }
        Flow::Four(Pair::V6 { src, dst }, proto, sport, dport) => {
            let place = keep(long, src, dst)?;
            Ok(Entry::Four6 {
                proto,
                place,
                sport,
                dport,
            })
        }
    }
}

// Appends two addresses, and returns their place.
fn keep(long: &mut Vec<LongPair>, src: u128, dst: u128) -> Result<u32, OutOfMemory>
    requires few { length long.old.items < 2 ^ 32 }
    ensures ok { IfOk result (IsPairOf long.old.items long.new.items src dst) }
    ensures err { OnErr result (long.new.items ≡ long.old.items) }
{
    let place = long.len() as u32;
    long.push(LongPair { src, dst })?;
    Ok(place)
}

// The flow of an entry.
fn flow_of_entry(long: &[LongPair], entry: Entry) -> Flow
    requires { IsWithin long.now entry }
    ensures { result ≡ flow_of_entry long.now entry }
{
    match entry {
        Entry::Bare => Flow::Bare,
        Entry::Two4 { src, dst } => Flow::Two(Pair::V4 { src, dst }),
        Entry::Four4 {
            proto,
            src,
            dst,
            sport,
            dport,
        } => Flow::Four(Pair::V4 { src, dst }, proto, sport, dport),
        Entry::Two6 { place } => Flow::Two(pair_at(long, place)),
        Entry::Four6 {
            proto,
            place,
            sport,
            dport,
        } => Flow::Four(pair_at(long, place), proto, sport, dport),
    }
}

// The two addresses at a place.
fn pair_at(long: &[LongPair], place: u32) -> Pair
    requires { place < length long.now }
    ensures { result ≡ pair_at long.now place }
{
    let LongPair { src, dst } = long[place as usize];
    Pair::V6 { src, dst }
}
