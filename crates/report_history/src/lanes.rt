//! The lanes and the inboxes.
ghost use Rattle.std.specs.Prelude.{ℕ, ◌≡◌, ◌≤◌, ◌<◌, List as Items, IfOk, length};
ghost use Rattle.std.specs.List.{filter_map};
ghost use Rattle.steer_base.specs.declared.limits.TheConstants.{MAX_PACKETS};
ghost use Rattle.history.specs.Lists.{list_at};
ghost use Rattle.history.specs.declared.lane_list.LaneList.{LaneList as Lane};
ghost use Rattle.report_history.specs.Lists.{AreInboxes, AreLanes, IsBacklog, IsTxQueue};
ghost use Rattle.report_history.specs.Shown.{shown_drop};

use crate::lookup::shown_drop;
use history::LaneList;
use report_reader::shelf::shelves;
use report_reader::{Kind, LaneSums, SeenList};
use std::alloc::Global;
use std::mem;
use steer_base::{LaneDrop, List, OutOfMemory, PacketId};

// The drops of these packets.
fn drops(alloc: Global, seen: &SeenList, ids: &[PacketId]) -> Result<Vec<LaneDrop>, OutOfMemory>
    ensures { IfOk result (λ v. v.items ≡ filter_map (shown_drop seen.now) ids.now) }
{
    let mut drops = Vec::with_capacity(alloc, ids.len())?;
    for id in ids {
        if let Some(fallen) = shown_drop(seen, *id) {
            drops.push(fallen)?;
        }
    }
    Ok(drops)
}

// A lane with these packets and sums.
fn lane_of(accepted: List<PacketId>, drops: Vec<LaneDrop>, sums: LaneSums) -> LaneList
    ensures accepted { result.accepted ≡ accepted }
    ensures drops { result.drops ≡ drops.items }
    ensures pulled { result.pulled ≡ sums.pulled }
    ensures delivered { result.delivered ≡ sums.delivered }
    ensures retired { result.retired ≡ sums.retired }
{
    LaneList {
        accepted,
        drops: List::from_vec(drops),
        pulled: sums.pulled,
        delivered: sums.delivered,
        retired: sums.retired,
    }
}

// Takes a list out of others, and leaves an empty one.
fn take_list(alloc: Global, lists: &mut Vec<List<PacketId>>, at: usize) -> List<PacketId>
    requires { at < length lists.old.items }
    ensures taken { result ≡ list_at lists.old.items at }
    ensures long { length lists.new.items ≡ length lists.old.items }
    ensures others { (n : ℕ) → at < n → list_at lists.new.items n ≡ list_at lists.old.items n }
{
    mem::replace(&mut lists[at], List::from_vec(Vec::new(alloc)))
}

/// The backlogs of the processors with these sums.
pub fn backlogs(
    alloc: Global,
    seen: &SeenList,
    sums: &[LaneSums],
    start: u32,
) -> Result<Vec<LaneList>, OutOfMemory>
    requires { length seen.now ≤ MAX_PACKETS }
    ensures { IfOk result (λ v. (lanes : Items Lane)
        → AreLanes (IsBacklog start seen.now) sums.now lanes → v.items ≡ lanes) }
{
    let mut accepted = shelves(alloc, seen, Kind::Accepted, sums.len(), start)?;
    let dropped = shelves(alloc, seen, Kind::Dropped, sums.len(), start)?;
    let mut lanes = Vec::with_capacity(alloc, sums.len())?;
    for c in 0..sums.len() {
        let own = take_list(alloc, &mut accepted, c);
        let drops = drops(alloc, seen, dropped[c].as_slice())?;
        lanes.push(lane_of(own, drops, sums[c]))?;
    }
    Ok(lanes)
}

/// The transmit queues with these sums.
pub fn tx_queues(
    alloc: Global,
    seen: &SeenList,
    sums: &[LaneSums],
    start: u32,
) -> Result<Vec<LaneList>, OutOfMemory>
    requires { length seen.now ≤ MAX_PACKETS }
    ensures { IfOk result (λ v. (lanes : Items Lane)
        → AreLanes (IsTxQueue start seen.now) sums.now lanes → v.items ≡ lanes) }
{
    let mut accepted = shelves(alloc, seen, Kind::Shipped, sums.len(), start)?;
    let mut lanes = Vec::with_capacity(alloc, sums.len())?;
    for t in 0..sums.len() {
        let own = take_list(alloc, &mut accepted, t);
        lanes.push(lane_of(own, Vec::new(alloc), sums[t]))?;
    }
    Ok(lanes)
}

/// The inboxes of so many applications.
pub fn inboxes(
    alloc: Global,
    seen: &SeenList,
    apps: u8,
    start: u32,
) -> Result<Vec<List<PacketId>>, OutOfMemory>
    requires { length seen.now ≤ MAX_PACKETS }
    ensures { IfOk result (λ v. (lists : Items (Items ℕ))
        → AreInboxes start seen.now apps lists → v.items ≡ lists) }
{
    let lists = shelves(alloc, seen, Kind::Inbox, apps as usize, start)?;
    Ok(lists)
}
