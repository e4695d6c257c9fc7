//! The parts of a machine that its history keeps.
ghost use Rattle.std.specs.Prelude.{◌≡◌, IfOk, length, map};
ghost use Rattle.steer_core.specs.HistoryParts.{hop_part};
ghost use Rattle.steer_core.specs.Kept.{kept_beside, kept_history, kept_lane};

use crate::parts::{BesidePart, HistoryParts, HopPart};
use history::{Arrival, Commanded, History, LaneList, Sent, SockWrite};
use hop_core::{Hop, HopLists, LeftLane};
use std::alloc::Global;
use steer_base::{Journal, Journals, List, OutOfMemory};

/// The parts of a machine that its history keeps.
#[derive(Drop)]
pub struct Kept {
    /// The number of packets in the capture.
    pub total: u32,
    /// The length of a truncated record at the end of the capture, if there is one.
    pub cut: Option<u32>,
    /// The receive hop.
    pub rx: Hop,
    /// The transmit hop.
    pub tx: Hop,
    /// The lists beside the hops.
    pub beside: Beside,
}

/// The lists of a machine beside its hops.
#[derive(Drop)]
pub struct Beside {
    /// The packets that arrived.
    pub arrivals: Journal<Arrival>,
    /// Of each application, the replies that it began.
    pub sent: Journals<Sent>,
    /// Of each application, its writes to the socket flow table.
    pub writes: Journals<SockWrite>,
    /// The commands that were given, with their answers.
    pub commands: Journal<Commanded>,
}

/// The history of these parts, whose lists are moved out of them. The memory is for the lists of
/// lists.
pub fn history_from(alloc: Global, kept: Kept) -> Result<History, OutOfMemory>
    requires { length kept.tx.bare.outs ≡ 1 }
    ensures { IfOk result (λ history. history ≡ kept_history kept) }
{
    let Kept {
        total,
        cut,
        rx,
        tx,
        beside,
    } = kept;
    let rx = moved_hop(alloc, rx)?;
    let tx = moved_hop(alloc, tx)?;
    let beside = moved_beside(alloc, beside)?;
    let parts = HistoryParts {
        total,
        cut,
        rx,
        tx,
        beside,
    };
    Ok(parts.joined())
}

// What a history has of a hop, whose lists are moved out of it.
fn moved_hop(alloc: Global, hop: Hop) -> Result<HopPart, OutOfMemory>
    ensures { IfOk result (λ part. part ≡ hop_part hop) }
{
    let HopLists {
        taken,
        choices,
        lanes,
        outs,
        start,
    } = hop.into_lists(alloc)?;
    let choices = moved_lists(alloc, choices)?;
    let lanes = moved_lanes(alloc, lanes)?;
    let outs = moved_lists(alloc, outs)?;
    Ok(HopPart {
        taken: List::from_vec(taken),
        choices,
        lanes,
        outs,
        start,
    })
}

// What a history has beside the hops, moved out of these lists.
fn moved_beside(alloc: Global, beside: Beside) -> Result<BesidePart, OutOfMemory>
    ensures { IfOk result (λ part. part ≡ kept_beside beside) }
{
    let Beside {
        arrivals,
        sent,
        writes,
        commands,
    } = beside;
    let sent = moved_lists(alloc, sent.into_vecs())?;
    let writes = moved_lists(alloc, writes.into_vecs())?;
    Ok(BesidePart {
        arrivals: List::from_vec(arrivals.into_vec()),
        sent,
        writes,
        commands: List::from_vec(commands.into_vec()),
    })
}

// Lists of the same items.
fn moved_lists<T: Drop>(alloc: Global, lists: Vec<Vec<T>>) -> Result<List<List<T>>, OutOfMemory>
    ensures { IfOk result (λ moved. moved ≡ map (λ list. list.items) lists.items) }
{
    Ok(List::from_vec(lists.into_iter().map(List::from_vec).collect(alloc)?))
}

// What a history keeps of each lane.
fn moved_lanes(alloc: Global, lanes: Vec<LeftLane>) -> Result<List<LaneList>, OutOfMemory>
    ensures { IfOk result (λ lists. lists ≡ map kept_lane lanes.items) }
{
    Ok(List::from_vec(lanes.into_iter().map(moved_lane).collect(alloc)?))
}

// What a history keeps of a lane.
fn moved_lane(lane: LeftLane) -> LaneList
    ensures { result ≡ kept_lane lane }
{
    LaneList {
        accepted: lane.accepted,
        drops: lane.drops,
        pulled: lane.pulled,
        delivered: lane.delivered,
        retired: lane.retired,
    }
}
