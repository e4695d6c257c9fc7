//! The memory into which the lists of a closed board are copied.
ghost use Rattle.std.specs.Prelude.{◌≡◌, [], IfOk, replicate};
ghost use Rattle.steer_base.specs.Journals.{journal};
ghost use Rattle.hop_board.specs.Closed.{HasRoom};

use history::LaneList;
use hop_rule::BoardSizes;
use std::alloc::Global;
use steer_base::{Journal, LaneDrop, List, OutOfMemory, PacketId};

/// Empty lists with room for what a closed board leaves.
#[derive(Drop)]
pub struct Spare {
    /// For each middle lane, for the packets that it accepted.
    pub accepted: Vec<Journal<PacketId>>,
    /// For each middle lane, for its drops.
    pub drops: Vec<Journal<LaneDrop>>,
    /// For the lists of all middle lanes.
    pub lanes: Vec<LaneList>,
    /// For the lists of all out lanes.
    pub outs: Vec<List<PacketId>>,
}

impl Spare {
    /// Makes all lists for a board of these sizes. The only error is out of memory.
    pub fn make(alloc: Global, sizes: &BoardSizes) -> Result<Spare, OutOfMemory>
        ensures { IfOk result (λ spare. HasRoom sizes.now spare) }
    {
        let accepted = journals(alloc, sizes.lanes, sizes.room)?;
        let drops = journals(alloc, sizes.lanes, sizes.room)?;
        let lanes = Vec::with_capacity(alloc, sizes.lanes as usize)?;
        let outs = Vec::with_capacity(alloc, sizes.outs as usize)?;
        Ok(Spare {
            accepted,
            drops,
            lanes,
            outs,
        })
    }
}

// `count` empty lists with this room.
fn journals<T: Drop>(alloc: Global, count: u32, room: u32) -> Result<Vec<Journal<T>>, OutOfMemory>
    ensures { IfOk result (λ all. all.items ≡ replicate count (journal [] room)) }
{
    let mut all = Vec::with_capacity(alloc, count as usize)?;
    for _ in 0..count {
        all.push_reserved(Journal::make(alloc, room)?);
    }
    Ok(all)
}
