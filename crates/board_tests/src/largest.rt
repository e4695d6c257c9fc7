//! Boards of several sizes are made, and closed before any step.
ghost use Rattle.std.specs.Prelude.{◌≡◌, ◌≤◌};
ghost use Rattle.hop_rule.specs.declared.sizes.TheConstants.{MAX_BOARD_ROOM};

use crate::equal::same;
use board_api::BoardLists;
use hop_board::Board;
use hop_model::HopShape;
use std::alloc::Global;
use std::test::Fail;
use steer_base::{CpuMask, OutOfMemory};

// The shape of a hop with these numbers of lanes and room for this many packets in each.
fn shape(counts: Vec<u32>, lanes: u8, outs: u8, room: u32) -> HopShape
    ensures lanes { result.lanes ≡ lanes }
    ensures limit { result.limit ≡ 1 }
    ensures room { result.room ≡ room }
{
    HopShape {
        producers: 1,
        guests: 0,
        lanes,
        outs,
        limit: 1,
        room,
        counts,
        exact: false,
        start: 4_294_967_295,
        limited: CpuMask(5),
    }
}

// What a board leaves on which no step was made.
fn unused(
    alloc: Global,
    lanes: u8,
    outs: u8,
    room: u32,
    seats: u32,
) -> Result<BoardLists, OutOfMemory>
    requires room { room ≤ MAX_BOARD_ROOM }
    requires lanes { lanes ≤ 32 }
    requires some_seat { 1 ≤ seats }
    requires seats { seats ≤ 64 }
{
    let shape = shape(Vec::new(alloc), lanes, outs, room);
    let (board, all) = Board::make(alloc, &shape, &[7; 66], seats)?;
    Ok(board.close_board(all))
}

// The numbers of lanes of each kind that are left, and the largest number of packets or counts
// above 0 that one of them has.
fn counts(lists: &BoardLists) -> (usize, usize, usize) {
    let mut found = 0usize;
    for lane in lists.lanes.as_slice() {
        let marks = (lane.pulled, lane.delivered, lane.retired) != (0, 0, 0);
        let own = lane
            .accepted
            .len()
            .max(lane.drops.len())
            .max(marks as usize);
        found = found.max(own);
    }
    for out in lists.outs.as_slice() {
        found = found.max(out.len());
    }
    (lists.lanes.len(), lists.outs.len(), found)
}

// The last is as large as a board may be.
#[test]
fn a_board_without_a_step_leaves_empty_lists(rt: HostRuntime) -> Result<(), Fail> {
    let small = unused(rt.alloc(), 1, 1, 0, 1)?;
    same(&rt, &counts(&small), &(1, 1, 0), 0);
    let middle = unused(rt.alloc(), 2, 1, 4, 3)?;
    same(&rt, &counts(&middle), &(2, 1, 0), 1);
    let largest = unused(rt.alloc(), 32, 32, 262_144, 64)?;
    same(&rt, &counts(&largest), &(32, 32, 0), 2);
    Ok(())
}
