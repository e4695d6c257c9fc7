//! A middle lane in a seat's hand.
use crate::equal::same;
use backlog::Lane;
use board_api::HeldLane;
use std::alloc::Global;
use std::process::Abort;
use std::test::Fail;
use steer_base::{OutOfMemory, PacketId};

// The room of a lane with room for four packets of which one may wait, after so many puts.
fn room_after(rt: &impl Abort, alloc: Global, puts: u32) -> Result<u32, OutOfMemory> {
    let mut lane = Lane::make(alloc, 1, 4, 0, false)?;
    for id in 0..puts {
        assert!(rt; lane.room() > 0);
        let _ = lane.put(PacketId(id), None);
    }
    Ok(HeldLane::Middle(1, lane).room())
}

// The second packet is dropped, and takes room too.
#[test]
fn a_dropped_packet_takes_room(rt: HostRuntime) -> Result<(), Fail> {
    for (puts, room) in [(0, 4), (1, 3), (2, 2)] {
        same(&rt, &room_after(&rt, rt.alloc(), puts)?, &room, puts as u64);
    }
    Ok(())
}
