//! Lanes that packets are put to and taken from.
ghost use Rattle.std.specs.Prelude.{◌≡◌, ◌+◌, ◌≤◌, length};
ghost use Rattle.backlog.specs.Puts.{SameShape, put_count};

use crate::equal::{same, same_items};
use backlog::Lane;
use std::process::Abort;
use std::test::Fail;
use steer_base::{DropCause, LaneDrop, PacketId, Put};

// The hashes of the flow 66.9.149.187:2794 to 161.142.100.80:1766 and of its neighbour in
// Microsoft's vectors, both TCP.
const FIRST: u32 = 0x51cc_c178;

const SECOND: u32 = 0xc626_b0ea;

// Where the packet of this number of a large flow goes, counted from 1.
pub(crate) fn wanted(position: u32, limited: bool) -> Put {
    if limited && position > 151 {
        Put::Dropped {
            number: position.saturating_sub(151),
            accepted: 151,
            pulled: 0,
            cause: DropCause::Flow(position.min(256)),
        }
    } else {
        Put::At(position)
    }
}

// Puts `count` packets of one hash and one of another to a lane with the limit 300, of which none
// is taken. The first 151 are accepted. From then on more than half of the limit waits, and the
// hash has more than 128 of the last offers.
fn put_all(rt: &impl Abort, lane: &mut Lane, count: u32, limited: bool)
    requires { put_count lane.old + count + 1 ≤ lane.old.room }
{
    for at in 0..count {
        let put = lane.put(PacketId(at), Some(FIRST));
        same(
            rt,
            &put,
            &wanted(at.saturating_add(1), limited),
            at as usize,
        );
    }
    let last = if limited {
        152
    } else {
        count.saturating_add(1)
    };
    let put = lane.put(PacketId(count), Some(SECOND));
    same(rt, &put, &Put::At(last), count as usize);
}

#[test]
fn a_large_flow_is_limited(rt: HostRuntime) -> Result<(), Fail> {
    for (count, limited, drops) in [(200, true, 49), (200, false, 0), (270, true, 119)] {
        let mut lane = Lane::make(rt.alloc(), 300, 300, 0, limited)?;
        put_all(&rt, &mut lane, count, limited);
        same(&rt, &(lane.drops().len(), lane.pulled()), &(drops, 0), 0);
    }
    Ok(())
}

// Puts `total` packets to a limited lane, the first `large` of a large flow and the others of
// `hash`, which are all accepted, and then one more of the large flow, with the answer `last`.
fn fill(rt: &impl Abort, lane: &mut Lane, total: u32, large: u32, hash: Option<u32>, last: &Put)
    requires { put_count lane.old + total + 1 ≤ lane.old.room }
{
    for at in 0..total {
        let put = lane.put(PacketId(at), if at < large { Some(FIRST) } else { hash });
        same(rt, &put, &Put::At(at.saturating_add(1)), at as usize);
    }
    same(
        rt,
        &lane.put(PacketId(total), Some(FIRST)),
        last,
        total as usize,
    );
}

// The large flow has 130 of the last 256 offers that have a hash, though the last 200 have none.
#[test]
fn offers_without_a_hash_leave_the_window_as_it_is(rt: HostRuntime) -> Result<(), Fail> {
    let mut lane = Lane::make(rt.alloc(), 600, 330, 0, true)?;
    let last = Put::Dropped {
        number: 1,
        accepted: 329,
        pulled: 0,
        cause: DropCause::Flow(130),
    };
    fill(&rt, &mut lane, 329, 129, None, &last);
    Ok(())
}

// The last offer is the 129th of its flow, and 130 packets wait, which is the limit.
#[test]
fn a_full_backlog_is_the_cause_before_the_flow_limit(rt: HostRuntime) -> Result<(), Fail> {
    let mut lane = Lane::make(rt.alloc(), 130, 131, 0, true)?;
    let last = Put::Dropped {
        number: 1,
        accepted: 130,
        pulled: 0,
        cause: DropCause::Full,
    };
    fill(&rt, &mut lane, 130, 128, Some(SECOND), &last);
    Ok(())
}

// What is done to a lane, with the answer that is wanted.
enum Deed {
    Put(u32, Put),
    Take(Option<u32>),
}

const NO_WAIT: &[Deed] = &[
    Deed::Put(0, Put::At(1)),
    Deed::Put(
        1,
        Put::Dropped {
            number: 1,
            accepted: 1,
            pulled: 0,
            cause: DropCause::Full,
        },
    ),
    Deed::Take(Some(0)),
    Deed::Put(2, Put::At(2)),
];

const WRAPPING: &[Deed] = &[
    Deed::Put(7, Put::At(4294967295)),
    Deed::Put(9, Put::At(0)),
    Deed::Take(Some(7)),
];

fn number_of(packet: Option<PacketId>) -> Option<u32> {
    Some(packet?.0)
}

fn play(rt: &impl Abort, lane: &mut Lane, deeds: &[Deed])
    requires { put_count lane.old + length deeds.now ≤ lane.old.room }
{
    for (at, deed) in deeds.iter().enumerate() {
        match deed {
            Deed::Put(id, wanted) => {
                same(rt, &lane.put(PacketId(*id), None), wanted, at);
            }
            Deed::Take(wanted) => {
                same(rt, &number_of(lane.take()), wanted, at);
            }
        }
    }
}

#[test]
fn the_packet_in_hand_does_not_wait(rt: HostRuntime) -> Result<(), Fail> {
    let mut lane = Lane::make(rt.alloc(), 1, 8, 0, false)?;
    play(&rt, &mut lane, NO_WAIT);
    let drop = LaneDrop {
        id: PacketId(1),
        accepted: 1,
        pulled: 0,
        cause: DropCause::Full,
    };
    same_items(&rt, lane.drops(), &[drop]);
    same(&rt, &(lane.pulled(), lane.tail()), &(1, 2), 0);
    same(&rt, &lane.accepted_at(1), &Some(PacketId(2)), 1);
    same(&rt, &lane.accepted_at(2), &None, 2);
    Ok(())
}

#[test]
fn positions_go_on_across_the_wrap(rt: HostRuntime) -> Result<(), Fail> {
    let mut lane = Lane::make(rt.alloc(), 3, 3, 4294967294, false)?;
    same(&rt, &lane.tail(), &4294967294, 0);
    play(&rt, &mut lane, WRAPPING);
    same(&rt, &lane.tail(), &0, 1);
    same(&rt, &lane.take(), &Some(PacketId(9)), 2);
    same(&rt, &lane.take(), &None, 3);
    Ok(())
}
