//! Buckets of the flow limit: hashes that are equal in their low 12 bits share one, and no others.
ghost use Rattle.std.specs.Prelude.{◌+◌, ◌≤◌};
ghost use Rattle.backlog.specs.Puts.{put_count};

use crate::equal::same;
use backlog::Lane;
use std::process::Abort;
use std::test::Fail;
use steer_base::{DropCause, PacketId, Put};

/// The hash of the first flow of Microsoft's vectors, of bucket 178.
const FIRST: u32 = 0x51cc_c178;

/// The same but for bit 12, so of the same bucket.
const SHARING: u32 = 0x51cc_d178;

/// The same but for bit 11, so of bucket 978; the two are equal modulo 256.
const OTHER: u32 = 0x51cc_c978;

// Puts 128 packets of the first hash to an empty lane with the limit 200, and then one of each, of
// which none is taken. From the 129th on more than half of the limit waits, and whose bucket has
// more than 128 of the last offers is dropped.
fn flood(rt: &impl Abort, lane: &mut Lane)
    requires { put_count lane.old + 131 ≤ lane.old.room }
{
    for at in 0u32..128 {
        let put = lane.put(PacketId(at), Some(FIRST));
        same(rt, &put, &Put::At(at.saturating_add(1)), at as usize);
    }
    let dropped = Put::Dropped {
        number: 1,
        accepted: 128,
        pulled: 0,
        cause: DropCause::Flow(129),
    };
    same(rt, &lane.put(PacketId(128), Some(SHARING)), &dropped, 128);
    same(
        rt,
        &lane.put(PacketId(129), Some(OTHER)),
        &Put::At(129),
        129,
    );
    let dropped = Put::Dropped {
        number: 2,
        accepted: 129,
        pulled: 0,
        cause: DropCause::Flow(130),
    };
    same(rt, &lane.put(PacketId(130), Some(FIRST)), &dropped, 130);
}

#[test]
fn hashes_share_a_bucket_by_their_low_twelve_bits(rt: HostRuntime) -> Result<(), Fail> {
    let mut lane = Lane::make(rt.alloc(), 200, 131, 0, true)?;
    flood(&rt, &mut lane);
    same(&rt, &lane.drops().len(), &2, 0);
    Ok(())
}
