//! The bucket of a packet's hash, and the cause for which a packet is dropped.
ghost use Rattle.std.specs.Prelude.{◌≡◌, ◌<◌};
ghost use Rattle.std.specs.Option.{ForSome};
ghost use Rattle.steer_base.specs.Drops.{bucket_of, cause_by};
ghost use Rattle.steer_base.specs.declared.limits.TheConstants.{FLOW_LIMIT_BUCKETS};

use steer_base::{DropCause, FLOW_LIMIT_BUCKETS};

/// The most of the last offers that a bucket may have before the flow limit drops its packets: half
/// of the window.
const MOST_OFFERS: u32 = 128;

/// The flow limit's bucket of a packet with this hash (kernel scaling chapter, section RPS flow
/// limit): the hash modulo 4,096, or none without a hash.
pub fn bucket_of(hash: Option<u32>) -> Option<u16>
    ensures bucket { result ≡ bucket_of hash }
    ensures within { ForSome result (λ bucket. bucket < FLOW_LIMIT_BUCKETS) }
{
    match hash {
        None => None,
        Some(hash) => Some((hash % FLOW_LIMIT_BUCKETS) as u16),
    }
}

/// The cause for which a lane drops a packet, or none if it accepts it. `waiting` packets wait, and
/// `count` of the last 256 offers with a hash have the packet's bucket, itself included, as
/// `Offers::note` returns it. A full lane drops every packet; a lane with the flow limit drops a
/// packet if more than half of its limit waits and `count` is over 128.
pub fn drop_cause(limited: bool, limit: u32, waiting: u32, count: Option<u32>) -> Option<DropCause>
    ensures { result ≡ cause_by limited limit waiting count }
{
    if waiting == limit {
        return Some(DropCause::Full);
    }
    match count {
        Some(count)
            if limited && 2 * u64::from(waiting) > u64::from(limit) && count > MOST_OFFERS => {
            Some(DropCause::Flow(count))
        }
        _ => None,
    }
}
