//! Filters as values: which one a packet writes, and when it may expire.
ghost use Rattle.std.specs.Prelude.{◌≡◌, ◌<◌, ◌≤◌, IfSome, length};
ghost use Rattle.steer_base.specs.Filters.{filter_written, home_queue, may_expire};
ghost use Rattle.steer_base.specs.declared.limits.TheConstants.{MAX_FLOW_COUNT};

use steer_base::{Cpu, Filter, RxQueue, Why, reached};

/// The filter that is written for a packet which processor `cpu` accepted at position `accepted`, a
/// wrapping counter number. There is one if the choice `why` moved the packet's class and `cpu` is
/// the home of a receive queue (kernel scaling chapter, section accelerated RFS); it names the
/// lowest such queue. `homes` has the home processor of each receive queue, in order.
pub fn filter_written(homes: &[Cpu], why: Why, cpu: Cpu, accepted: u32) -> Option<Filter>
    requires { length homes.now ≤ 32 }
    ensures { result ≡ filter_written homes.now why cpu accepted }
{
    if !why.moved() {
        return None;
    }
    let queue = home_queue(homes, cpu)?;
    Some(Filter {
        queue: RxQueue(queue as u8),
        cpu,
        mark: accepted,
    })
}

// The lowest receive queue whose home is this processor.
fn home_queue(homes: &[Cpu], cpu: Cpu) -> Option<usize>
    ensures value { result ≡ home_queue homes.now cpu }
    ensures within { IfSome result (λ queue. queue < length homes.now) }
{
    homes.iter().position(|home| *home == cpu)
}

/// Whether a filter may expire: `head`, the head of its processor, is at least ten times the flow
/// count less one past the filter's mark. `entries` is the flow count of the queue that the filter
/// names; 0 counts as 1. Heads and marks are wrapping counter numbers.
pub fn may_expire(filter: Filter, head: u32, entries: u32) -> bool
    requires { entries ≤ MAX_FLOW_COUNT }
    ensures { result ≡ may_expire filter head entries }
{
    reached(head, filter.mark, 10 * (entries.max(1) - 1))
}
