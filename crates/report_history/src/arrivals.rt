//! The arrivals of packets.
ghost use Rattle.std.specs.Prelude.{◌≡◌, ◌≤◌, ◌+◌, IfOk, drop, length};
ghost use Rattle.std.specs.List.{cons_option};
ghost use Rattle.steer_base.specs.declared.limits.TheConstants.{MAX_PACKETS};
ghost use Rattle.report_history.specs.Shown.{arrival_via, arrivals_from};

use history::{Arrival, Via};
use report_reader::SeenList;
use std::alloc::Global;
use steer_base::{OutOfMemory, PacketId, RxQueue};

// The arrival of a packet at a queue that a filter, or the redirection table, named.
fn arrival_via(id: PacketId, queue: RxQueue, via: Via) -> Arrival
    ensures { result ≡ arrival_via id queue via }
{
    let (filter, entry) = match via {
        Via::Filter => (Some(queue), None),
        Via::Reta => (None, Some(queue)),
        Via::Unhashed => (None, None),
    };
    Arrival {
        id,
        queue,
        filter,
        entry,
    }
}

// The arrival of the packet of this number, if there is one.
fn arrival_at(seen: &SeenList, x: usize) -> Option<Arrival>
    requires { length seen.now ≤ MAX_PACKETS }
    ensures { arrivals_from x (drop x seen.now)
        ≡ cons_option result (arrivals_from (x + 1) (drop (x + 1) seen.now)) }
{
    if x >= seen.len() {
        return None;
    }
    let line = seen.at(x);
    Some(arrival_via(PacketId(x as u32), line.packet.queue, line.packet.via))
}

/// The arrivals of the packets.
pub fn arrivals(alloc: Global, seen: &SeenList) -> Result<Vec<Arrival>, OutOfMemory>
    requires { length seen.now ≤ MAX_PACKETS }
    ensures { IfOk result (λ arrivals. arrivals.items ≡ arrivals_from 0 seen.now) }
{
    let mut arrivals = Vec::with_capacity(alloc, seen.len())?;
    for x in 0..seen.len() {
        if let Some(
            Arrival {
                id,
                queue,
                filter,
                entry,
            },
        ) = arrival_at(seen, x)
        {
            arrivals.push(Arrival {
                id,
                queue,
                filter,
                entry,
            })?;
        }
    }
    Ok(arrivals)
}
