//! How far the packets of a history have come.
use history::{History, LaneList};
use std::process::Abort;
use steer_base::List;

/// How many packets of a run were delivered and dropped, and how many replies were begun and left
/// through the port.
#[derive(Clone, Copy, Debug, PartialEq, Eq)]
struct Counts {
    delivered: usize,
    dropped: usize,
    begun: usize,
    left: usize,
}

fn item_count<T>(lists: &[List<T>]) -> usize {
    let mut count = 0usize;
    for list in lists {
        count = count.saturating_add(list.len());
    }
    count
}

fn drop_count(lanes: &[LaneList]) -> usize {
    let mut count = 0usize;
    for lane in lanes {
        count = count.saturating_add(lane.drops.len());
    }
    count
}

fn counts_of(h: &History) -> Counts {
    Counts {
        delivered: item_count(h.inboxes.as_slice()),
        dropped: drop_count(h.lanes.as_slice()),
        begun: item_count(h.sent.as_slice()),
        left: h.port.len(),
    }
}

/// Asserts that each of so many packets was delivered or dropped, and that as many replies left as
/// packets were delivered.
pub fn all_came_through(rt: &impl Abort, h: &History, packets: usize) {
    let got = counts_of(h);
    let wanted = Counts {
        delivered: packets.saturating_sub(got.dropped),
        begun: got.delivered,
        left: got.delivered,
        ..got
    };
    assert!(rt;
        got == wanted && got.dropped <= packets,
        "{got:?} of {packets}"
    );
}
