//! The filters of a network card: how they are written, found and expired.
ghost use Rattle.std.specs.Prelude.{◌≤◌};
ghost use Rattle.steer_base.specs.declared.limits.TheConstants.{MAX_FLOW_COUNT};

use crate::equal::same;
use accel_filter::{FilterTable, filter_written};
use std::alloc::Global;
use std::process::Abort;
use std::test::Fail;
use steer_base::{Cpu, Filter, MAX_FLOW_COUNT, RxQueue, Why};

const MOVES: [(Why, u8, Option<(u8, u8)>); 7] = [
    (Why::Unset, 1, Some((1, 1))),
    (Why::Offline, 2, Some((0, 2))),
    (Why::Passed, 1, Some((1, 1))),
    // No queue has its home here.
    (Why::Passed, 3, None),
    // The class did not move.
    (Why::Same, 1, None),
    (Why::Kept, 1, None),
    (Why::Plain, 1, None),
];

#[test]
fn a_move_to_a_home_writes_a_filter(rt: HostRuntime) {
    let homes = [Cpu(2), Cpu(1), Cpu(1)];
    for &(why, cpu, wanted) in &MOVES {
        let found = filter_written(&homes, why, Cpu(cpu), 9);
        same(&rt, &(why, found), &(why, filter_of(wanted)), cpu as usize);
    }
}

// The filter of a queue and a processor, with the mark 9.
fn filter_of(row: Option<(u8, u8)>) -> Option<Filter> {
    let (queue, cpu) = row?;
    Some(filter(queue, cpu, 9))
}

const HASH: u32 = 0x51cc_c178;

/// What is done to a table of 128 filters, with the answer that is wanted.
enum Deed {
    /// This hash is steered to processor 1, the home of queue 1, with this mark.
    Steer(u32, u32),
    /// The mark of the filter that is found for a hash.
    Look(u32, Option<u32>),
    /// The first filter from this one on.
    Next(u32, Option<u32>),
    /// Whether this filter goes at this head, with one entry.
    Expire(u32, u32, bool),
}

// Two packets of one flow are accepted at processor 1, home of queue 1; the hash is 120 modulo 128.
const DEEDS: &[Deed] = &[
    Deed::Look(HASH, None),
    Deed::Steer(HASH, 1),
    Deed::Steer(HASH, 2),
    Deed::Look(HASH + 128, Some(2)),
    Deed::Look(HASH + 1, None),
    Deed::Next(0, Some(120)),
    Deed::Next(121, None),
    // Nothing was pulled, so no filter goes.
    Deed::Expire(120, 0, false),
    Deed::Expire(121, 0, false),
    // Both were pulled, so this one goes, and once.
    Deed::Expire(120, 2, true),
    Deed::Expire(121, 2, false),
    Deed::Expire(120, 2, false),
    Deed::Look(HASH, None),
    Deed::Next(0, None),
];

fn filter(queue: u8, cpu: u8, mark: u32) -> Filter {
    Filter {
        queue: RxQueue(queue),
        cpu: Cpu(cpu),
        mark,
    }
}

fn act(rt: &impl Abort, table: &mut FilterTable, deed: &Deed, case: usize) {
    match *deed {
        Deed::Steer(hash, mark) => table.steer(hash, filter(1, 1, mark)),
        Deed::Look(hash, wanted) => {
            let wanted = match wanted {
                Some(mark) => Some(filter(1, 1, mark)),
                None => None,
            };
            same(rt, &table.look(hash), &wanted, case);
        }
        Deed::Next(from, wanted) => same(rt, &table.next_set(from), &wanted, case),
        Deed::Expire(place, head, wanted) => {
            assert!(rt; place < table.count());
            same(rt, &table.expire(place, head, 1), &wanted, case);
        }
    }
}

#[test]
fn a_filter_goes_when_its_packets_have_gone(rt: HostRuntime) -> Result<(), Fail> {
    let mut table = FilterTable::make(rt.alloc(), 128)?;
    same(&rt, &table.count(), &128, 0);
    for (deed, case) in DEEDS.iter().zip(1..) {
        act(&rt, &mut table, deed, case);
    }
    Ok(())
}

// Whether the one filter, with the mark 4294967295, expires at this head, and whether it is then
// gone.
fn goes(alloc: Global, head: u32, entries: u32) -> Result<(bool, bool), Fail>
    requires { entries ≤ MAX_FLOW_COUNT }
{
    let mut table = FilterTable::make(alloc, 1)?;
    table.steer(HASH, filter(0, 0, 4294967295));
    let expired = table.expire(0, head, entries);
    Ok((expired, table.look(HASH).is_none()))
}

const MARKS: [(u32, u32, bool); 9] = [
    (4294967294u32, 1u32, false),
    (4294967295, 0, true),
    (0, 1, true),
    // With two entries the head must be ten past the mark: at 9.
    (0, 2, false),
    (8, 2, false),
    (9, 2, true),
    (9, 3, false),
    // Half of the number range past the mark is behind it.
    (2147483646, 1, true),
    (2147483647, 1, false),
];

#[test]
fn marks_wrap(rt: HostRuntime) -> Result<(), Fail> {
    // The counters start at 4294967294, so the first accepted packet is at 4294967295.
    for &(head, entries, wanted) in &MARKS {
        assert!(rt; entries <= MAX_FLOW_COUNT);
        let gone = goes(rt.alloc(), head, entries)?;
        same(
            &rt,
            &(head, entries, gone),
            &(head, entries, (wanted, wanted)),
            0,
        );
    }
    Ok(())
}

#[test]
fn no_filters(rt: HostRuntime) -> Result<(), Fail> {
    let mut table = FilterTable::make(rt.alloc(), 0)?;
    table.steer(HASH, filter(1, 1, 1));
    same(&rt, &table.look(HASH), &None, 0);
    Ok(())
}
