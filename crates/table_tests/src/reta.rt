//! The redirection table, by hashes of published verification flows.
use crate::equal::same;
use rss_table::{EntryRange, Reta};
use steer_base::RxQueue;

#[test]
fn spreads_hashes_over_the_queues(rt: HostRuntime) {
    for (queues, hash, queue) in [
        (4, Some(0x51ccc178), 0),
        (4, Some(0x323e8fc2), 2),
        (16, Some(0xc626b0ea), 10),
        (16, None, 0),
        (1, Some(0xffff_ffff), 0),
    ] {
        let table = Reta::even(queues);
        let found = table.queue(hash);
        same(
            &rt,
            &(queues, hash, found),
            &(queues, hash, RxQueue(queue)),
            0,
        );
    }
}

#[test]
fn moves_one_entry(rt: HostRuntime) {
    let mut table = Reta::even(4);
    same(&rt, &table.set(120, RxQueue(3)), &Ok(()), 0);
    same(&rt, &table.set(128, RxQueue(0)), &Err(EntryRange), 1);
    same(&rt, &table.set(66, RxQueue(4)), &Err(EntryRange), 2);
    same(&rt, &table.queue(Some(0x51ccc178)), &RxQueue(3), 3);
    same(&rt, &table.queue(Some(0x323e8fc2)), &RxQueue(2), 4);
    same(&rt, &table.queue(None), &RxQueue(0), 5);
    let other = Reta::from_entries(3, &[RxQueue(2); 128]);
    same(&rt, &other.queue(Some(5)), &RxQueue(2), 6);
}
