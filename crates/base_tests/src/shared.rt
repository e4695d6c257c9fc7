//! What the shared names and types do, by values that were worked out by hand.
use crate::equal::{same, same_items};
use std::test::Fail;
use steer_base::{
    AppId, Cpu, CpuMask, Journal, Journals, List, RxQueue, Why, app_of, decimal_number,
    even_entries, place_of_hash, reached, remainder, round_up,
};

#[test]
fn bit_c_is_processor_c(rt: HostRuntime) {
    let mask = CpuMask(0x8000_0002);
    assert!(rt; mask.has(1) && mask.has(31));
    assert!(rt; !mask.has(0) && !mask.has(30) && !mask.has(32) && !mask.has(255));
    assert!(rt; mask.len() == 2);
    assert!(rt; mask.lowest() == Cpu(1) && mask.nth(1) == Cpu(31));
    assert!(rt; !mask.is_empty() && CpuMask(0).is_empty());
}

#[test]
fn sets_are_made(rt: HostRuntime) {
    same(&rt, &CpuMask::first_n(0), &CpuMask(0), 0);
    same(&rt, &CpuMask::first_n(3), &CpuMask(0b111), 1);
    same(&rt, &CpuMask::first_n(32), &CpuMask(0xffff_ffff), 2);
    let some = CpuMask::from_cpus(&[Cpu(3), Cpu(31), Cpu(0), Cpu(3), Cpu(32)]);
    same(&rt, &some, &CpuMask(0x8000_0009), 3);
    same(&rt, &some.with(Cpu(1)), &CpuMask(0x8000_000b), 4);
    same(&rt, &some.without(Cpu(31)), &CpuMask(0b1001), 5);
    same(&rt, &some.without(Cpu(1)), &some, 6);
}

const HEADS: [(u32, u32, u32, bool); 9] = [
    (0u32, 0u32, 0u32, true),
    (4294967294, 4294967295, 0, false),
    (4294967294, 0, 0, false),
    (1, 1, 0, true),
    (1, 4294967294, 3, true),
    (1, 4294967294, 4, false),
    (0, 4294967295, 1, true),
    (2147483647, 0, 400000, true),
    (2147483648, 0, 0, false),
];

#[test]
fn a_head_reaches_a_tail_across_the_wrap(rt: HostRuntime) {
    for &(head, tail, more, wanted) in &HEADS {
        assert!(rt; more <= 400000);
        same(
            &rt,
            &(head, tail, reached(head, tail, more)),
            &(head, tail, wanted),
            more as usize,
        );
    }
}

const SIZES: [(u32, u32); 7] = [
    (0u32, 0u32),
    (1, 1),
    (3, 4),
    (256, 256),
    (257, 512),
    (32767, 32768),
    (65536, 65536),
];

#[test]
fn sizes_are_rounded_up(rt: HostRuntime) {
    for &(given, wanted) in &SIZES {
        assert!(rt; given <= 65536);
        same(&rt, &round_up(given), &wanted, given as usize);
    }
}

const DIGITS: [(&str, Option<u128>); 8] = [
    ("0", Some(0u128)),
    ("007", Some(7)),
    ("1234567890", Some(1_234_567_890)),
    ("12345678901", None),
    ("", None),
    ("+1", None),
    ("1 ", None),
    ("0x1", None),
];

#[test]
fn digits_make_a_number(rt: HostRuntime) {
    for &(text, wanted) in &DIGITS {
        same(
            &rt,
            &(text, decimal_number(text.as_bytes(), 10)),
            &(text, wanted),
            0,
        );
    }
    same(
        &rt,
        &decimal_number(b"99999999999999999999", 20),
        &Some(99_999_999_999_999_999_999),
        1,
    );
}

const PLACES: [(Option<u32>, u32, Option<u32>); 5] = [
    (Some(0x51cc_c178u32), 128u32, Some(120u32)),
    (Some(4294967295), 4096, Some(4095)),
    (Some(7), 1, Some(0)),
    (Some(7), 0, None),
    (None, 8, None),
];

#[test]
fn a_hash_has_a_place(rt: HostRuntime) {
    for &(hash, size, place) in &PLACES {
        same(
            &rt,
            &(hash, place_of_hash(hash, size)),
            &(hash, place),
            size as usize,
        );
    }
}

#[test]
fn divisions_leave_a_remainder(rt: HostRuntime) {
    same(&rt, &remainder(0x51cc_c178, 128), &120, 0);
    same(&rt, &remainder(4_294_967_295, 10), &5, 1);
    same(
        &rt,
        &remainder(4_294_967_295, 2_147_483_648),
        &2_147_483_647,
        2,
    );
    same(&rt, &remainder(7, 1), &0, 3);
}

#[test]
fn a_hash_names_an_application(rt: HostRuntime) {
    same(&rt, &app_of(Some(0x51cc_c178), 32), &AppId(24), 0);
    same(&rt, &app_of(Some(7), 1), &AppId(0), 1);
    same(&rt, &app_of(None, 5), &AppId(0), 2);
}

#[test]
fn queues_get_entries_in_turn(rt: HostRuntime) {
    let entries = even_entries(3);
    let cases = [(0usize, 0u8), (5, 2), (127, 1)];
    for (place, queue) in cases {
        same(
            &rt,
            &entries.as_slice().get(place),
            &Some(&RxQueue(queue)),
            place,
        );
    }
}

#[test]
fn a_class_moves_by_three_cases(rt: HostRuntime) {
    let moving = [Why::Unset, Why::Offline, Why::Passed];
    let staying = [Why::Plain, Why::Same, Why::Kept];
    for why in moving {
        assert!(rt; why.moved());
    }
    for why in staying {
        assert!(rt; !why.moved());
    }
}

#[test]
fn a_journal_grows_at_its_end(rt: HostRuntime) -> Result<(), Fail> {
    let mut journal = Journal::make(rt.alloc(), 3)?;
    journal.push(7u32);
    journal.push(5);
    same(&rt, &(journal.len(), journal.room()), &(2, 3), 0);
    same(&rt, &journal.get(1), &Some(5), 1);
    same(&rt, &journal.get(2), &None, 2);
    same_items(&rt, journal.as_slice(), &[7, 5]);
    same_items(&rt, &journal.into_vec(), &[7, 5]);
    Ok(())
}

#[test]
fn each_list_grows_at_its_end(rt: HostRuntime) -> Result<(), Fail> {
    let mut lists = Journals::make(rt.alloc(), 2, 2)?;
    lists.push(1, 7u32);
    lists.push(1, 5);
    lists.push(0, 9);
    same(&rt, &(lists.count(), lists.room()), &(2, 2), 0);
    same(&rt, &(lists.len_of(0), lists.len_of(1)), &(1, 2), 1);
    same(&rt, &(lists.get(1, 0), lists.get(1, 1)), &(7, 5), 2);
    same_items(&rt, lists.list(0), &[9]);
    Ok(())
}

#[test]
fn a_list_has_the_items_of_its_vector(rt: HostRuntime) -> Result<(), Fail> {
    let list = List::from_vec([7u32, 5].to_vec(rt.alloc())?);
    same(&rt, &list.len(), &2, 0);
    same(&rt, list.get(1), &5, 1);
    same_items(&rt, list.as_slice(), &[7, 5]);
    same_items(&rt, &list.into_vec(), &[7, 5]);
    Ok(())
}
