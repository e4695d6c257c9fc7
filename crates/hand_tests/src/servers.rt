//! An application at the real boards, with worked steps, records, replies and choices.
use crate::offices::office_of;
use crate::serving::{Act, Line, accepted, noted, socket_word, transmitted, works};
use history::{Sent, SockWrite};
use std::test::Fail;
use steer_base::{Choice, Chosen, Cpu, PacketId, RxQueue, Why};

const NONE: Option<PacketId> = None;

const ZERO: Option<PacketId> = Some(PacketId(0));

const ONE: Option<PacketId> = Some(PacketId(1));

const TWO: Option<PacketId> = Some(PacketId(2));

// A record of a processor.
fn write(entry: u32, cpu: u8) -> SockWrite {
    SockWrite {
        entry,
        cpu: Cpu(cpu),
    }
}

// A reply to a packet.
fn sent(id: u32, queue: u8, cpu: u8) -> Sent {
    Sent {
        id: PacketId(id),
        rxq: RxQueue(queue),
        cpu: Cpu(cpu),
    }
}

// The choice of a lane for the first packet of a flow.
fn first(id: u32, flow: u32, lane: u8) -> Chosen {
    Chosen {
        id: PacketId(id),
        choice: Choice {
            class: Some(flow),
            head: None,
            tail: Some(0),
            want: Some(lane),
            lane,
            why: Why::Unset,
        },
    }
}

// The choice of lane 0 for a packet whose flow has a packet there at position 1, where lane 1 is
// wanted.
fn kept(id: u32, flow: u32) -> Chosen {
    Chosen {
        id: PacketId(id),
        choice: Choice {
            class: Some(flow),
            head: Some(0),
            tail: Some(1),
            want: Some(1),
            lane: 0,
            why: Why::Kept,
        },
    }
}

const SERVES: [Line; 8] = [
    (Act::Take, true, ZERO),
    (Act::Reply, true, NONE),
    (Act::Stand(1), true, NONE),
    (Act::Take, true, ONE),
    (Act::Reply, true, NONE),
    (Act::Take, true, TWO),
    (Act::Reply, true, NONE),
    (Act::Take, false, NONE),
];

// Flow 0 has hash 0x51ccc178 and so entry 376 of 1,024, and flow 2 has hash 0xc626b0ea and entry
// 234. All packets came by queue 0, which no map has, so the application's processor picks: lane 0
// at its home, and lane 1 once its word says processor 1, whose word in the table is 2. Packet 2 is
// of the flow of packet 0, which waits in lane 0.
#[test]
fn packets_are_recorded_and_replied_to(rt: HostRuntime) -> Result<(), Fail> {
    let alloc = rt.alloc();
    let mut office = office_of(&rt, alloc, &[0, 2, 0])?;
    works(&rt, &mut office, &SERVES);
    noted(
        &rt,
        &office,
        &[write(376, 0), write(234, 1), write(376, 1)],
        &[sent(0, 0, 0), sent(1, 0, 1), sent(2, 0, 1)],
        &[first(0, 0, 0), first(1, 1, 1), kept(2, 0)],
    );
    assert!(rt; socket_word(&mut office, 376) == 2);
    assert!(rt; socket_word(&mut office, 234) == 2);
    let lists = transmitted(&rt, alloc, office);
    assert!(rt; accepted(&lists, 0) == [PacketId(0), PacketId(2)].as_slice());
    assert!(rt; accepted(&lists, 1) == [PacketId(1)].as_slice());
    Ok(())
}

const KEEPS: [Line; 6] = [
    (Act::Take, true, ZERO),
    (Act::ReplyAtClosed, false, ZERO),
    (Act::ReplyAtClosed, false, ZERO),
    (Act::Take, false, ZERO),
    (Act::ReplyLate, true, NONE),
    (Act::Take, true, ONE),
];

// Packet 0 came by queue 0. At the closed gate it stays in hand, and no other is taken meanwhile.
// It is recorded once, by its entry 376, before packet 1 by its entry 234.
#[test]
fn a_packet_in_hand_waits_for_the_gate(rt: HostRuntime) -> Result<(), Fail> {
    let alloc = rt.alloc();
    let mut office = office_of(&rt, alloc, &[0, 2])?;
    works(&rt, &mut office, &KEEPS);
    noted(
        &rt,
        &office,
        &[write(376, 0), write(234, 0)],
        &[sent(0, 0, 0)],
        &[first(0, 0, 0)],
    );
    let lists = transmitted(&rt, alloc, office);
    assert!(rt; accepted(&lists, 0) == [PacketId(0)].as_slice());
    Ok(())
}

const LEAVES: [Line; 11] = [
    (Act::TakeAtClosed, false, NONE),
    (Act::TakeFromHeld, false, NONE),
    (Act::Mark(0, 0), true, NONE),
    (Act::Take, false, NONE),
    (Act::Mark(0, 1), true, NONE),
    (Act::Take, true, ZERO),
    (Act::Reply, true, NONE),
    (Act::TakeFromHeld, false, NONE),
    (Act::TakeAtClosed, false, NONE),
    (Act::Take, true, ONE),
    (Act::Reply, true, NONE),
];

// While the gate is closed or the inbox is held, and while the packet is not marked as steered,
// nothing is recorded and nothing is lost: both packets are taken afterwards, in order. All packets
// came by queue 0, which no map has, so processor 0 picks lane 0.
#[test]
fn a_packet_is_left_for_later(rt: HostRuntime) -> Result<(), Fail> {
    let alloc = rt.alloc();
    let mut office = office_of(&rt, alloc, &[0, 2])?;
    works(&rt, &mut office, &LEAVES);
    noted(
        &rt,
        &office,
        &[write(376, 0), write(234, 0)],
        &[sent(0, 0, 0), sent(1, 0, 0)],
        &[first(0, 0, 0), first(1, 1, 0)],
    );
    let lists = transmitted(&rt, alloc, office);
    assert!(rt; accepted(&lists, 0) == [PacketId(0), PacketId(1)].as_slice());
    Ok(())
}

const WAITS: [Line; 10] = [
    (Act::Queue(0, 0), true, NONE),
    (Act::Queue(1, 0), true, NONE),
    (Act::Stand(1), true, NONE),
    (Act::Take, true, ZERO),
    (Act::Reply, false, ZERO),
    (Act::Queue(0, 1), true, ZERO),
    (Act::Reply, true, NONE),
    (Act::Take, true, ONE),
    (Act::Reply, false, ONE),
    (Act::ReplyLate, true, NONE),
];

// The queue of packet 0 is known by its word: queue 0, which no map has, so processor 1 picks lane
// 1. That of packet 1 has no word, and is known by the arrivals: queue 1, in the map of lane 0.
#[test]
fn a_reply_waits_for_the_packets_queue(rt: HostRuntime) -> Result<(), Fail> {
    let alloc = rt.alloc();
    let mut office = office_of(&rt, alloc, &[0, 2])?;
    works(&rt, &mut office, &WAITS);
    noted(
        &rt,
        &office,
        &[write(376, 1), write(234, 1)],
        &[sent(0, 0, 1), sent(1, 1, 1)],
        &[first(0, 0, 1), first(1, 1, 0)],
    );
    let lists = transmitted(&rt, alloc, office);
    assert!(rt; accepted(&lists, 0) == [PacketId(1)].as_slice());
    assert!(rt; accepted(&lists, 1) == [PacketId(0)].as_slice());
    Ok(())
}

const RESTS: [Line; 2] = [(Act::Take, false, NONE), (Act::ReplyLate, false, NONE)];

// Flow 1 has an odd hash, so its packet is in the inbox of application 1.
#[test]
fn an_empty_inbox_gives_nothing(rt: HostRuntime) -> Result<(), Fail> {
    let alloc = rt.alloc();
    let mut office = office_of(&rt, alloc, &[1])?;
    works(&rt, &mut office, &RESTS);
    noted(&rt, &office, &[], &[], &[]);
    assert!(rt; socket_word(&mut office, 639) == 0);
    let lists = transmitted(&rt, alloc, office);
    assert!(rt; accepted(&lists, 0).is_empty() && accepted(&lists, 1).is_empty());
    Ok(())
}
