//! Which histories are regular.
ghost use Rattle.std.specs.Prelude.{◌≤◌};

use crate::histories::{
    PLAIN, chosen, classed, ids, lane, lanes, none, one, replied, segments, two,
};
use history::{Commanded, History, LaneList, Sent};
use history_check::is_regular;
use std::alloc::Global;
use std::process::Abort;
use steer_base::{
    Answer, Choice, Chosen, Command, Cpu, DropCause, Idle, LaneDrop, List, Packet, PacketId,
    RxQueue, Why,
};

// What is wrong in a history.
#[derive(Clone, Copy, Debug)]
enum Fault {
    MoreTakenThanArrived,
    OtherLaneChosen,
    AlsoDropped,
    TwiceDelivered,
    NotDelivered,
    OtherQueue,
    NoClass,
    NoWant,
    NotChosen,
    NotQueued,
    NoText,
    MoreInboxes,
}

// The lanes of three processors, of which the second accepted packet 0 and dropped it.
fn lanes_with_a_drop(rt: &impl Abort, alloc: Global) -> List<LaneList> {
    let fallen = LaneDrop {
        id: PacketId(0),
        accepted: 1,
        pulled: 0,
        cause: DropCause::Full,
    };
    let mut second = lane(rt, alloc, &[0], 1);
    second.drops = one(rt, alloc, fallen);
    lanes(rt, alloc, 3, second, lane(rt, alloc, &[], 0))
}

// A list of the one choice for packet 0.
fn one_choice(rt: &impl Abort, alloc: Global, choice: Choice) -> List<List<Chosen>> {
    one(rt, alloc, chosen(rt, alloc, &[choice]))
}

// A list of the one reply to packet 0, of a queue.
fn sent_from(rt: &impl Abort, alloc: Global, rxq: RxQueue) -> List<List<Sent>> {
    let reply = Sent {
        id: PacketId(0),
        rxq,
        cpu: Cpu(2),
    };
    one(rt, alloc, one(rt, alloc, reply))
}

// A command with an answer that a report cannot show.
fn idle_command(rt: &impl Abort, alloc: Global) -> List<Commanded> {
    let commanded = Commanded {
        command: Command::Expire,
        answer: Answer::Idle(Idle::Nothing),
    };
    one(rt, alloc, commanded)
}

// The history of one packet with this fault.
fn faulty(rt: &impl Abort, alloc: Global, fault: Fault) -> History {
    let first = classed(Some(0), None, 0, 0, Why::Unset);
    let mut h = replied(rt, alloc, 0);
    match fault {
        Fault::MoreTakenThanArrived => h.taken = one(rt, alloc, 2),
        Fault::OtherLaneChosen => {
            h.choices = one_choice(rt, alloc, Choice { lane: 2, ..PLAIN });
        }
        Fault::AlsoDropped => h.lanes = lanes_with_a_drop(rt, alloc),
        Fault::TwiceDelivered => h.inboxes = one(rt, alloc, ids(rt, alloc, &[0, 0])),
        Fault::NotDelivered => h.inboxes = one(rt, alloc, none(alloc)),
        Fault::OtherQueue => h.sent = sent_from(rt, alloc, RxQueue(1)),
        Fault::NoClass => {
            let choice = Choice {
                class: None,
                ..first
            };
            h.tx_choices = one_choice(rt, alloc, choice);
        }
        Fault::NoWant => {
            let choice = Choice {
                want: None,
                ..first
            };
            h.tx_choices = one_choice(rt, alloc, choice);
        }
        Fault::NotChosen => h.tx_choices = one(rt, alloc, none(alloc)),
        Fault::NotQueued => h.tx_lanes = one(rt, alloc, lane(rt, alloc, &[], 0)),
        Fault::NoText => h.commands = idle_command(rt, alloc),
        Fault::MoreInboxes => {
            h.inboxes = two(rt, alloc, ids(rt, alloc, &[0]), none(alloc));
        }
    }
    h
}

fn has_passed(rt: &impl Abort, alloc: Global, h: &History, packets: &[Packet], apps: u8) -> bool
    requires { 1 ≤ apps }
{
    assert!(rt; packets.len() <= 262_144);
    is_regular(alloc, h, packets, apps).expect(rt, "memory")
}

#[test]
fn each_fault_is_irregular(rt: HostRuntime) {
    let alloc = rt.alloc();
    let packets = segments(&rt, alloc, 1);
    let whole = replied(&rt, alloc, 0);
    assert!(&rt; has_passed(&rt, alloc, &whole, &packets, 1));
    assert!(&rt; !has_passed(&rt, alloc, &whole, &packets, 2));
    assert!(&rt; !has_passed(&rt, alloc, &whole, &[], 1));
    let faults = [
        Fault::MoreTakenThanArrived,
        Fault::OtherLaneChosen,
        Fault::AlsoDropped,
        Fault::TwiceDelivered,
        Fault::NotDelivered,
        Fault::OtherQueue,
        Fault::NoClass,
        Fault::NoWant,
        Fault::NotChosen,
        Fault::NotQueued,
        Fault::NoText,
        Fault::MoreInboxes,
    ];
    for fault in faults {
        let h = faulty(&rt, alloc, fault);
        assert!(&rt; !has_passed(&rt, alloc, &h, &packets, 1), "{fault:?}");
    }
}
