//! Which clause of a good history fails first, of a small history and of ones in which one thing is
//! another.
ghost use Rattle.std.specs.Prelude.{◌≤◌, length};
ghost use Rattle.steer_base.specs.declared.limits.TheConstants.{MAX_PACKETS};
ghost use Rattle.steer_model.specs.State.Ranges.{AreOfFlows};

use crate::equal::same;
use crate::histories::{
    FULL, arrival, first, first_sent, good, ids, lanes, list, one, reply, second, second_sent,
    third, turned, write,
};
use good_check::first_fault;
use history::{Arrival, Commanded, History};
use history_check::is_regular;
use pcap_reader::{put_header, put_packet, read_capture};
use plan_reader::{Plan, read_plan};
use std::alloc::Global;
use std::process::Abort;
use std::test::Fail;
use steer_base::{Answer, Choice, Chosen, Command, LaneDrop, List, OutOfMemory, Packet, Why};
use steer_model::packets;
use toeplitz::{Kinds, verification_key};

// A TCP frame of a published verification flow: 66.9.149.187 port 2794 to 161.142.100.80 port
// 1766. Its hash is 0x51ccc178, which is 0 modulo 4.
const FRAME: [u8; 38] = [
    0, 0, 0, 0, 0, 0, 0, 0, 0, 0, 0, 0, 0x08, 0x00, 0x45, 0, 0, 24, 0, 0, 0, 0, 64, 6, 0, 0, 66, 9,
    149, 187, 161, 142, 100, 80, 0x0a, 0xea, 0x06, 0xe6,
];

// One queue that sends to processor 1, with one class; an application on processor 0; a backlog for
// one packet.
const PLAN: &[u8] = br#"{"cpus":2,"queues":[{"home":0,"mask":[1],"flows":1}],"sock":4,
"backlog":1,"apps":[0],"tx":[{"cpus":[],"queues":[]}],"steps":[]}"#;

// What is another in the history.
#[derive(Clone, Copy, Debug)]
enum Change {
    Nothing,
    TotalOfMore,
    NoEntry,
    OtherReason,
    UnwrittenWant,
    HeadBeyondRetired,
    PulledBeforeDrop,
    NotDelivered,
    InboxTurned,
    NotRetired,
    OtherWriter,
    Commanded,
    OtherSender,
    OtherPick,
    PortTurned,
}

// A choice that keeps another want.
fn wanting(chosen: Chosen, want: u8) -> Chosen {
    Chosen {
        choice: Choice {
            want: Some(want),
            ..chosen.choice
        },
        ..chosen
    }
}

// The choices, of which these are the first two.
fn choices(rt: &impl Abort, alloc: Global, first: Chosen, second: Chosen) -> List<List<Chosen>> {
    one(rt, alloc, list(rt, alloc, &[first, second, third()]))
}

fn changed(rt: &impl Abort, alloc: Global, change: Change) -> History {
    let mut h = good(rt, alloc);
    match change {
        Change::Nothing => {}
        Change::TotalOfMore => h.total = 4,
        Change::NoEntry => {
            let unled = Arrival {
                entry: None,
                ..arrival(0)
            };
            h.arrivals = list(rt, alloc, &[unled, arrival(1), arrival(2)]);
        }
        Change::OtherReason => {
            let choice = Choice {
                why: Why::Offline,
                ..first().choice
            };
            h.choices = choices(rt, alloc, Chosen { choice, ..first() }, second());
        }
        Change::UnwrittenWant => h.choices = choices(rt, alloc, wanting(first(), 1), second()),
        Change::HeadBeyondRetired => {
            let choice = Choice {
                head: Some(2),
                ..second().choice
            };
            h.choices = choices(rt, alloc, first(), Chosen { choice, ..second() });
        }
        Change::PulledBeforeDrop => {
            h.lanes = lanes(rt, alloc, LaneDrop { pulled: 1, ..FULL }, 1, 1);
        }
        Change::NotDelivered => h.lanes = lanes(rt, alloc, FULL, 1, 0),
        Change::InboxTurned => h = turned(rt, alloc),
        Change::NotRetired => h.lanes = lanes(rt, alloc, FULL, 0, 1),
        Change::OtherWriter => {
            h.writes = one(rt, alloc, list(rt, alloc, &[write(0), write(1)]));
        }
        Change::Commanded => {
            let given = Commanded {
                command: Command::Expire,
                answer: Answer::Expired(0),
            };
            h.commands = list(rt, alloc, &[given]);
        }
        Change::OtherSender => {
            h.sent = one(rt, alloc, list(rt, alloc, &[reply(0, 0), reply(1, 1)]));
        }
        Change::OtherPick => {
            let sent = [first_sent(), wanting(second_sent(), 1)];
            h.tx_choices = one(rt, alloc, list(rt, alloc, &sent));
        }
        Change::PortTurned => h.port = ids(rt, alloc, &[1, 0]),
    }
    h
}

// The first clause that a history fails, which has to be regular.
fn first_failed(
    rt: &impl Abort,
    alloc: Global,
    plan: &Plan,
    packets: &[Packet],
    h: &History,
) -> Option<u8>
    requires few { length packets.now ≤ MAX_PACKETS }
    requires flows { AreOfFlows packets.now }
{
    let apps = plan.apps.len() as u8;
    assert!(rt; is_regular(alloc, h, packets, apps).expect(rt, "memory"));
    assert!(rt; plan.commands().is_empty());
    first_fault(alloc, plan, packets, None, h).expect(rt, "memory")
}

// The bytes of a capture of so many of these frames.
fn captured(alloc: Global, count: u32) -> Result<Vec<u8>, OutOfMemory> {
    let mut bytes = Vec::new(alloc);
    put_header(&mut bytes)?;
    for _ in 0..count {
        put_packet(&mut bytes, 0, 0, &FRAME)?;
    }
    Ok(bytes)
}

const CLAUSES: [(Change, Option<u8>); 15] = [
    (Change::TotalOfMore, Some(1u8)),
    (Change::NoEntry, Some(2)),
    (Change::OtherReason, Some(3)),
    (Change::UnwrittenWant, Some(4)),
    (Change::HeadBeyondRetired, Some(5)),
    (Change::PulledBeforeDrop, Some(6)),
    (Change::NotDelivered, Some(7)),
    (Change::InboxTurned, Some(7)),
    (Change::NotRetired, Some(8)),
    (Change::OtherWriter, Some(9)),
    (Change::Commanded, Some(10)),
    (Change::OtherSender, Some(11)),
    (Change::OtherPick, Some(11)),
    (Change::PortTurned, Some(11)),
    (Change::Nothing, None),
];

#[test]
fn each_clause_fails_for_its_own_reason(rt: HostRuntime) -> Result<(), Fail> {
    let alloc = rt.alloc();
    let bytes = captured(alloc, 3)?;
    let capture = read_capture(alloc, &bytes)?;
    let found = packets(alloc, &capture, &bytes, &verification_key(), Kinds(2))?;
    let plan = read_plan(alloc, PLAN)?;
    for &(change, wanted) in &CLAUSES {
        let h = changed(&rt, alloc, change);
        let failed = first_failed(&rt, alloc, &plan, &found, &h);
        same(&rt, &failed, &wanted, usize::from(wanted.unwrap_or(0)));
    }
    Ok(())
}
