//! Tables that are asked and told as a queue does with its packets.
ghost use Rattle.std.specs.Prelude.{◌≡◌};
ghost use Rattle.dev_flow_table.specs.Tables.{IsClassOf};

use crate::equal::same;
use dev_flow_table::DevTable;
use std::process::Abort;
use std::test::Fail;
use steer_base::{Choice, CpuMask, Why};

// The hashes of the flow 66.9.149.187:2794 to 161.142.100.80:1766 and of its neighbour in
// Microsoft's vectors, both TCP.
const FIRST: u32 = 0x51cc_c178;

const SECOND: u32 = 0xc626_b0ea;

const ALL: CpuMask = CpuMask(0b1111);

const WITHOUT_1: CpuMask = CpuMask(0b1101);

// A packet that comes to a queue, what is seen for it, and what has to be chosen.
struct Turn {
    hash: u32,
    want: Option<u8>,
    desired: u8,
    heads: [u32; 4],
    online: CpuMask,
    head: Option<u32>,
    tail: u32,
    lane: u8,
    why: Why,
    position: u32,
}

// What a caller does: it looks at the head of the current lane where that lane is online and not
// the desired one.
fn weigh(table: &mut DevTable, class: u32, turn: &Turn) -> Choice
    requires { IsClassOf table.old (Some class) }
    ensures { table.new.exact ≡ table.old.exact }
{
    let current = table.current(class);
    let seen = match current {
        Some(lane) if lane != turn.desired && turn.online.has(lane) => {
            Some(*turn.heads.get(lane as usize).unwrap_or(&0))
        }
        _ => None,
    };
    let choice = table.weigh(Some(class), turn.want, turn.desired, seen, turn.online);
    table.accepted(class, turn.position);
    choice
}

// The choice that is wanted of a turn.
fn wanted(class: u32, turn: &Turn) -> Choice {
    Choice {
        class: Some(class),
        want: turn.want,
        head: turn.head,
        tail: Some(turn.tail),
        lane: turn.lane,
        why: turn.why,
    }
}

fn play(rt: &impl Abort, table: &mut DevTable, turns: &[Turn]) -> Result<(), Fail>
    ensures { table.new.exact ≡ table.old.exact }
{
    for (at, turn) in turns.iter().enumerate() {
        let class = table.class(Some(turn.hash)).ok_or("a class")?;
        let choice = weigh(table, class, turn);
        same(rt, &choice, &wanted(class, turn), at);
    }
    Ok(())
}

// The first packet of its class.
const ALONE: Turn = Turn {
    hash: FIRST,
    want: None,
    desired: 1,
    heads: [0; 4],
    online: ALL,
    head: None,
    tail: 0,
    lane: 1,
    why: Why::Unset,
    position: 1,
};

const TWO_FLOWS: &[Turn] = &[
    ALONE,
    Turn {
        hash: SECOND,
        want: Some(2),
        desired: 2,
        head: Some(0),
        tail: 1,
        why: Why::Kept,
        position: 2,
        ..ALONE
    },
    Turn {
        hash: SECOND,
        want: Some(2),
        desired: 2,
        heads: [0, 2, 0, 0],
        head: Some(2),
        tail: 2,
        lane: 2,
        why: Why::Passed,
        ..ALONE
    },
    Turn {
        heads: [0, 2, 0, 0],
        head: Some(0),
        tail: 1,
        lane: 2,
        why: Why::Kept,
        position: 2,
        ..ALONE
    },
];

#[test]
fn two_flows_of_one_class_move_together(rt: HostRuntime) -> Result<(), Fail> {
    let mut table = DevTable::make(rt.alloc(), 2, 0)?;
    same(&rt, &table.class(None), &None, 0);
    play(&rt, &mut table, TWO_FLOWS)
}

// The same where 4294967294 is the number of no packet.
const ALONE_AT_THE_WRAP: Turn = Turn {
    heads: [4294967294; 4],
    tail: 4294967294,
    position: 4294967295,
    ..ALONE
};

const KEPT_AT_THE_WRAP: Turn = Turn {
    want: Some(2),
    desired: 2,
    head: Some(4294967294),
    why: Why::Kept,
    ..ALONE_AT_THE_WRAP
};

const WRAPPING: &[Turn] = &[
    ALONE_AT_THE_WRAP,
    Turn {
        tail: 4294967295,
        position: 0,
        ..KEPT_AT_THE_WRAP
    },
    Turn {
        tail: 0,
        position: 1,
        ..KEPT_AT_THE_WRAP
    },
    Turn {
        heads: [0, 1, 0, 0],
        head: Some(1),
        tail: 1,
        lane: 2,
        why: Why::Passed,
        ..KEPT_AT_THE_WRAP
    },
];

const RESIZED: &[Turn] = &[Turn {
    hash: 7,
    ..ALONE_AT_THE_WRAP
}];

#[test]
fn a_flow_moves_across_the_wrap_of_the_counters(rt: HostRuntime) -> Result<(), Fail> {
    let mut table = DevTable::make(rt.alloc(), 1, 4294967294)?;
    play(&rt, &mut table, WRAPPING)?;
    table.resize(3);
    // Three classes are rounded up to four.
    same(&rt, &table.class(Some(7)), &Some(3), 0);
    play(&rt, &mut table, RESIZED)
}

const LEAVING: &[Turn] = &[
    Turn {
        heads: [0, 1, 0, 0],
        ..ALONE
    },
    Turn {
        heads: [0, 1, 0, 0],
        desired: 0,
        online: WITHOUT_1,
        tail: 1,
        lane: 0,
        why: Why::Offline,
        ..ALONE
    },
    Turn {
        heads: [0, 1, 0, 0],
        desired: 0,
        tail: 1,
        lane: 0,
        why: Why::Same,
        position: 2,
        ..ALONE
    },
];

#[test]
fn a_class_leaves_an_offline_lane(rt: HostRuntime) -> Result<(), Fail> {
    let mut table = DevTable::make(rt.alloc(), 1, 0)?;
    play(&rt, &mut table, LEAVING)
}

// The first reply of a flow, by queue 0.
const REPLY: Turn = Turn {
    hash: 2,
    want: Some(0),
    desired: 0,
    lane: 0,
    ..ALONE
};

const REPLIES: &[Turn] = &[
    REPLY,
    Turn {
        want: Some(1),
        desired: 1,
        head: Some(0),
        tail: 1,
        why: Why::Kept,
        position: 2,
        ..REPLY
    },
    Turn {
        want: Some(1),
        desired: 1,
        heads: [2, 0, 0, 0],
        head: Some(2),
        tail: 2,
        lane: 1,
        why: Why::Passed,
        ..REPLY
    },
];

#[test]
fn a_flow_of_replies_changes_its_queue(rt: HostRuntime) -> Result<(), Fail> {
    let mut table = DevTable::make_exact(rt.alloc(), 3, 0)?;
    play(&rt, &mut table, REPLIES)?;
    // Three classes stay three.
    same(&rt, &table.class(Some(3)), &Some(0), 0);
    let plain = table.weigh(None, Some(1), 2, None, ALL);
    same(&rt, &plain.why, &Why::Plain, 1);
    Ok(())
}
