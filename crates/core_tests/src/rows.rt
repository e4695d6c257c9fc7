//! Worked replays: the answers of their steps, and the lists of their histories.
use crate::frames::Frame;
use crate::replays::Worked;
use crate::wanted::{Said, Wanted};
use std::test::Fail;
use steer_base::{Choice, DropCause, Idle, Why};

// A choice: packet, class, want, head, tail, lane and reason.
macro_rules! chose {
    ($id:expr, $class:expr, $want:expr, $head:expr, $tail:expr, $lane:expr, $why:ident) => {
        (
            $id,
            Choice {
                class: $class,
                want: $want,
                head: $head,
                tail: $tail,
                lane: $lane,
                why: Why::$why,
            },
        )
    };
}

pub(crate) use chose;

// Four processors, one queue of home 0 with processor 1 and one flow entry, a socket flow table of
// four entries, one application on processor 2 and one transmit queue.
const COMMON: &str = r#"{"cpus":4,"queues":[{"home":0,"mask":[1],"flows":1}],"sock":4,"apps":[2],
"tx":[{"cpus":[],"queues":[]}]"#;

const NO_HASH: Worked = Worked {
    plan: COMMON,
    steps: &[("arrive", Said::Done), ("poll 0", Said::Done)],
    frames: &[Frame::Arp],
    left: &[
        Wanted::Arrivals(&[(0, 0, None, None)]),
        Wanted::Choices(0, &[chose!(0, None, None, None, None, 0, Plain)]),
        Wanted::Lane(0, &[0], [0, 0, 0, 0]),
    ],
};

#[test]
fn a_packet_without_a_hash_goes_home(rt: HostRuntime) -> Result<(), Fail> {
    NO_HASH.holds(&rt, rt.alloc())
}

const MOVES: Worked = Worked {
    plan: COMMON,
    steps: &[
        ("arrive", Said::Done),
        ("poll 0", Said::Done),
        ("record 0", Said::Done),
        ("arrive", Said::Done),
        ("poll 0", Said::Done),
        ("pull 1", Said::Done),
        ("deliver 1", Said::Done),
        ("arrive", Said::Done),
        ("poll 0", Said::Done),
        ("drain 1", Said::Done),
        ("arrive", Said::Done),
        ("poll 0", Said::Done),
    ],
    frames: &[Frame::A, Frame::A, Frame::A, Frame::A],
    left: &[
        Wanted::Choices(
            0,
            &[
                chose!(0, Some(0), None, None, Some(0), 1, Unset),
                chose!(1, Some(0), Some(2), Some(0), Some(1), 1, Kept),
                chose!(2, Some(0), Some(2), Some(0), Some(2), 1, Kept),
                chose!(3, Some(0), Some(2), Some(3), Some(3), 2, Passed),
            ],
        ),
        Wanted::Lane(1, &[0, 1, 2], [3, 3, 3, 0]),
        Wanted::Lane(2, &[3], [0, 0, 0, 0]),
        Wanted::Inbox(0, &[0, 1, 2]),
        Wanted::Taken(&[4]),
        Wanted::Writes(0, &[(0, 2)]),
    ],
};

#[test]
fn a_class_moves_once_its_packets_are_retired(rt: HostRuntime) -> Result<(), Fail> {
    MOVES.holds(&rt, rt.alloc())
}

// The same with counters that begin two below the end of their range.
const MOVES_WRAPPED: Worked = Worked {
    plan: r#"{"cpus":4,"queues":[{"home":0,"mask":[1],"flows":1}],"sock":4,"apps":[2],
"tx":[{"cpus":[],"queues":[]}],"start":4294967294"#,
    left: &[
        Wanted::Choices(
            0,
            &[
                chose!(0, Some(0), None, None, Some(4294967294), 1, Unset),
                chose!(
                    1,
                    Some(0),
                    Some(2),
                    Some(4294967294),
                    Some(4294967295),
                    1,
                    Kept
                ),
                chose!(2, Some(0), Some(2), Some(4294967294), Some(0), 1, Kept),
                chose!(3, Some(0), Some(2), Some(1), Some(1), 2, Passed),
            ],
        ),
        Wanted::Lane(1, &[0, 1, 2], [3, 3, 3, 0]),
        Wanted::Lane(2, &[3], [0, 0, 0, 0]),
        Wanted::Inbox(0, &[0, 1, 2]),
        Wanted::Taken(&[4]),
        Wanted::Writes(0, &[(0, 2)]),
    ],
    ..MOVES
};

#[test]
fn counters_wrap(rt: HostRuntime) -> Result<(), Fail> {
    MOVES_WRAPPED.holds(&rt, rt.alloc())
}

const SHARED: Worked = Worked {
    plan: r#"{"cpus":4,"queues":[{"home":0,"mask":[1],"flows":2}],"sock":4,"apps":[2],
"tx":[{"cpus":[],"queues":[]}]"#,
    steps: &[
        ("arrive", Said::Done),
        ("poll 0", Said::Done),
        ("record 1", Said::Done),
        ("arrive", Said::Done),
        ("poll 0", Said::Done),
        ("drain 1", Said::Done),
        ("arrive", Said::Done),
        ("poll 0", Said::Done),
        ("arrive", Said::Done),
        ("poll 0", Said::Done),
    ],
    frames: &[Frame::A, Frame::B, Frame::B, Frame::A],
    left: &[
        Wanted::Choices(
            0,
            &[
                chose!(0, Some(0), None, None, Some(0), 1, Unset),
                chose!(1, Some(0), Some(2), Some(0), Some(1), 1, Kept),
                chose!(2, Some(0), Some(2), Some(2), Some(2), 2, Passed),
                chose!(3, Some(0), None, Some(0), Some(1), 2, Kept),
            ],
        ),
        Wanted::Lane(1, &[0, 1], [2, 2, 2, 0]),
        Wanted::Lane(2, &[2, 3], [0, 0, 0, 0]),
    ],
};

#[test]
fn flows_of_one_class_move_together(rt: HostRuntime) -> Result<(), Fail> {
    SHARED.holds(&rt, rt.alloc())
}

const FULL: Worked = Worked {
    plan: r#"{"cpus":4,"queues":[{"home":0,"mask":[1],"flows":0}],"sock":4,"apps":[2],
"tx":[{"cpus":[],"queues":[]}],"backlog":1"#,
    steps: &[
        ("arrive", Said::Done),
        ("arrive", Said::Done),
        ("arrive", Said::Done),
        ("poll 0", Said::Done),
        ("poll 0", Said::Done),
        ("pull 1", Said::Done),
        ("poll 0", Said::Done),
    ],
    frames: &[Frame::A, Frame::A, Frame::A],
    left: &[
        Wanted::Choices(
            0,
            &[
                chose!(0, None, None, None, None, 1, Plain),
                chose!(1, None, None, None, None, 1, Plain),
                chose!(2, None, None, None, None, 1, Plain),
            ],
        ),
        Wanted::Lane(1, &[0, 2], [1, 0, 0, 1]),
        Wanted::Drops(1, &[(1, 1, 0, DropCause::Full)]),
    ],
};

#[test]
fn a_full_backlog_drops(rt: HostRuntime) -> Result<(), Fail> {
    FULL.holds(&rt, rt.alloc())
}

// The second and the third packet find a full backlog. Their class, 2 of 4, stays at the recorded
// tail 0, and their flow gets no filter, while the first one's gets filter 0.
const DROPPED: Worked = Worked {
    plan: r#"{"cpus":2,"queues":[{"home":0,"mask":[0],"flows":4},{"home":1,"mask":[],
"flows":1}],"sock":4,"filters":8,"backlog":1,"apps":[1],"tx":[{"cpus":[],"queues":[]}]"#,
    steps: &[
        ("record 0", Said::Done),
        ("record 1", Said::Done),
        ("arrive", Said::Done),
        ("poll 0", Said::Done),
        ("arrive", Said::Done),
        ("poll 0", Said::Done),
        ("arrive", Said::Done),
        ("poll 0", Said::Done),
        ("arrive", Said::Done),
    ],
    frames: &[Frame::A, Frame::B, Frame::B, Frame::A],
    left: &[
        Wanted::Arrivals(&[
            (0, 0, None, Some(0)),
            (1, 0, None, Some(0)),
            (2, 0, None, Some(0)),
            (3, 1, Some(1), None),
        ]),
        Wanted::Taken(&[3, 0]),
        Wanted::Choices(
            0,
            &[
                chose!(0, Some(0), Some(1), None, Some(0), 1, Unset),
                chose!(1, Some(2), Some(1), None, Some(0), 1, Unset),
                chose!(2, Some(2), Some(1), None, Some(0), 1, Same),
            ],
        ),
        Wanted::Lane(1, &[0], [0, 0, 0, 2]),
        Wanted::Drops(1, &[(1, 1, 0, DropCause::Full), (2, 1, 0, DropCause::Full)]),
        Wanted::Writes(0, &[(0, 1), (2, 1)]),
    ],
};

#[test]
fn a_dropped_packet_leaves_no_tail_and_no_filter(rt: HostRuntime) -> Result<(), Fail> {
    DROPPED.holds(&rt, rt.alloc())
}

const HELD: Worked = Worked {
    plan: r#"{"cpus":4,"queues":[{"home":0,"mask":[1],"flows":0}],"sock":0,"apps":[2],
"tx":[{"cpus":[],"queues":[]}]"#,
    steps: &[
        ("arrive", Said::Done),
        ("poll 0", Said::Done),
        ("pull 1", Said::Done),
        ("mask 0 2", Said::Waits(1, 0, 1)),
        ("deliver 1", Said::Done),
        ("retire 1", Said::Done),
        ("mask 0 2", Said::Done),
    ],
    frames: &[Frame::A],
    left: &[Wanted::Commands(&[Said::Waits(1, 0, 1), Said::Done])],
};

const HELD_WRAPPED: Worked = Worked {
    plan: r#"{"cpus":4,"queues":[{"home":0,"mask":[1],"flows":0}],"sock":0,"apps":[2],
"tx":[{"cpus":[],"queues":[]}],"start":4294967295"#,
    steps: &[
        ("arrive", Said::Done),
        ("poll 0", Said::Done),
        ("pull 1", Said::Done),
        ("mask 0 2", Said::Waits(1, 4294967295, 0)),
        ("deliver 1", Said::Done),
        ("retire 1", Said::Done),
        ("mask 0 2", Said::Done),
    ],
    left: &[Wanted::Commands(&[Said::Waits(1, 4294967295, 0), Said::Done])],
    ..HELD
};

#[test]
fn a_mask_waits_for_empty_lanes(rt: HostRuntime) -> Result<(), Fail> {
    HELD.holds(&rt, rt.alloc())?;
    HELD_WRAPPED.holds(&rt, rt.alloc())
}

const GOES_OFFLINE: Worked = Worked {
    plan: COMMON,
    steps: &[
        ("offline 0", Said::InUseByQueue(0)),
        ("offline 2", Said::InUseByApp(0)),
        ("record 0", Said::Done),
        ("stand 0 3", Said::Done),
        ("offline 2", Said::Done),
        ("offline 2", Said::Offline),
        ("stand 0 2", Said::Offline),
        ("online 3", Said::Idle(Idle::AlreadyOnline)),
        ("arrive", Said::Done),
        ("poll 0", Said::Done),
    ],
    frames: &[Frame::A],
    left: &[
        Wanted::Choices(0, &[chose!(0, Some(0), Some(2), None, Some(0), 1, Unset)]),
        Wanted::Commands(&[
            Said::InUseByQueue(0),
            Said::InUseByApp(0),
            Said::Done,
            Said::Done,
            Said::Offline,
            Said::Offline,
            Said::Idle(Idle::AlreadyOnline),
        ]),
    ],
};

#[test]
fn a_stale_entry_gives_the_plain_choice(rt: HostRuntime) -> Result<(), Fail> {
    GOES_OFFLINE.holds(&rt, rt.alloc())
}

const REPLIES: Worked = Worked {
    plan: r#"{"cpus":4,"queues":[{"home":0,"mask":[],"flows":0}],"sock":4,"apps":[2],
"tx":[{"cpus":[2],"queues":[]},{"cpus":[3],"queues":[]}]"#,
    steps: &[
        ("arrive", Said::Done),
        ("poll 0", Said::Done),
        ("drain 0", Said::Done),
        ("reply 0", Said::Done),
        ("stand 0 3", Said::Done),
        ("arrive", Said::Done),
        ("poll 0", Said::Done),
        ("drain 0", Said::Done),
        ("reply 0", Said::Done),
        ("ship 0", Said::Done),
        ("arrive", Said::Done),
        ("poll 0", Said::Done),
        ("drain 0", Said::Done),
        ("reply 0", Said::Done),
    ],
    frames: &[Frame::A, Frame::A, Frame::A],
    left: &[
        Wanted::Replies(0, &[(0, 0, 2), (1, 0, 3), (2, 0, 3)]),
        Wanted::TxChoices(
            0,
            &[
                chose!(0, Some(0), Some(0), None, Some(0), 0, Unset),
                chose!(1, Some(0), Some(1), Some(0), Some(1), 0, Kept),
                chose!(2, Some(0), Some(1), Some(2), Some(2), 1, Passed),
            ],
        ),
        Wanted::TxLane(0, &[0, 1], [2, 2, 2, 0]),
        Wanted::TxLane(1, &[2], [0, 0, 0, 0]),
        Wanted::Port(&[0, 1]),
    ],
};

#[test]
fn a_socket_moves_once_its_replies_are_out(rt: HostRuntime) -> Result<(), Fail> {
    REPLIES.holds(&rt, rt.alloc())
}

const SWEEP: Worked = Worked {
    plan: r#"{"cpus":3,"queues":[{"home":0,"mask":[1],"flows":0}],"sock":0,"apps":[2],
"tx":[{"cpus":[],"queues":[]}]"#,
    steps: &[("sweep", Said::Done), ("sweep", Said::Idle(Idle::Nothing))],
    frames: &[Frame::A],
    left: &[
        Wanted::Arrivals(&[(0, 0, None, Some(0))]),
        Wanted::Choices(0, &[chose!(0, None, None, None, None, 1, Plain)]),
        Wanted::Lane(1, &[0], [1, 1, 1, 0]),
        Wanted::Inbox(0, &[0]),
        Wanted::Replies(0, &[(0, 0, 2)]),
        Wanted::TxChoices(0, &[chose!(0, Some(0), Some(0), None, Some(0), 0, Unset)]),
        Wanted::TxLane(0, &[0], [1, 1, 1, 0]),
        Wanted::Port(&[0]),
        Wanted::Writes(0, &[]),
    ],
};

const SWEEP_WRAPPED: Worked = Worked {
    plan: r#"{"cpus":3,"queues":[{"home":0,"mask":[1],"flows":0}],"sock":0,"apps":[2],
"tx":[{"cpus":[],"queues":[]}],"start":4294967295"#,
    left: &[
        Wanted::Arrivals(&[(0, 0, None, Some(0))]),
        Wanted::Choices(0, &[chose!(0, None, None, None, None, 1, Plain)]),
        Wanted::Lane(1, &[0], [1, 1, 1, 0]),
        Wanted::Inbox(0, &[0]),
        Wanted::Replies(0, &[(0, 0, 2)]),
        Wanted::TxChoices(
            0,
            &[chose!(0, Some(0), Some(0), None, Some(4294967295), 0, Unset)],
        ),
        Wanted::TxLane(0, &[0], [1, 1, 1, 0]),
        Wanted::Port(&[0]),
        Wanted::Writes(0, &[]),
    ],
    ..SWEEP
};

#[test]
fn a_sweep_gets_all_packets_through(rt: HostRuntime) -> Result<(), Fail> {
    SWEEP.holds(&rt, rt.alloc())?;
    SWEEP_WRAPPED.holds(&rt, rt.alloc())
}

const FILTERS: Worked = Worked {
    plan: r#"{"cpus":2,"queues":[{"home":0,"mask":[0],"flows":1},{"home":1,"mask":[],
"flows":1}],"sock":4,"filters":8,"apps":[1],"tx":[{"cpus":[],"queues":[]}]"#,
    steps: &[
        ("record 0", Said::Done),
        ("arrive", Said::Done),
        ("poll 0", Said::Done),
        ("arrive", Said::Done),
        ("poll 1", Said::Done),
        ("expire", Said::Expired(0)),
        ("drain 1", Said::Done),
        ("expire", Said::Expired(1)),
        ("arrive", Said::Done),
    ],
    frames: &[Frame::A, Frame::A, Frame::A],
    left: &[
        Wanted::Arrivals(&[
            (0, 0, None, Some(0)),
            (1, 1, Some(1), None),
            (2, 0, None, Some(0)),
        ]),
        Wanted::Taken(&[1, 1]),
        Wanted::Choices(0, &[chose!(0, Some(0), Some(1), None, Some(0), 1, Unset)]),
        Wanted::Choices(1, &[chose!(1, Some(0), Some(1), None, Some(0), 1, Unset)]),
        Wanted::Lane(1, &[0, 1], [2, 2, 2, 0]),
        Wanted::Inbox(0, &[0, 1]),
        Wanted::Commands(&[Said::Expired(0), Said::Expired(1)]),
    ],
};

#[test]
fn a_filter_leads_a_flow_and_expires(rt: HostRuntime) -> Result<(), Fail> {
    FILTERS.holds(&rt, rt.alloc())
}

const LEAVES: Worked = Worked {
    plan: COMMON,
    steps: &[
        ("arrive", Said::Done),
        ("poll 0", Said::Done),
        ("drain 1", Said::Done),
        ("offline 1", Said::Done),
        ("arrive", Said::Done),
        ("poll 0", Said::Done),
    ],
    frames: &[Frame::A, Frame::A],
    left: &[
        Wanted::Choices(
            0,
            &[
                chose!(0, Some(0), None, None, Some(0), 1, Unset),
                chose!(1, Some(0), None, None, Some(1), 0, Offline),
            ],
        ),
        Wanted::Lane(0, &[1], [0, 0, 0, 0]),
        Wanted::Commands(&[Said::Done]),
    ],
};

#[test]
fn a_class_leaves_an_offline_processor(rt: HostRuntime) -> Result<(), Fail> {
    LEAVES.holds(&rt, rt.alloc())
}

const INSIDE: Worked = Worked {
    plan: COMMON,
    steps: &[
        ("arrive", Said::Done),
        ("take 0", Said::Done),
        ("enter 0", Said::Done),
        ("mask 0 2", Said::Inside(1)),
        ("leave 0", Said::Done),
        ("mask 0 2", Said::Done),
    ],
    frames: &[Frame::A],
    left: &[
        Wanted::Taken(&[1]),
        Wanted::Choices(0, &[]),
        Wanted::Commands(&[Said::Inside(1), Said::Done]),
    ],
};

#[test]
fn a_mask_waits_for_those_inside(rt: HostRuntime) -> Result<(), Fail> {
    INSIDE.holds(&rt, rt.alloc())
}
