//! Each command, done and refused for each of its reasons. The first packet has a hash and goes to
//! processor 1; the second has none and goes to processor 0, the home of the one queue. Application
//! 0 stands on processor 2.
use crate::frames::Frame;
use crate::replays::Worked;
use crate::wanted::Said;
use std::test::Fail;
use steer_base::Idle;

const PLAN: &str = r#"{"cpus":4,"queues":[{"home":0,"mask":[1],"flows":1}],"sock":4,"apps":[2],
"tx":[{"cpus":[],"queues":[]},{"cpus":[],"queues":[]}]"#;

const RECEIVE_GATE: Worked = Worked {
    plan: PLAN,
    steps: &[
        ("offline 3", Said::Done),
        ("enter 0", Said::Done),
        ("mask 0 2", Said::Inside(1)),
        ("flows 0 2", Said::Inside(1)),
        ("sock 8", Said::Inside(1)),
        ("offline 1", Said::Inside(1)),
        ("online 3", Said::Inside(1)),
        ("leave 0", Said::Done),
        ("mask 0 2", Said::Done),
        ("flows 0 2", Said::Done),
        ("sock 8", Said::Done),
        ("offline 1", Said::Done),
        ("online 3", Said::Done),
    ],
    frames: &[],
    left: &[],
};

#[test]
fn a_command_waits_for_those_inside_the_receive_gate(rt: HostRuntime) -> Result<(), Fail> {
    RECEIVE_GATE.holds(&rt, rt.alloc())
}

const BACKLOGS: Worked = Worked {
    plan: PLAN,
    steps: &[
        ("offline 3", Said::Done),
        ("arrive", Said::Done),
        ("poll 0", Said::Done),
        ("mask 0 2", Said::Waits(1, 0, 1)),
        ("flows 0 2", Said::Waits(1, 0, 1)),
        ("sock 8", Said::Waits(1, 0, 1)),
        ("offline 1", Said::Waits(1, 0, 1)),
        ("drain 1", Said::Done),
        ("arrive", Said::Done),
        ("poll 0", Said::Done),
        ("online 3", Said::Waits(0, 0, 1)),
        ("mask 0 2", Said::Waits(0, 0, 1)),
        ("offline 1", Said::Done),
        ("drain 0", Said::Done),
        ("online 3", Said::Done),
        ("mask 0 2", Said::Done),
        ("flows 0 2", Said::Done),
        ("sock 8", Said::Done),
    ],
    frames: &[Frame::A, Frame::Arp],
    left: &[],
};

#[test]
fn a_command_waits_for_backlogs(rt: HostRuntime) -> Result<(), Fail> {
    BACKLOGS.holds(&rt, rt.alloc())
}

const IN_USE: Worked = Worked {
    plan: PLAN,
    steps: &[
        ("offline 0", Said::InUseByQueue(0)),
        ("offline 2", Said::InUseByApp(0)),
        ("online 1", Said::Idle(Idle::AlreadyOnline)),
        ("offline 3", Said::Done),
        ("offline 3", Said::Offline),
        ("stand 0 3", Said::Offline),
        ("online 3", Said::Done),
        ("stand 0 3", Said::Done),
        ("offline 2", Said::Done),
    ],
    frames: &[],
    left: &[],
};

#[test]
fn a_command_is_refused_for_the_use_of_a_processor(rt: HostRuntime) -> Result<(), Fail> {
    IN_USE.holds(&rt, rt.alloc())
}

const TRANSMIT_GATE: Worked = Worked {
    plan: PLAN,
    steps: &[
        ("arrive", Said::Done),
        ("poll 0", Said::Done),
        ("drain 1", Said::Done),
        ("tenter 0", Said::Done),
        ("xcpus 0 2", Said::Inside(1)),
        ("xqueues 1 0", Said::Inside(1)),
        ("tleave 0", Said::Done),
        ("reply 0", Said::Done),
        ("xcpus 1 2", Said::Waits(0, 0, 1)),
        ("xqueues 1 0", Said::Waits(0, 0, 1)),
        ("ship 0", Said::Done),
        ("xcpus 0 2", Said::Done),
        ("xqueues 1 0", Said::Done),
    ],
    frames: &[Frame::A],
    left: &[],
};

#[test]
fn a_command_waits_for_replies(rt: HostRuntime) -> Result<(), Fail> {
    TRANSMIT_GATE.holds(&rt, rt.alloc())
}

// With a poller and an application inside their gates, and a packet in a backlog.
const UNGATED: Worked = Worked {
    plan: PLAN,
    steps: &[
        ("arrive", Said::Done),
        ("poll 0", Said::Done),
        ("enter 0", Said::Done),
        ("tenter 0", Said::Done),
        ("reta 120 0", Said::Done),
        ("stand 0 3", Said::Done),
        ("expire", Said::Expired(0)),
    ],
    frames: &[Frame::A],
    left: &[],
};

#[test]
fn some_commands_wait_for_nothing(rt: HostRuntime) -> Result<(), Fail> {
    UNGATED.holds(&rt, rt.alloc())
}

// Both packets wait, one at processor 1 and one at processor 0, and a poller is inside.
const ORDER: Worked = Worked {
    plan: PLAN,
    steps: &[
        ("arrive", Said::Done),
        ("poll 0", Said::Done),
        ("arrive", Said::Done),
        ("poll 0", Said::Done),
        ("offline 3", Said::Done),
        ("enter 0", Said::Done),
        // What may not be given is refused first, and then for those inside.
        ("offline 0", Said::InUseByQueue(0)),
        ("offline 2", Said::InUseByApp(0)),
        ("offline 3", Said::Offline),
        ("online 1", Said::Idle(Idle::AlreadyOnline)),
        ("mask 0 2", Said::Inside(1)),
        ("offline 1", Said::Inside(1)),
        ("online 3", Said::Inside(1)),
        // Then for the lowest of the lanes that have to be empty.
        ("leave 0", Said::Done),
        ("mask 0 2", Said::Waits(0, 0, 1)),
        ("offline 1", Said::Waits(1, 0, 1)),
        ("online 3", Said::Waits(0, 0, 1)),
        ("drain 0", Said::Done),
        ("mask 0 2", Said::Waits(1, 0, 1)),
        ("online 3", Said::Done),
    ],
    frames: &[Frame::A, Frame::Arp],
    left: &[],
};

// Two queues, three applications, and two of each gate's actors inside.
const TWO: Worked = Worked {
    plan: r#"{"cpus":4,"queues":[{"home":3,"mask":[],"flows":0},{"home":0,"mask":[],"flows":0}],
"sock":4,"apps":[0,1,1],"tx":[{"cpus":[],"queues":[]}]"#,
    steps: &[
        ("offline 0", Said::InUseByQueue(1)),
        ("offline 1", Said::InUseByApp(1)),
        ("enter 0", Said::Done),
        ("enter 1", Said::Done),
        ("sock 8", Said::Inside(2)),
        ("xcpus 0 1", Said::Done),
        ("leave 0", Said::Done),
        ("sock 8", Said::Inside(1)),
        ("leave 1", Said::Done),
        ("tenter 2", Said::Done),
        ("tenter 0", Said::Done),
        ("sock 8", Said::Done),
        ("xcpus 0 1", Said::Inside(2)),
        ("tleave 2", Said::Done),
        ("xcpus 0 1", Said::Inside(1)),
    ],
    frames: &[],
    left: &[],
};

#[test]
fn a_command_is_refused_for_its_first_reason(rt: HostRuntime) -> Result<(), Fail> {
    ORDER.holds(&rt, rt.alloc())?;
    TWO.holds(&rt, rt.alloc())
}
