//! Steps of one event each, with every reason for which one is idle, and steps of many events.
use crate::frames::Frame;
use crate::replays::Worked;
use crate::rows::chose;
use crate::wanted::{Said, Wanted};
use std::test::Fail;
use steer_base::{Choice, Idle, Why};

// Two queues, whose homes are processors 0 and 1, filters, and an application on processor 1.
const POLLER: Worked = Worked {
    plan: r#"{"cpus":2,"queues":[{"home":0,"mask":[0],"flows":1},{"home":1,"mask":[],
"flows":1}],"sock":4,"filters":8,"apps":[1],"tx":[{"cpus":[],"queues":[]}]"#,
    steps: &[
        ("record 0", Said::Done),
        ("arrive", Said::Done),
        ("look 0", Said::Idle(Idle::NotInside)),
        ("weigh 0", Said::Idle(Idle::NotInside)),
        ("put 0", Said::Idle(Idle::NotInside)),
        ("ask 0", Said::Idle(Idle::NotInside)),
        ("enter 0", Said::Done),
        ("enter 0", Said::Idle(Idle::AlreadyInside)),
        ("look 0", Said::Idle(Idle::WrongStage)),
        ("take 0", Said::Done),
        ("take 0", Said::Idle(Idle::HandFull)),
        ("weigh 0", Said::Idle(Idle::WrongStage)),
        ("look 0", Said::Done),
        ("look 0", Said::Idle(Idle::WrongStage)),
        ("leave 0", Said::Idle(Idle::MidPacket)),
        ("put 0", Said::Idle(Idle::WrongStage)),
        ("weigh 0", Said::Done),
        ("put 0", Said::Done),
        ("take 0", Said::Idle(Idle::HandFull)),
        ("leave 0", Said::Idle(Idle::MidPacket)),
        ("ask 0", Said::Done),
        ("ask 0", Said::Idle(Idle::WrongStage)),
        ("take 0", Said::Idle(Idle::RingEmpty)),
        ("leave 0", Said::Done),
        ("leave 0", Said::Idle(Idle::NotInside)),
        ("arrive", Said::Done),
        ("arrive", Said::Idle(Idle::NothingLeft)),
        ("poll 0", Said::Idle(Idle::Nothing)),
    ],
    frames: &[Frame::A, Frame::A],
    left: &[
        Wanted::Arrivals(&[(0, 0, None, Some(0)), (1, 1, Some(1), None)]),
        Wanted::Taken(&[1, 0]),
        Wanted::Lane(1, &[0], [0, 0, 0, 0]),
    ],
};

#[test]
fn a_poller_takes_looks_weighs_puts_and_asks(rt: HostRuntime) -> Result<(), Fail> {
    POLLER.holds(&rt, rt.alloc())
}

const REPLIER: Worked = Worked {
    plan: r#"{"cpus":4,"queues":[{"home":0,"mask":[1],"flows":1}],"sock":4,"apps":[2],
"tx":[{"cpus":[],"queues":[]}]"#,
    steps: &[
        ("arrive", Said::Done),
        ("poll 0", Said::Done),
        ("retire 1", Said::Idle(Idle::HandEmpty)),
        ("pull 1", Said::Done),
        ("pull 1", Said::Idle(Idle::HandFull)),
        ("retire 1", Said::Idle(Idle::NotDelivered)),
        ("deliver 1", Said::Done),
        ("deliver 1", Said::Idle(Idle::AlreadyDelivered)),
        ("retire 1", Said::Done),
        ("deliver 1", Said::Idle(Idle::HandEmpty)),
        ("pull 1", Said::Idle(Idle::NothingWaiting)),
        ("tweigh 0", Said::Idle(Idle::NotInside)),
        ("tput 0", Said::Idle(Idle::NotInside)),
        ("tleave 0", Said::Idle(Idle::NotInside)),
        ("tenter 0", Said::Done),
        ("tenter 0", Said::Idle(Idle::AlreadyInside)),
        ("tweigh 0", Said::Idle(Idle::WrongStage)),
        ("send 0", Said::Done),
        ("send 0", Said::Idle(Idle::HandFull)),
        ("tput 0", Said::Idle(Idle::WrongStage)),
        ("tweigh 0", Said::Done),
        ("tleave 0", Said::Idle(Idle::MidPacket)),
        ("tput 0", Said::Done),
        ("send 0", Said::Idle(Idle::InboxDone)),
        ("tleave 0", Said::Done),
        ("tdeliver 0", Said::Idle(Idle::HandEmpty)),
        ("tretire 0", Said::Idle(Idle::HandEmpty)),
        ("tpull 0", Said::Done),
        ("tpull 0", Said::Idle(Idle::HandFull)),
        ("tretire 0", Said::Idle(Idle::NotDelivered)),
        ("tdeliver 0", Said::Done),
        ("tdeliver 0", Said::Idle(Idle::AlreadyDelivered)),
        ("tretire 0", Said::Done),
        ("tpull 0", Said::Idle(Idle::NothingWaiting)),
    ],
    frames: &[Frame::A],
    left: &[
        Wanted::Lane(1, &[0], [1, 1, 1, 0]),
        Wanted::Inbox(0, &[0]),
        Wanted::TxLane(0, &[0], [1, 1, 1, 0]),
        Wanted::Port(&[0]),
    ],
};

#[test]
fn a_packet_goes_from_its_backlog_to_the_port(rt: HostRuntime) -> Result<(), Fail> {
    REPLIER.holds(&rt, rt.alloc())
}

const SERVED: Worked = Worked {
    plan: r#"{"cpus":4,"queues":[{"home":0,"mask":[1],"flows":1}],"sock":4,"apps":[2],
"tx":[{"cpus":[],"queues":[]}]"#,
    steps: &[
        ("record 1", Said::Idle(Idle::NoHash)),
        ("record 2", Said::Idle(Idle::NoFlow)),
        ("arrive", Said::Done),
        ("poll 0", Said::Done),
        ("drain 1", Said::Done),
        ("drain 1", Said::Idle(Idle::Nothing)),
        ("serve 0", Said::Done),
        ("serve 0", Said::Idle(Idle::Nothing)),
        ("reply 0", Said::Idle(Idle::Nothing)),
        ("ship 0", Said::Done),
        ("ship 0", Said::Idle(Idle::Nothing)),
        ("sock 0", Said::Done),
        ("record 0", Said::Idle(Idle::NoTable)),
        ("record 1", Said::Idle(Idle::NoHash)),
        ("record 2", Said::Idle(Idle::NoFlow)),
    ],
    frames: &[Frame::A, Frame::Arp],
    left: &[Wanted::Writes(0, &[(0, 2)]), Wanted::Port(&[0])],
};

#[test]
fn an_application_that_is_served_records_its_flow(rt: HostRuntime) -> Result<(), Fail> {
    SERVED.holds(&rt, rt.alloc())
}

// Each step of many events begins where one of its events was made before.
const BEGUN: Worked = Worked {
    plan: r#"{"cpus":4,"queues":[{"home":0,"mask":[1],"flows":1}],"sock":4,"apps":[2],
"tx":[{"cpus":[],"queues":[]}]"#,
    steps: &[
        ("arrive", Said::Done),
        ("arrive", Said::Done),
        ("take 0", Said::Done),
        ("poll 0", Said::Done),
        ("poll 0", Said::Done),
        ("pull 1", Said::Done),
        ("drain 1", Said::Done),
        ("send 0", Said::Done),
        ("serve 0", Said::Done),
        ("reply 0", Said::Done),
        ("tpull 0", Said::Done),
        ("ship 0", Said::Done),
    ],
    frames: &[Frame::A, Frame::A],
    left: &[
        Wanted::Taken(&[2]),
        Wanted::Choices(
            0,
            &[
                chose!(0, Some(0), None, None, Some(0), 1, Unset),
                chose!(1, Some(0), None, None, Some(1), 1, Same),
            ],
        ),
        Wanted::Lane(1, &[0, 1], [2, 2, 2, 0]),
        Wanted::Inbox(0, &[0, 1]),
        Wanted::Replies(0, &[(0, 0, 2), (1, 0, 2)]),
        Wanted::TxChoices(
            0,
            &[
                chose!(0, Some(0), Some(0), None, Some(0), 0, Unset),
                chose!(1, Some(0), Some(0), None, Some(1), 0, Same),
            ],
        ),
        Wanted::TxLane(0, &[0, 1], [2, 2, 2, 0]),
        Wanted::Port(&[0, 1]),
        Wanted::Writes(0, &[(0, 2)]),
    ],
};

#[test]
fn a_step_of_many_events_ends_what_was_begun(rt: HostRuntime) -> Result<(), Fail> {
    BEGUN.holds(&rt, rt.alloc())
}
