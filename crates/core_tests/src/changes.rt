//! What done commands change for the packets and replies after them. All frames are of one flow,
//! whose hash is 0x51ccc178: entry 120 of the redirection table, class 0 of 1 or 2, and entry 8 of
//! a socket flow table of 16.
use crate::frames::Frame;
use crate::replays::Worked;
use crate::rows::chose;
use crate::wanted::{Said, Wanted};
use std::test::Fail;
use steer_base::{Choice, Why};

const CHANGES: Worked = Worked {
    plan: r#"{"cpus":4,"queues":[{"home":0,"mask":[1],"flows":1},{"home":0,"mask":[1],"flows":0}],
"sock":4,"apps":[2],"tx":[{"cpus":[],"queues":[]},{"cpus":[],"queues":[]}]"#,
    steps: &[
        // The flow goes to queue 1, with classes and on processor 3.
        ("reta 120 1", Said::Done),
        ("mask 1 3", Said::Done),
        ("flows 1 2", Said::Done),
        ("arrive", Said::Done),
        ("poll 1", Said::Done),
        ("drain 3", Said::Done),
        // Its application stands on processor 1, and its replies go to transmit queue 1.
        ("sock 16", Said::Done),
        ("stand 0 1", Said::Done),
        ("xqueues 1 1", Said::Done),
        ("serve 0", Said::Done),
        ("ship 1", Said::Done),
        // Replies from processor 1 go to transmit queue 0.
        ("offline 2", Said::Done),
        ("xcpus 0 1", Said::Done),
        ("xqueues 1 -", Said::Done),
        ("arrive", Said::Done),
        ("poll 1", Said::Done),
        ("drain 1", Said::Done),
        ("online 2", Said::Done),
        ("reply 0", Said::Done),
        // The same flow count clears the classes.
        ("flows 1 2", Said::Done),
        ("arrive", Said::Done),
        ("poll 1", Said::Done),
        ("drain 1", Said::Done),
        // The same size clears the socket flow table.
        ("sock 16", Said::Done),
        ("arrive", Said::Done),
        ("poll 1", Said::Done),
        ("drain 3", Said::Done),
        // Without classes.
        ("flows 1 0", Said::Done),
        ("arrive", Said::Done),
        ("poll 1", Said::Done),
    ],
    frames: &[Frame::A, Frame::A, Frame::A, Frame::A, Frame::A],
    left: &[
        Wanted::Arrivals(&[
            (0, 1, None, Some(1)),
            (1, 1, None, Some(1)),
            (2, 1, None, Some(1)),
            (3, 1, None, Some(1)),
            (4, 1, None, Some(1)),
        ]),
        Wanted::Taken(&[0, 5]),
        Wanted::Choices(
            1,
            &[
                chose!(0, Some(0), None, None, Some(0), 3, Unset),
                chose!(1, Some(0), Some(1), Some(1), Some(1), 1, Passed),
                chose!(2, Some(0), Some(1), None, Some(0), 1, Unset),
                chose!(3, Some(0), None, Some(2), Some(2), 3, Passed),
                chose!(4, None, None, None, None, 3, Plain),
            ],
        ),
        Wanted::Lane(1, &[1, 2], [2, 2, 2, 0]),
        Wanted::Lane(3, &[0, 3, 4], [2, 2, 2, 0]),
        Wanted::Inbox(0, &[0, 1, 2, 3]),
        Wanted::Replies(0, &[(0, 1, 1), (1, 1, 1)]),
        Wanted::TxChoices(
            0,
            &[
                chose!(0, Some(0), Some(1), None, Some(0), 1, Unset),
                chose!(1, Some(0), Some(0), Some(1), Some(1), 0, Passed),
            ],
        ),
        Wanted::TxLane(0, &[1], [0, 0, 0, 0]),
        Wanted::TxLane(1, &[0], [1, 1, 1, 0]),
        Wanted::Port(&[0]),
        Wanted::Writes(0, &[(8, 1)]),
    ],
};

#[test]
fn done_commands_change_what_comes_after(rt: HostRuntime) -> Result<(), Fail> {
    CHANGES.holds(&rt, rt.alloc())
}
