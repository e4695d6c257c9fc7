//! Worked replays of hardware filters: their places in a table of any size, and their expiry by the
//! flow count of now.
use crate::frames::Frame;
use crate::replays::Worked;
use crate::wanted::{Said, Wanted};
use std::test::Fail;

// The hashes of both flows are 4 modulo 6, and 0 and 2 modulo 8: in a table of 6 filters they share
// a place.
const SIX_FILTERS: Worked = Worked {
    plan: r#"{"cpus":2,"queues":[{"home":0,"mask":[0],"flows":1},{"home":1,"mask":[],
"flows":1}],"sock":4,"filters":6,"apps":[1],"tx":[{"cpus":[],"queues":[]}]"#,
    steps: &[
        ("record 0", Said::Done),
        ("arrive", Said::Done),
        ("poll 0", Said::Done),
        ("arrive", Said::Done),
    ],
    frames: &[Frame::A, Frame::B],
    left: &[Wanted::Arrivals(&[(0, 0, None, Some(0)), (1, 1, Some(1), None)])],
};

#[test]
fn a_filter_is_found_modulo_the_number_of_filters(rt: HostRuntime) -> Result<(), Fail> {
    SIX_FILTERS.holds(&rt, rt.alloc())
}

// The filter's mark and the head of its processor are both 1. With two flows at its queue the head
// would have to be 11.
const FEWER_FLOWS: Worked = Worked {
    plan: r#"{"cpus":2,"queues":[{"home":0,"mask":[0],"flows":1},{"home":1,"mask":[],
"flows":2}],"sock":4,"filters":8,"apps":[1],"tx":[{"cpus":[],"queues":[]}]"#,
    steps: &[
        ("record 0", Said::Done),
        ("arrive", Said::Done),
        ("poll 0", Said::Done),
        ("drain 1", Said::Done),
        ("expire", Said::Expired(0)),
        ("flows 1 1", Said::Done),
        ("expire", Said::Expired(1)),
    ],
    frames: &[Frame::A],
    left: &[],
};

#[test]
fn a_filter_expires_by_the_flow_count_of_now(rt: HostRuntime) -> Result<(), Fail> {
    FEWER_FLOWS.holds(&rt, rt.alloc())
}
