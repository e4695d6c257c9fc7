//! The command `replay` on worked plans.
use crate::plans::{
    Case, FOUR_REPORT, FOUR_STEPS, ONE_FLOW, SWEPT, are_reported, have_lines, is_with_lines,
};
use std::alloc::{AllocError, Global};
use std::test::Fail;

const MOVES: [Case; 5] = [
    // A frame without a hash stays at its home.
    (
        ONE_FLOW,
        br#""arrive","poll 0""#,
        b"n",
        b"p 0 q 0 via none class - want - head - tail - cpu 0 why plain at 1 app 0 in - place \
            backlog",
    ),
    // Two flows share an entry: where one wants to go, the other goes with it.
    (
        br#""cpus":4,"queues":[{"home":0,"mask":[1],"flows":2}],"sock":4,"apps":[2],
            "tx":[{"cpus":[],"queues":[]}]"#,
        br#""arrive","poll 0","record 1","arrive","poll 0","drain 1","arrive","poll 0","arrive",
            "poll 0""#,
        b"abba",
        b"p 0 q 0 via reta class 0 want - head - tail 0 cpu 1 why unset at 1 app 0 in 1 place \
            inbox
p 1 q 0 via reta class 0 want 2 head 0 tail 1 cpu 1 why kept at 2 app 0 in 2 place inbox
p 2 q 0 via reta class 0 want 2 head 2 tail 2 cpu 2 why passed at 1 app 0 in - place backlog
p 3 q 0 via reta class 0 want - head 0 tail 1 cpu 2 why kept at 2 app 0 in - place backlog",
    ),
    // A full backlog: the packet in hand does not count.
    (
        br#""cpus":4,"queues":[{"home":0,"mask":[1],"flows":0}],"sock":4,"backlog":1,"apps":[2],
            "tx":[{"cpus":[],"queues":[]}]"#,
        br#""arrive","arrive","arrive","poll 0","poll 0","pull 1","poll 0""#,
        b"aaa",
        b"p 0 q 0 via reta class - want - head - tail - cpu 1 why plain at 1 app 0 in - place \
            hand
p 1 q 0 via reta class - want - head - tail - cpu 1 why plain at drop 1 1 0 app 0 in - place drop
p 2 q 0 via reta class - want - head - tail - cpu 1 why plain at 2 app 0 in - place backlog
cpu 1 accepted 2 pulled 1 delivered 0 retired 0 dropped 1",
    ),
    // A filter leads later packets to another queue, and goes when it is old.
    (
        br#""cpus":2,"queues":[{"home":0,"mask":[0],"flows":1},{"home":1,"mask":[],"flows":1}],
            "sock":4,"filters":8,"apps":[1],"tx":[{"cpus":[],"queues":[]}]"#,
        br#""record 0","arrive","poll 0","arrive","poll 1","expire","drain 1","expire",
            "arrive""#,
        b"aaa",
        b"p 0 q 0 via reta class 0 want 1 head - tail 0 cpu 1 why unset at 1 app 0 in 1 place \
            inbox
p 1 q 1 via filter class 0 want 1 head - tail 0 cpu 1 why unset at 2 app 0 in 2 place inbox
p 2 q 0 via reta class - want - head - tail - cpu - why - at - app 0 in - place ring
c 0 expire expired 0
c 1 expire expired 1",
    ),
    // A processor goes offline, and the flow leaves it.
    (
        ONE_FLOW,
        br#""arrive","poll 0","drain 1","offline 1","arrive","poll 0""#,
        b"aa",
        b"p 1 q 0 via reta class 0 want - head - tail 1 cpu 0 why offline at 1 app 0 in - \
            place backlog
c 0 offline 1 done",
    ),
];

#[test]
fn flows_move_by_the_rule(rt: HostRuntime) -> Result<(), Fail> {
    have_lines(&rt, rt.alloc(), &MOVES)
}

const ANSWERS: [Case; 4] = [
    (
        br#""cpus":4,"queues":[{"home":0,"mask":[1],"flows":0}],"sock":0,"apps":[2],
            "tx":[{"cpus":[],"queues":[]}]"#,
        br#""arrive","poll 0","pull 1","mask 0 2","deliver 1","retire 1","mask 0 2""#,
        b"a",
        b"c 0 mask 0 2 busy lane 1 head 0 tail 1
c 1 mask 0 2 done",
    ),
    // The same where the counters wrap.
    (
        br#""cpus":4,"queues":[{"home":0,"mask":[1],"flows":0}],"sock":0,"start":4294967295,
            "apps":[2],"tx":[{"cpus":[],"queues":[]}]"#,
        br#""arrive","poll 0","pull 1","mask 0 2","deliver 1","retire 1","mask 0 2""#,
        b"a",
        b"c 0 mask 0 2 busy lane 1 head 4294967295 tail 0
c 1 mask 0 2 done",
    ),
    // Each refusal of a change of processors; a stale word of the socket flow table.
    (
        ONE_FLOW,
        br#""offline 0","offline 2","record 0","stand 0 3","offline 2","offline 2","stand 0 2",
            "online 3","arrive","poll 0""#,
        b"a",
        b"c 0 offline 0 in use queue 0
c 1 offline 2 in use app 0
c 2 stand 0 3 done
c 3 offline 2 done
c 4 offline 2 cpu offline
c 5 stand 0 2 cpu offline
c 6 online 3 idle online
p 0 q 0 via reta class 0 want 2 head - tail 0 cpu 1 why unset at 1 app 0 in - place backlog",
    ),
    // A poller inside the gate.
    (
        ONE_FLOW,
        br#""arrive","take 0","enter 0","mask 0 2","leave 0","mask 0 2""#,
        b"a",
        b"c 0 mask 0 2 busy inside 1
c 1 mask 0 2 done
p 0 q 0 via reta class - want - head - tail - cpu - why - at - app 0 in - place poller",
    ),
];

#[test]
fn commands_are_answered(rt: HostRuntime) -> Result<(), Fail> {
    have_lines(&rt, rt.alloc(), &ANSWERS)
}

const REPLIES: [Case; 1] = [(
    br#""cpus":4,"queues":[{"home":0,"mask":[],"flows":0}],"sock":4,"apps":[2],
        "tx":[{"cpus":[2],"queues":[]},{"cpus":[3],"queues":[]}]"#,
    br#""arrive","poll 0","drain 0","reply 0","stand 0 3","arrive","poll 0","drain 0","reply 0",
        "ship 0","arrive","poll 0","drain 0","reply 0""#,
    b"aaa",
    b"r 0 app 0 rxq 0 cpu 2 pick 0 head - tail 0 tx 0 why unset at 1 port 1
r 1 app 0 rxq 0 cpu 3 pick 1 head 0 tail 1 tx 0 why kept at 2 port 2
r 2 app 0 rxq 0 cpu 3 pick 1 head 2 tail 2 tx 1 why passed at 1 port -",
)];

#[test]
fn replies_keep_their_transmit_queue(rt: HostRuntime) -> Result<(), Fail> {
    have_lines(&rt, rt.alloc(), &REPLIES)
}

const REPORTS: [Case; 5] = [
    (ONE_FLOW, FOUR_STEPS, b"aaaa", FOUR_REPORT),
    // The same where the counters wrap.
    (
        br#""cpus":4,"queues":[{"home":0,"mask":[1],"flows":1}],"sock":4,"start":4294967294,
            "apps":[2],"tx":[{"cpus":[],"queues":[]}]"#,
        FOUR_STEPS,
        b"aaaa",
        b"steer 1
p 0 q 0 via reta class 0 want - head - tail 4294967294 cpu 1 why unset at 4294967295 app 0 in 1 \
place inbox
p 1 q 0 via reta class 0 want 2 head 4294967294 tail 4294967295 cpu 1 why kept at 0 app 0 in 2 \
place inbox
p 2 q 0 via reta class 0 want 2 head 4294967294 tail 0 cpu 1 why kept at 1 app 0 in 3 place inbox
p 3 q 0 via reta class 0 want 2 head 1 tail 1 cpu 2 why passed at 4294967295 app 0 in - place \
backlog
queue 0 arrived 4 taken 4
cpu 0 accepted 0 pulled 0 delivered 0 retired 0 dropped 0
cpu 1 accepted 3 pulled 3 delivered 3 retired 3 dropped 0
cpu 2 accepted 1 pulled 0 delivered 0 retired 0 dropped 0
cpu 3 accepted 0 pulled 0 delivered 0 retired 0 dropped 0
tx 0 accepted 0 pulled 0 delivered 0 retired 0
w app 0 entry 0 cpu 2
end 4 of 4
",
    ),
    (
        SWEPT,
        b"\"sweep\"",
        b"a",
        b"steer 1
p 0 q 0 via reta class - want - head - tail - cpu 1 why plain at 1 app 0 in 1 place inbox
r 0 app 0 rxq 0 cpu 2 pick 0 head - tail 0 tx 0 why unset at 1 port 1
queue 0 arrived 1 taken 1
cpu 0 accepted 0 pulled 0 delivered 0 retired 0 dropped 0
cpu 1 accepted 1 pulled 1 delivered 1 retired 1 dropped 0
cpu 2 accepted 0 pulled 0 delivered 0 retired 0 dropped 0
tx 0 accepted 1 pulled 1 delivered 1 retired 1
end 1 of 1
",
    ),
    (
        br#""cpus":3,"queues":[{"home":0,"mask":[1],"flows":0}],"sock":0,"start":4294967295,
            "apps":[2],"tx":[{"cpus":[],"queues":[]}]"#,
        b"\"sweep\"",
        b"a",
        b"steer 1
p 0 q 0 via reta class - want - head - tail - cpu 1 why plain at 0 app 0 in 1 place inbox
r 0 app 0 rxq 0 cpu 2 pick 0 head - tail 4294967295 tx 0 why unset at 0 port 1
queue 0 arrived 1 taken 1
cpu 0 accepted 0 pulled 0 delivered 0 retired 0 dropped 0
cpu 1 accepted 1 pulled 1 delivered 1 retired 1 dropped 0
cpu 2 accepted 0 pulled 0 delivered 0 retired 0 dropped 0
tx 0 accepted 1 pulled 1 delivered 1 retired 1
end 1 of 1
",
    ),
    (
        br#""cpus":4,"queues":[{"home":0,"mask":[1],"flows":0}],"sock":0,"apps":[0],
            "tx":[{"cpus":[],"queues":[]}]"#,
        br#""arrive","poll 0","drain 1""#,
        b"a",
        b"steer 1
p 0 q 0 via reta class - want - head - tail - cpu 1 why plain at 1 app 0 in 1 place inbox
queue 0 arrived 1 taken 1
cpu 0 accepted 0 pulled 0 delivered 0 retired 0 dropped 0
cpu 1 accepted 1 pulled 1 delivered 1 retired 1 dropped 0
cpu 2 accepted 0 pulled 0 delivered 0 retired 0 dropped 0
cpu 3 accepted 0 pulled 0 delivered 0 retired 0 dropped 0
tx 0 accepted 0 pulled 0 delivered 0 retired 0
end 1 of 1
",
    ),
];

#[test]
fn whole_reports_are_written(rt: HostRuntime) -> Result<(), Fail> {
    are_reported(&rt, rt.alloc(), &REPORTS)
}

// 201 times a packet arrives and is polled.
fn arrivals(alloc: Global) -> Result<Vec<u8>, AllocError> {
    let mut steps = b"\"arrive\",\"poll 0\"".to_vec(alloc)?;
    for _ in 1..201 {
        steps.extend_from_slice(b",\"arrive\",\"poll 0\"")?;
    }
    Ok(steps)
}

// 200 packets of one flow, and one of another.
fn letters(alloc: Global) -> Result<Vec<u8>, AllocError> {
    let mut letters = vec![in alloc; b'a'; 200]?;
    letters.push(b'b')?;
    Ok(letters)
}

const LIMITED: &[u8] =
    br#""cpus":4,"queues":[{"home":0,"mask":[1],"flows":0}],"sock":4,"backlog":300,
        "limited":[1],"apps":[2],"tx":[{"cpus":[],"queues":[]}]"#;

const LIMITED_LINES: &[u8] =
    b"p 150 q 0 via reta class - want - head - tail - cpu 1 why plain at 151 app 0 in - \
        place backlog
p 151 q 0 via reta class - want - head - tail - cpu 1 why plain at drop 1 151 0 flow 152 app 0 in \
- place drop
p 199 q 0 via reta class - want - head - tail - cpu 1 why plain at drop 49 151 0 flow 200 app 0 \
in - place drop
p 200 q 0 via reta class - want - head - tail - cpu 1 why plain at 152 app 0 in - place backlog
cpu 1 accepted 152 pulled 0 delivered 0 retired 0 dropped 49";

const UNLIMITED: &[u8] =
    br#""cpus":4,"queues":[{"home":0,"mask":[1],"flows":0}],"sock":4,"backlog":300,
        "apps":[2],"tx":[{"cpus":[],"queues":[]}]"#;

const UNLIMITED_LINES: &[u8] = b"cpu 1 accepted 201 pulled 0 delivered 0 retired 0 dropped 0";

#[test]
fn the_flow_limit_drops_the_large_flow(rt: HostRuntime) -> Result<(), Fail> {
    let letters = letters(rt.alloc())?;
    let steps = arrivals(rt.alloc())?;
    let limited = (LIMITED, steps.as_slice(), letters.as_slice(), LIMITED_LINES);
    is_with_lines(&rt, rt.alloc(), limited, 0)?;
    let unlimited = (
        UNLIMITED,
        steps.as_slice(),
        letters.as_slice(),
        UNLIMITED_LINES,
    );
    is_with_lines(&rt, rt.alloc(), unlimited, 1)
}
