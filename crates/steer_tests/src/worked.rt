//! Small plans, one for each case of the headline, with whole reports that were worked out by hand
//! from the definitions. Frame A has hash 51ccc178 and frame B c626b0ea.
use crate::plans::{Case, are_reported, is_with_lines};
use std::alloc::{AllocError, Global};
use std::test::Fail;

/// One receive queue with one flow entry, whose packets go to processor 1; the application stands
/// on processor 2.
const STEERED: &[u8] =
    br#""cpus":3,"queues":[{"home":0,"mask":[1],"flows":1}],"sock":4,"apps":[2],"tx":[{"cpus":[],
        "queues":[]}]"#;

/// The same with a backlog of one packet.
const SHORT: &[u8] =
    br#""cpus":3,"queues":[{"home":0,"mask":[1],"flows":1}],"sock":4,"backlog":1,"apps":[2],
        "tx":[{"cpus":[],"queues":[]}]"#;

/// No flow table, and a backlog of one packet.
const PLAIN: &[u8] =
    br#""cpus":2,"queues":[{"home":0,"mask":[1],"flows":0}],"sock":0,"backlog":1,"apps":[0],
        "tx":[{"cpus":[],"queues":[]}]"#;

/// Two receive queues and eight filters; the application stands on the home of the second.
const FILTERED: &[u8] =
    br#""cpus":2,"queues":[{"home":0,"mask":[0],"flows":1},{"home":1,"mask":[],"flows":1}],"sock":4,
        "filters":8,"apps":[1],"tx":[{"cpus":[],"queues":[]}]"#;

/// Two transmit queues, for processors 2 and 3.
const SENT: &[u8] =
    br#""cpus":4,"queues":[{"home":0,"mask":[],"flows":0}],"sock":0,"apps":[2],"tx":[{"cpus":[2],
        "queues":[]},{"cpus":[3],"queues":[]}]"#;

/// A backlog of 200 packets under the flow limit.
const LIMITED: &[u8] =
    br#""cpus":2,"queues":[{"home":0,"mask":[1],"flows":0}],"sock":0,"backlog":200,"limited":[1],
        "apps":[0],"tx":[{"cpus":[],"queues":[]}]"#;

// The class has no lane: it gets the RPS choice, the one processor of the mask.
const UNSET: &[u8] = b"steer 1
p 0 q 0 via reta class 0 want - head - tail 0 cpu 1 why unset at 1 app 0 in - place backlog
queue 0 arrived 1 taken 1
cpu 0 accepted 0 pulled 0 delivered 0 retired 0 dropped 0
cpu 1 accepted 1 pulled 0 delivered 0 retired 0 dropped 0
cpu 2 accepted 0 pulled 0 delivered 0 retired 0 dropped 0
tx 0 accepted 0 pulled 0 delivered 0 retired 0
end 1 of 1
";

// The application wants the flow on processor 2. Its first packet is in the inbox, and not retired:
// the head is 0, and the recorded tail 1.
const KEPT: &[u8] = b"steer 1
p 0 q 0 via reta class 0 want - head - tail 0 cpu 1 why unset at 1 app 0 in 1 place inbox
p 1 q 0 via reta class 0 want 2 head 0 tail 1 cpu 1 why kept at 2 app 0 in - place backlog
queue 0 arrived 2 taken 2
cpu 0 accepted 0 pulled 0 delivered 0 retired 0 dropped 0
cpu 1 accepted 2 pulled 1 delivered 1 retired 0 dropped 0
cpu 2 accepted 0 pulled 0 delivered 0 retired 0 dropped 0
tx 0 accepted 0 pulled 0 delivered 0 retired 0
w app 0 entry 0 cpu 2
end 2 of 2
";

// The same where the first packet is retired: head 1 has reached tail 1. The third packet finds its
// class on the processor that it wants.
const PASSED: &[u8] = b"steer 1
p 0 q 0 via reta class 0 want - head - tail 0 cpu 1 why unset at 1 app 0 in 1 place inbox
p 1 q 0 via reta class 0 want 2 head 1 tail 1 cpu 2 why passed at 1 app 0 in - place backlog
p 2 q 0 via reta class 0 want 2 head - tail 1 cpu 2 why same at 2 app 0 in - place backlog
queue 0 arrived 3 taken 3
cpu 0 accepted 0 pulled 0 delivered 0 retired 0 dropped 0
cpu 1 accepted 1 pulled 1 delivered 1 retired 1 dropped 0
cpu 2 accepted 2 pulled 0 delivered 0 retired 0 dropped 0
tx 0 accepted 0 pulled 0 delivered 0 retired 0
w app 0 entry 0 cpu 2
end 3 of 3
";

// Processor 1 goes offline once it is empty. The RPS choice is offline too, so the desired one is
// the home.
const OFFLINE: &[u8] = b"steer 1
p 0 q 0 via reta class 0 want - head - tail 0 cpu 1 why unset at 1 app 0 in 1 place inbox
p 1 q 0 via reta class 0 want - head - tail 1 cpu 0 why offline at 1 app 0 in - place backlog
queue 0 arrived 2 taken 2
cpu 0 accepted 1 pulled 0 delivered 0 retired 0 dropped 0
cpu 1 accepted 1 pulled 1 delivered 1 retired 1 dropped 0
cpu 2 accepted 0 pulled 0 delivered 0 retired 0 dropped 0
tx 0 accepted 0 pulled 0 delivered 0 retired 0
c 0 offline 1 busy lane 1 head 0 tail 1
c 1 offline 1 done
end 2 of 2
";

// The second packet is kept on processor 1, where one packet waits, as many as may. It is no part
// of the recorded tail, so the third one leaves as soon as the first is retired.
const FULL: &[u8] = b"steer 1
p 0 q 0 via reta class 0 want - head - tail 0 cpu 1 why unset at 1 app 0 in 1 place inbox
p 1 q 0 via reta class 0 want 2 head 0 tail 1 cpu 1 why kept at drop 1 1 0 app 0 in - place drop
p 2 q 0 via reta class 0 want 2 head 1 tail 1 cpu 2 why passed at 1 app 0 in - place backlog
queue 0 arrived 3 taken 3
cpu 0 accepted 0 pulled 0 delivered 0 retired 0 dropped 0
cpu 1 accepted 1 pulled 1 delivered 1 retired 1 dropped 1
cpu 2 accepted 1 pulled 0 delivered 0 retired 0 dropped 0
tx 0 accepted 0 pulled 0 delivered 0 retired 0
w app 0 entry 0 cpu 2
end 3 of 3
";

// One packet at each place. The third waits behind the one in hand, which does not count, so the
// fourth finds a full backlog. The seventh packet of the capture never arrives.
const PLACES: &[u8] = b"steer 1
p 0 q 0 via reta class - want - head - tail - cpu 1 why plain at 1 app 0 in 1 place inbox
p 1 q 0 via reta class - want - head - tail - cpu 1 why plain at 2 app 0 in - place hand
p 2 q 0 via reta class - want - head - tail - cpu 1 why plain at 3 app 0 in - place backlog
p 3 q 0 via reta class - want - head - tail - cpu 1 why plain at drop 1 3 2 app 0 in - place drop
p 4 q 0 via reta class - want - head - tail - cpu - why - at - app 0 in - place poller
p 5 q 0 via reta class - want - head - tail - cpu - why - at - app 0 in - place ring
queue 0 arrived 6 taken 5
cpu 0 accepted 0 pulled 0 delivered 0 retired 0 dropped 0
cpu 1 accepted 3 pulled 2 delivered 1 retired 1 dropped 1
tx 0 accepted 0 pulled 0 delivered 0 retired 0
end 6 of 7
";

// Both frames' entries lead to queue 0. Flow A moves to processor 1, the home of queue 1, and so
// writes filter 0 of 8. Flow B finds filter 2 unset; its class is A's, and is kept, which writes
// none. The next packet of A is led to queue 1, whose own table has no lane yet.
const FILTER: &[u8] = b"steer 1
p 0 q 0 via reta class 0 want 1 head - tail 0 cpu 1 why unset at 1 app 0 in - place backlog
p 1 q 0 via reta class 0 want - head 0 tail 1 cpu 1 why kept at 2 app 0 in - place backlog
p 2 q 1 via filter class 0 want 1 head - tail 0 cpu 1 why unset at 3 app 0 in - place backlog
queue 0 arrived 2 taken 2
queue 1 arrived 1 taken 1
cpu 0 accepted 0 pulled 0 delivered 0 retired 0 dropped 0
cpu 1 accepted 3 pulled 0 delivered 0 retired 0 dropped 0
tx 0 accepted 0 pulled 0 delivered 0 retired 0
w app 0 entry 0 cpu 1
end 3 of 3
";

// The application moves to processor 3, so another transmit queue is picked. The first reply is on
// the port, and not retired, when the second is weighed: head 0, tail 1. Both are retired at the
// third: head 2 has reached tail 2.
const TRANSMIT: &[u8] = b"steer 1
p 0 q 0 via reta class - want - head - tail - cpu 0 why plain at 1 app 0 in 1 place inbox
p 1 q 0 via reta class - want - head - tail - cpu 0 why plain at 2 app 0 in 2 place inbox
p 2 q 0 via reta class - want - head - tail - cpu 0 why plain at 3 app 0 in 3 place inbox
r 0 app 0 rxq 0 cpu 2 pick 0 head - tail 0 tx 0 why unset at 1 port 1
r 1 app 0 rxq 0 cpu 3 pick 1 head 0 tail 1 tx 0 why kept at 2 port 2
r 2 app 0 rxq 0 cpu 3 pick 1 head 2 tail 2 tx 1 why passed at 1 port -
queue 0 arrived 3 taken 3
cpu 0 accepted 3 pulled 3 delivered 3 retired 3 dropped 0
cpu 1 accepted 0 pulled 0 delivered 0 retired 0 dropped 0
cpu 2 accepted 0 pulled 0 delivered 0 retired 0 dropped 0
cpu 3 accepted 0 pulled 0 delivered 0 retired 0 dropped 0
tx 0 accepted 2 pulled 2 delivered 2 retired 2
tx 1 accepted 1 pulled 0 delivered 0 retired 0
c 0 stand 0 3 done
end 3 of 3
";

const CHOICES: [Case; 4] = [
    (STEERED, br#""arrive","poll 0""#, b"a", UNSET),
    (
        STEERED,
        br#""arrive","poll 0","record 0","pull 1","deliver 1","arrive","poll 0""#,
        b"aa",
        KEPT,
    ),
    (
        STEERED,
        br#""arrive","poll 0","record 0","drain 1","arrive","poll 0","arrive","poll 0""#,
        b"aaa",
        PASSED,
    ),
    (
        STEERED,
        br#""arrive","poll 0","pull 1","offline 1","deliver 1","retire 1","offline 1","arrive",
            "poll 0""#,
        b"aa",
        OFFLINE,
    ),
];

#[test]
fn each_case_of_the_rule_is_reported(rt: HostRuntime) -> Result<(), Fail> {
    are_reported(&rt, rt.alloc(), &CHOICES)
}

const LOSSES: [Case; 2] = [
    (
        SHORT,
        br#""arrive","poll 0","record 0","arrive","poll 0","drain 1","arrive","poll 0""#,
        b"aaa",
        FULL,
    ),
    (
        PLAIN,
        br#""arrive","arrive","arrive","arrive","arrive","arrive","poll 0","drain 1","poll 0",
            "pull 1","poll 0","poll 0","take 0""#,
        b"aaaaaaa",
        PLACES,
    ),
];

#[test]
fn each_place_and_a_full_backlog_are_reported(rt: HostRuntime) -> Result<(), Fail> {
    are_reported(&rt, rt.alloc(), &LOSSES)
}

const MOVES: [Case; 2] = [
    (
        FILTERED,
        br#""record 0","arrive","poll 0","arrive","poll 0","arrive","poll 1""#,
        b"aba",
        FILTER,
    ),
    (
        SENT,
        br#""arrive","poll 0","drain 0","reply 0","stand 0 3","tpull 0","tdeliver 0","arrive",
            "poll 0","drain 0","reply 0","tretire 0","ship 0","arrive","poll 0","drain 0",
            "reply 0""#,
        b"aaa",
        TRANSMIT,
    ),
];

#[test]
fn moves_by_a_filter_and_of_replies_are_reported(rt: HostRuntime) -> Result<(), Fail> {
    are_reported(&rt, rt.alloc(), &MOVES)
}

// 130 packets arrive and are polled, and nothing is pulled. Of flow A 128 are accepted. The next
// finds 128 waiting, more than half of 200, and is the 129th of its bucket 178: the flow limit
// drops it. Flow B has bucket 0ea, and is accepted.
const FLOODED: &[u8] =
    b"p 127 q 0 via reta class - want - head - tail - cpu 1 why plain at 128 app 0 in - place \
        backlog
p 128 q 0 via reta class - want - head - tail - cpu 1 why plain at drop 1 128 0 flow 129 app 0 in \
- place drop
p 129 q 0 via reta class - want - head - tail - cpu 1 why plain at 129 app 0 in - place backlog
cpu 1 accepted 129 pulled 0 delivered 0 retired 0 dropped 1
c 0 expire expired 0
end 130 of 130";

fn flood(alloc: Global) -> Result<Vec<u8>, AllocError> {
    let mut steps = b"\"expire\"".to_vec(alloc)?;
    for _ in 0..130 {
        steps.extend_from_slice(b",\"arrive\",\"poll 0\"")?;
    }
    Ok(steps)
}

fn letters(alloc: Global) -> Result<Vec<u8>, AllocError> {
    let mut letters = vec![in alloc; b'a'; 129]?;
    letters.push(b'b')?;
    Ok(letters)
}

#[test]
fn a_drop_by_the_flow_limit_is_reported(rt: HostRuntime) -> Result<(), Fail> {
    let letters = letters(rt.alloc())?;
    let steps = flood(rt.alloc())?;
    is_with_lines(&rt, rt.alloc(), (LIMITED, &steps, &letters, FLOODED), 0)
}
