//! Vectors for definitions that no law says twice: the order of a sweep, the packet whose flow is
//! recorded, table sizes, key and kinds of a plan, and the count by which a filter goes. The
//! reports were worked out apart from the program, from the documents of the model.
use crate::plans::{Case, are_reported};
use std::test::Fail;

/// No flow tables; packets without a hash go to processor 2, and all replies to transmit queue 1.
const TURNS_PLAN: &[u8] =
    br#""cpus":3,"queues":[{"home":2,"mask":[1],"flows":0},{"home":0,"mask":[1],"flows":0}],
        "key":"0123456789abcdef876543210fedcba90123456789abcdef876543210fedcba90123456789abcdef",
        "sock":0,"apps":[0,0],"tx":[{"cpus":[],"queues":[]},{"cpus":[0],"queues":[]}]"#;

// Two queues, two applications, two flows, and a packet without a hash. Before the sweep packet 0
// waits at processor 1, packet 1 at its home 2, and packets 2 and 3 are in the rings of queues 0
// and 1. The first round puts 2 and then 3 to processor 1; processor 1 delivers 0 and 2 to
// application 0 before processor 2 delivers 1 there; application 0 replies to 0 before application
// 1 does to 3. The next two rounds reply to 2 and 1.
const TURNS: &[u8] = b"steer 1
p 0 q 0 via reta class - want - head - tail - cpu 1 why plain at 1 app 0 in 1 place inbox
p 1 q 0 via none class - want - head - tail - cpu 2 why plain at 1 app 0 in 3 place inbox
p 2 q 0 via reta class - want - head - tail - cpu 1 why plain at 2 app 0 in 2 place inbox
p 3 q 1 via reta class - want - head - tail - cpu 1 why plain at 3 app 1 in 1 place inbox
r 0 app 0 rxq 0 cpu 0 pick 1 head - tail 0 tx 1 why unset at 1 port 1
r 1 app 0 rxq 0 cpu 0 pick 1 head - tail 0 tx 1 why unset at 4 port 4
r 2 app 0 rxq 0 cpu 0 pick 1 head - tail 1 tx 1 why same at 3 port 3
r 3 app 1 rxq 1 cpu 0 pick 1 head - tail 0 tx 1 why unset at 2 port 2
queue 0 arrived 3 taken 3
queue 1 arrived 1 taken 1
cpu 0 accepted 0 pulled 0 delivered 0 retired 0 dropped 0
cpu 1 accepted 3 pulled 3 delivered 3 retired 3 dropped 0
cpu 2 accepted 1 pulled 1 delivered 1 retired 1 dropped 0
tx 0 accepted 0 pulled 0 delivered 0 retired 0
tx 1 accepted 4 pulled 4 delivered 4 retired 4
end 4 of 4
";

/// Queue 0 has a flow entry and queue 1 has none; transmit queue 0 is for replies to queue 0.
const ROUNDS_PLAN: &[u8] =
    br#""cpus":3,"queues":[{"home":0,"mask":[1],"flows":1},{"home":2,"mask":[1],"flows":0}],
        "key":"0123456789abcdef876543210fedcba90123456789abcdef876543210fedcba90123456789abcdef",
        "sock":8,"apps":[2,0],"tx":[{"cpus":[2],"queues":[0]},{"cpus":[],"queues":[]}]"#;

// Packet 1, of flow B, is delivered and replied to before the sweep, and packet 0 waits at
// processor 1. Round 1: packet 2 arrives and is put behind it, since nothing is recorded yet; both
// are delivered, the first is recorded and replied to, and transmit queue 0 is shipped before 1.
// Round 2: packet 3 arrives; both applications reply. Round 3: packet 4 finds its flow recorded at
// processor 2, and all four packets of processor 1 retired.
const ROUNDS: &[u8] = b"steer 1
p 0 q 0 via reta class 0 want - head - tail 0 cpu 1 why unset at 2 app 0 in 1 place inbox
p 1 q 1 via reta class - want - head - tail - cpu 1 why plain at 1 app 1 in 1 place inbox
p 2 q 0 via reta class 0 want - head - tail 2 cpu 1 why same at 3 app 0 in 2 place inbox
p 3 q 1 via reta class - want - head - tail - cpu 1 why plain at 4 app 1 in 2 place inbox
p 4 q 0 via reta class 0 want 2 head 4 tail 3 cpu 2 why passed at 1 app 0 in 3 place inbox
r 0 app 0 rxq 0 cpu 2 pick 0 head - tail 0 tx 0 why unset at 1 port 1
r 1 app 1 rxq 1 cpu 0 pick 1 head - tail 0 tx 1 why unset at 1 port 2
r 2 app 0 rxq 0 cpu 2 pick 0 head - tail 1 tx 0 why same at 2 port 3
r 3 app 1 rxq 1 cpu 0 pick 1 head - tail 1 tx 1 why same at 2 port 4
r 4 app 0 rxq 0 cpu 2 pick 0 head - tail 2 tx 0 why same at 3 port 5
queue 0 arrived 3 taken 3
queue 1 arrived 2 taken 2
cpu 0 accepted 0 pulled 0 delivered 0 retired 0 dropped 0
cpu 1 accepted 4 pulled 4 delivered 4 retired 4 dropped 0
cpu 2 accepted 1 pulled 1 delivered 1 retired 1 dropped 0
tx 0 accepted 3 pulled 3 delivered 3 retired 3
tx 1 accepted 2 pulled 2 delivered 2 retired 2
w app 0 entry 6 cpu 2
w app 0 entry 6 cpu 2
w app 0 entry 6 cpu 2
w app 1 entry 1 cpu 0
end 5 of 5
";

/// No flow table, and 1024 entries of the socket table.
const IN_HAND_PLAN: &[u8] = br#""cpus":3,"queues":[{"home":0,"mask":[1],"flows":0}],
        "sock":1024,"apps":[2],"tx":[{"cpus":[],"queues":[]}]"#;

// Application 0 has the reply to packet 0 in hand when it is first served, and packet 1 is next.
// Of 1024 entries flow A has 376 and flow B 234.
const IN_HAND: &[u8] = b"steer 1
p 0 q 0 via reta class - want - head - tail - cpu 1 why plain at 1 app 0 in 1 place inbox
p 1 q 0 via reta class - want - head - tail - cpu 1 why plain at 2 app 0 in 2 place inbox
r 0 app 0 rxq 0 cpu 2 pick 0 head - tail 0 tx 0 why unset at 1 port -
r 1 app 0 rxq 0 cpu 2 pick 0 head - tail 0 tx 0 why unset at 2 port -
queue 0 arrived 2 taken 2
cpu 0 accepted 0 pulled 0 delivered 0 retired 0 dropped 0
cpu 1 accepted 2 pulled 2 delivered 2 retired 2 dropped 0
cpu 2 accepted 0 pulled 0 delivered 0 retired 0 dropped 0
tx 0 accepted 2 pulled 0 delivered 0 retired 0
w app 0 entry 376 cpu 2
w app 0 entry 234 cpu 2
end 2 of 2
";

/// Sizes that are no powers of two.
const ROUNDED_PLAN: &[u8] = br#""cpus":3,"queues":[{"home":0,"mask":[1],"flows":3}],
        "key":"0123456789abcdef876543210fedcba90123456789abcdef876543210fedcba90123456789abcdef",
        "sock":5,"apps":[2],"tx":[{"cpus":[],"queues":[]}]"#;

// The hash of flow A with this key is db34aeae. The plan's count 3 is rounded up to 4 and its size
// 5 to 8: class 2, entry 6. Then 5 is rounded up to 8 and 3 to 4: class 6, entry 2.
const ROUNDED: &[u8] = b"steer 1
p 0 q 0 via reta class 2 want 2 head - tail 0 cpu 2 why unset at 1 app 0 in 1 place inbox
p 1 q 0 via reta class 6 want 2 head - tail 0 cpu 2 why unset at 2 app 0 in - place backlog
queue 0 arrived 2 taken 2
cpu 0 accepted 0 pulled 0 delivered 0 retired 0 dropped 0
cpu 1 accepted 0 pulled 0 delivered 0 retired 0 dropped 0
cpu 2 accepted 2 pulled 1 delivered 1 retired 1 dropped 0
tx 0 accepted 0 pulled 0 delivered 0 retired 0
w app 0 entry 6 cpu 2
w app 0 entry 2 cpu 2
c 0 flows 0 5 done
c 1 sock 3 done
end 2 of 2
";

/// The largest tables, hashes of addresses alone, and another key than the verification key.
const KEYED_PLAN: &[u8] =
    br#""cpus":3,"queues":[{"home":0,"mask":[1],"flows":32768},{"home":0,"mask":[1],"flows":32768}],
        "key":"0123456789abcdef876543210fedcba90123456789abcdef876543210fedcba90123456789abcdef",
        "kinds":1,"sock":65536,"apps":[2],"tx":[{"cpus":[],"queues":[]}]"#;

// With kinds 1 the two TCP flows are hashed by their addresses, with this key to 6348acf1 and
// b268a9cf: entries 113 and 79 of the redirection table, modulo 32768 the classes 11505 and 10703,
// and modulo 65536 the entries 44273 and 43471.
const KEYED: &[u8] = b"steer 1
p 0 q 1 via reta class 11505 want 2 head - tail 0 cpu 2 why unset at 1 app 0 in - place backlog
p 1 q 1 via reta class 10703 want 2 head - tail 0 cpu 2 why unset at 2 app 0 in - place backlog
queue 0 arrived 0 taken 0
queue 1 arrived 2 taken 2
cpu 0 accepted 0 pulled 0 delivered 0 retired 0 dropped 0
cpu 1 accepted 0 pulled 0 delivered 0 retired 0 dropped 0
cpu 2 accepted 2 pulled 0 delivered 0 retired 0 dropped 0
tx 0 accepted 0 pulled 0 delivered 0 retired 0
w app 0 entry 44273 cpu 2
w app 0 entry 43471 cpu 2
end 2 of 2
";

/// Eight filters, and flow counts of 1 and 2.
const SLOW_PLAN: &[u8] =
    br#""cpus":2,"queues":[{"home":0,"mask":[0],"flows":1},{"home":1,"mask":[],"flows":2}],
        "sock":4,"filters":8,"apps":[1],"tx":[{"cpus":[],"queues":[]}]"#;

// The flow moves to processor 1, the home of queue 1, and the filter names that queue with the
// mark 1. The head is 1 when it is asked whether it may go. With a flow count of 2 it has to be 10
// past the mark, so the filter stays, and leads the next packet to queue 1.
const SLOW: &[u8] = b"steer 1
p 0 q 0 via reta class 0 want 1 head - tail 0 cpu 1 why unset at 1 app 0 in 1 place inbox
p 1 q 1 via filter class - want - head - tail - cpu - why - at - app 0 in - place ring
queue 0 arrived 1 taken 1
queue 1 arrived 1 taken 0
cpu 0 accepted 0 pulled 0 delivered 0 retired 0 dropped 0
cpu 1 accepted 1 pulled 1 delivered 1 retired 1 dropped 0
tx 0 accepted 0 pulled 0 delivered 0 retired 0
w app 0 entry 0 cpu 1
c 0 expire expired 0
end 2 of 2
";

/// Eight filters, and flow counts of 2 and 1.
const FAST_PLAN: &[u8] =
    br#""cpus":2,"queues":[{"home":0,"mask":[0],"flows":2},{"home":1,"mask":[],"flows":1}],
        "sock":4,"filters":8,"apps":[1],"tx":[{"cpus":[],"queues":[]}]"#;

// The same with the two counts exchanged: with a flow count of 1 the filter goes, and the
// redirection table leads the next packet to queue 0.
const FAST: &[u8] = b"steer 1
p 0 q 0 via reta class 0 want 1 head - tail 0 cpu 1 why unset at 1 app 0 in 1 place inbox
p 1 q 0 via reta class - want - head - tail - cpu - why - at - app 0 in - place ring
queue 0 arrived 2 taken 1
queue 1 arrived 0 taken 0
cpu 0 accepted 0 pulled 0 delivered 0 retired 0 dropped 0
cpu 1 accepted 1 pulled 1 delivered 1 retired 1 dropped 0
tx 0 accepted 0 pulled 0 delivered 0 retired 0
w app 0 entry 0 cpu 1
c 0 expire expired 1
end 2 of 2
";

const SWEEPS: [Case; 2] = [
    (
        TURNS_PLAN,
        br#""arrive","arrive","arrive","arrive","poll 0","poll 0","sweep""#,
        b"a-ab",
        TURNS,
    ),
    (
        ROUNDS_PLAN,
        br#""arrive","arrive","poll 1","drain 1","reply 1","poll 0","sweep""#,
        b"ababa",
        ROUNDS,
    ),
];

#[test]
fn a_sweep_goes_round_in_its_order(rt: HostRuntime) -> Result<(), Fail> {
    are_reported(&rt, rt.alloc(), &SWEEPS)
}

const RECORDED: [Case; 1] = [(
    IN_HAND_PLAN,
    br#""arrive","poll 0","arrive","poll 0","drain 1","send 0","serve 0","serve 0""#,
    b"ab",
    IN_HAND,
)];

#[test]
fn the_packet_in_hand_is_recorded(rt: HostRuntime) -> Result<(), Fail> {
    are_reported(&rt, rt.alloc(), &RECORDED)
}

const SIZES: [Case; 2] = [
    (
        ROUNDED_PLAN,
        br#""record 0","arrive","poll 0","drain 2","flows 0 5","sock 3","record 0","arrive",
            "poll 0""#,
        b"aa",
        ROUNDED,
    ),
    (
        KEYED_PLAN,
        br#""record 0","record 1","arrive","arrive","poll 1","poll 1""#,
        b"ab",
        KEYED,
    ),
];

#[test]
fn sizes_key_and_kinds_are_those_of_the_plan(rt: HostRuntime) -> Result<(), Fail> {
    are_reported(&rt, rt.alloc(), &SIZES)
}

const COUNTS: [Case; 2] = [
    (
        SLOW_PLAN,
        br#""record 0","arrive","poll 0","drain 1","expire","arrive""#,
        b"aa",
        SLOW,
    ),
    (
        FAST_PLAN,
        br#""record 0","arrive","poll 0","drain 1","expire","arrive""#,
        b"aa",
        FAST,
    ),
];

#[test]
fn a_filter_goes_by_the_count_of_its_own_queue(rt: HostRuntime) -> Result<(), Fail> {
    are_reported(&rt, rt.alloc(), &COUNTS)
}
