//! Reports of small runs on packets of one flow, of hash 0x51ccc178.
use crate::captures::of_one_flow;
use crate::holds::{Hold, Holding, Thread, Until};
use crate::runs::run_of;
use crate::texts::{have_lines, same_text};
use plan_reader::read_plan;
use std::alloc::Global;
use std::process::Abort;
use std::sync::Wait;
use std::test::Fail;
use std::thread::Threads;

/// A plan, the number of its packets, and its report.
type Whole = (&'static [u8], u32, &'static [u8]);

/// A plan, the number of its packets, its holds, and lines of its report.
type Held = (&'static [u8], u32, &'static [Hold], &'static [u8]);

// Whatever the schedule, these runs have one report: either the packets take one way only, or one
// worker plays all that comes behind the arrivals.
const WHOLE: [Whole; 4] = [
    // One packet, which is steered by its hash alone.
    (
        br#"{"cpus":3,"queues":[{"home":0,"mask":[1],"flows":0}],"sock":0,"apps":[2],
            "tx":[{"cpus":[],"queues":[]}],"steps":["sweep"]}"#,
        1,
        b"steer 1
p 0 q 0 via reta class - want - head - tail - cpu 1 why plain at 1 app 0 in 1 place inbox
r 0 app 0 rxq 0 cpu 2 pick 0 head - tail 0 tx 0 why unset at 1 port 1
queue 0 arrived 1 taken 1
cpu 0 accepted 0 pulled 0 delivered 0 retired 0 dropped 0
cpu 1 accepted 1 pulled 1 delivered 1 retired 1 dropped 0
cpu 2 accepted 0 pulled 0 delivered 0 retired 0 dropped 0
tx 0 accepted 1 pulled 1 delivered 1 retired 1
end 1 of 1
",
    ),
    // The same where the counters wrap.
    (
        br#"{"cpus":3,"queues":[{"home":0,"mask":[1],"flows":0}],"sock":0,"start":4294967295,
            "apps":[2],"tx":[{"cpus":[],"queues":[]}],"steps":["sweep"]}"#,
        1,
        b"steer 1
p 0 q 0 via reta class - want - head - tail - cpu 1 why plain at 0 app 0 in 1 place inbox
r 0 app 0 rxq 0 cpu 2 pick 0 head - tail 4294967295 tx 0 why unset at 0 port 1
queue 0 arrived 1 taken 1
cpu 0 accepted 0 pulled 0 delivered 0 retired 0 dropped 0
cpu 1 accepted 1 pulled 1 delivered 1 retired 1 dropped 0
cpu 2 accepted 0 pulled 0 delivered 0 retired 0 dropped 0
tx 0 accepted 1 pulled 1 delivered 1 retired 1
end 1 of 1
",
    ),
    // Four packets: one worker polls, one empties the backlog, and one has an idle processor.
    (
        br#"{"cpus":3,"queues":[{"home":0,"mask":[1],"flows":0}],"sock":0,"apps":[2],
            "tx":[{"cpus":[],"queues":[]}],"workers":3,"steps":["sweep"]}"#,
        4,
        b"steer 1
p 0 q 0 via reta class - want - head - tail - cpu 1 why plain at 1 app 0 in 1 place inbox
p 1 q 0 via reta class - want - head - tail - cpu 1 why plain at 2 app 0 in 2 place inbox
p 2 q 0 via reta class - want - head - tail - cpu 1 why plain at 3 app 0 in 3 place inbox
p 3 q 0 via reta class - want - head - tail - cpu 1 why plain at 4 app 0 in 4 place inbox
r 0 app 0 rxq 0 cpu 2 pick 0 head - tail 0 tx 0 why unset at 1 port 1
r 1 app 0 rxq 0 cpu 2 pick 0 head - tail 1 tx 0 why same at 2 port 2
r 2 app 0 rxq 0 cpu 2 pick 0 head - tail 2 tx 0 why same at 3 port 3
r 3 app 0 rxq 0 cpu 2 pick 0 head - tail 3 tx 0 why same at 4 port 4
queue 0 arrived 4 taken 4
cpu 0 accepted 0 pulled 0 delivered 0 retired 0 dropped 0
cpu 1 accepted 4 pulled 4 delivered 4 retired 4 dropped 0
cpu 2 accepted 0 pulled 0 delivered 0 retired 0 dropped 0
tx 0 accepted 4 pulled 4 delivered 4 retired 4
end 4 of 4
",
    ),
    // Two packets and their reader, by one worker: the second packet follows the reader. Of the
    // plan's steps none is a command.
    (
        br#"{"cpus":4,"queues":[{"home":0,"mask":[1],"flows":1}],"sock":4,"apps":[2],
            "tx":[{"cpus":[],"queues":[]}],"steps":["arrive","poll 0","record 0","arrive","poll 0",
            "pull 1","deliver 1","arrive","poll 0","drain 1","arrive","poll 0"]}"#,
        2,
        b"steer 1
p 0 q 0 via reta class 0 want - head - tail 0 cpu 1 why unset at 1 app 0 in 1 place inbox
p 1 q 0 via reta class 0 want 2 head 1 tail 1 cpu 2 why passed at 1 app 0 in 2 place inbox
r 0 app 0 rxq 0 cpu 2 pick 0 head - tail 0 tx 0 why unset at 1 port 1
r 1 app 0 rxq 0 cpu 2 pick 0 head - tail 1 tx 0 why same at 2 port 2
queue 0 arrived 2 taken 2
cpu 0 accepted 0 pulled 0 delivered 0 retired 0 dropped 0
cpu 1 accepted 1 pulled 1 delivered 1 retired 1 dropped 0
cpu 2 accepted 1 pulled 1 delivered 1 retired 1 dropped 0
cpu 3 accepted 0 pulled 0 delivered 0 retired 0 dropped 0
tx 0 accepted 2 pulled 2 delivered 2 retired 2
w app 0 entry 0 cpu 2
w app 0 entry 0 cpu 2
end 2 of 2
",
    ),
];

// The report of a run of a plan with this text on so many packets of one flow, with these holds.
fn reported<R: Threads + Wait + Sync + Abort>(
    rt: &R,
    alloc: Global,
    plan: &[u8],
    count: u32,
    holds: &'static [Hold],
) -> Result<Vec<u8>, Fail> {
    let capture = of_one_flow(alloc, count)?;
    let pace = Holding::make(holds, read_plan(alloc, plan)?.workers);
    let got = run_of(rt, alloc, plan, &capture, Vec::new(alloc), &pace)?;
    assert!(rt; got.status == 0 && got.err.is_empty());
    assert!(rt; !pace.ran_out());
    Ok(got.out)
}

#[test]
fn a_run_of_one_way_has_one_report(rt: HostRuntime) -> Result<(), Fail> {
    let alloc = rt.alloc();
    for (case, (plan, count, report)) in WHOLE.iter().enumerate() {
        let got = reported(&rt, alloc, *plan, *count, &[])?;
        same_text(&rt, &got, *report, case);
    }
    Ok(())
}

const WORKER: Thread = Thread::Worker(0);

// The first packet arrives before the worker's first turn, and the worker has turns between two
// arrivals.
const TURNS_BETWEEN: [Hold; 3] = [
    (WORKER, 1, Until::Called(Thread::Wire, 2)),
    (Thread::Wire, 2, Until::CalledAgain(WORKER, 2)),
    (Thread::Wire, 3, Until::CalledAgain(WORKER, 2)),
];

// The same, and a command is given behind the turns between the last two arrivals.
const COMMAND_BETWEEN: [Hold; 6] = [
    (WORKER, 1, Until::Called(Thread::Wire, 2)),
    (Thread::Wire, 2, Until::CalledAgain(WORKER, 2)),
    (Thread::Wire, 3, Until::CalledAgain(WORKER, 2)),
    (Thread::Wire, 3, Until::Called(Thread::Controller, 2)),
    (Thread::Controller, 1, Until::Called(Thread::Wire, 3)),
    (Thread::Controller, 1, Until::CalledAgain(WORKER, 2)),
];

// Ten commands are given before anything else.
const COMMANDS_FIRST: [Hold; 2] = [
    (Thread::Wire, 1, Until::Called(Thread::Controller, 11)),
    (WORKER, 1, Until::Called(Thread::Controller, 11)),
];

// The first packet has its reply before the command, and the second arrives behind it.
const REPLY_BEFORE: [Hold; 4] = [
    (WORKER, 1, Until::Called(Thread::Wire, 2)),
    (Thread::Controller, 1, Until::Called(Thread::Wire, 2)),
    (Thread::Controller, 1, Until::CalledAgain(WORKER, 2)),
    (Thread::Wire, 2, Until::Called(Thread::Controller, 2)),
];

const HELD: [Held; 4] = [
    // The card's filter for a flow that has moved leads the packets behind it to another queue.
    (
        br#"{"cpus":2,"queues":[{"home":0,"mask":[0],"flows":1},{"home":1,"mask":[],"flows":1}],
            "sock":4,"filters":8,"apps":[1],"tx":[{"cpus":[],"queues":[]}],"steps":[]}"#,
        3,
        &TURNS_BETWEEN,
        b"p 0 q 0 via reta class 0 want - head - tail 0 cpu 0 why unset at 1 app 0 in 1 place inbox
p 1 q 0 via filter class 0 want 1 head 1 tail 1 cpu 1 why passed at 1 app 0 in 2 place inbox
p 2 q 1 via filter class 0 want 1 head - tail 0 cpu 1 why unset at 2 app 0 in 3 place inbox",
    ),
    // The filter is removed before the last packet arrives.
    (
        br#"{"cpus":2,"queues":[{"home":0,"mask":[0],"flows":1},{"home":1,"mask":[],"flows":1}],
            "sock":4,"filters":8,"apps":[1],"tx":[{"cpus":[],"queues":[]}],"steps":["expire"]}"#,
        3,
        &COMMAND_BETWEEN,
        b"p 0 q 0 via reta class 0 want - head - tail 0 cpu 0 why unset at 1 app 0 in 1 place inbox
p 1 q 0 via filter class 0 want 1 head 1 tail 1 cpu 1 why passed at 1 app 0 in 2 place inbox
p 2 q 0 via reta class 0 want 1 head - tail 1 cpu 1 why same at 2 app 0 in 3 place inbox
c 0 expire expired 1",
    ),
    // Each command changes what its packet and the reply meet.
    (
        br#"{"cpus":4,"queues":[{"home":0,"mask":[1],"flows":1},{"home":0,"mask":[1],"flows":1}],
            "sock":4,"apps":[2],"tx":[{"cpus":[],"queues":[]},{"cpus":[],"queues":[]}],
            "steps":["reta 120 1","mask 1 3","stand 0 3","flows 1 0","sock 16","offline 2",
            "online 2","xcpus 0 3","xqueues 1 1","expire"]}"#,
        1,
        &COMMANDS_FIRST,
        b"p 0 q 1 via reta class - want - head - tail - cpu 3 why plain at 1 app 0 in 1 place inbox
r 0 app 0 rxq 1 cpu 3 pick 1 head - tail 0 tx 1 why unset at 1 port 1
w app 0 entry 8 cpu 3
c 0 reta 120 1 done
c 1 mask 1 3 done
c 2 stand 0 3 done
c 3 flows 1 0 done
c 4 sock 16 done
c 5 offline 2 done
c 6 online 2 done
c 7 xcpus 0 3 done
c 8 xqueues 1 1 done
c 9 expire expired 0",
    ),
    // The reader moves between two replies.
    (
        br#"{"cpus":4,"queues":[{"home":0,"mask":[1],"flows":1}],"sock":4,"apps":[2],
            "tx":[{"cpus":[],"queues":[]}],"steps":["stand 0 3"]}"#,
        2,
        &REPLY_BEFORE,
        b"p 0 q 0 via reta class 0 want - head - tail 0 cpu 1 why unset at 1 app 0 in 1 place inbox
p 1 q 0 via reta class 0 want 2 head 1 tail 1 cpu 2 why passed at 1 app 0 in 2 place inbox
r 0 app 0 rxq 0 cpu 2 pick 0 head - tail 0 tx 0 why unset at 1 port 1
r 1 app 0 rxq 0 cpu 3 pick 0 head - tail 1 tx 0 why same at 2 port 2
w app 0 entry 0 cpu 2
w app 0 entry 0 cpu 3
c 0 stand 0 3 done",
    ),
];

#[test]
fn values_are_read_while_others_work(rt: HostRuntime) -> Result<(), Fail> {
    let alloc = rt.alloc();
    for (case, (plan, count, holds, lines)) in HELD.iter().enumerate() {
        let got = reported(&rt, alloc, *plan, *count, *holds)?;
        have_lines(&rt, &got, *lines, case);
    }
    Ok(())
}
