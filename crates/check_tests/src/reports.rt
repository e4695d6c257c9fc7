//! Whether bytes are the report of one packet, and what its sections show.
ghost use Rattle.std.specs.Prelude.{◌≤◌, length};

use crate::equal::{same, same_items};
use crate::histories::replied;
use history::{History, Via};
use report_check::{ReportFault, is_report, read_report};
use report_reader::{Fields, InTurn, LaneSums, LastLine, read_parts};
use std::alloc::Global;
use std::process::Abort;
use std::snapshot::Snapshot;
use std::test::Fail;
use steer_base::{AppId, Choice, Cpu, Flow, Packet, PacketId, Pair, Proto, Put, RxQueue, Why};

const FLOW: Flow = Flow::Four(
    Pair::V4 {
        src: 0x4209_95bb,
        dst: 0xa18e_6450,
    },
    Proto::Tcp,
    2794,
    1766,
);

// A TCP segment from 66.9.149.187:2794 to 161.142.100.80:1766, with its published hash.
fn segment() -> Packet {
    Packet {
        flow: Snapshot::of(&FLOW),
        hash: Some(0x51cc_c178),
        len: 54,
        flow_number: 0,
    }
}

const REPORT: &[u8] = b"steer 1
p 0 q 0 via reta class - want - head - tail - cpu 1 why plain at 1 app 0 in 1 place inbox
r 0 app 0 rxq 0 cpu 0 pick 0 head - tail 0 tx 0 why unset at 1 port 1
queue 0 arrived 1 taken 1
cpu 0 accepted 0 pulled 0 delivered 0 retired 0 dropped 0
cpu 1 accepted 1 pulled 1 delivered 1 retired 1 dropped 0
tx 0 accepted 1 pulled 1 delivered 1 retired 1
end 1 of 1
";

// The same without the last line feed, with one more, with the packet at another position, and with
// another reason.
const UNENDED: &[u8] = b"steer 1
p 0 q 0 via reta class - want - head - tail - cpu 1 why plain at 1 app 0 in 1 place inbox
r 0 app 0 rxq 0 cpu 0 pick 0 head - tail 0 tx 0 why unset at 1 port 1
queue 0 arrived 1 taken 1
cpu 0 accepted 0 pulled 0 delivered 0 retired 0 dropped 0
cpu 1 accepted 1 pulled 1 delivered 1 retired 1 dropped 0
tx 0 accepted 1 pulled 1 delivered 1 retired 1
end 1 of 1";

const LONGER: &[u8] = b"steer 1
p 0 q 0 via reta class - want - head - tail - cpu 1 why plain at 1 app 0 in 1 place inbox
r 0 app 0 rxq 0 cpu 0 pick 0 head - tail 0 tx 0 why unset at 1 port 1
queue 0 arrived 1 taken 1
cpu 0 accepted 0 pulled 0 delivered 0 retired 0 dropped 0
cpu 1 accepted 1 pulled 1 delivered 1 retired 1 dropped 0
tx 0 accepted 1 pulled 1 delivered 1 retired 1
end 1 of 1

";

const ELSEWHERE: &[u8] = b"steer 1
p 0 q 0 via reta class - want - head - tail - cpu 1 why plain at 2 app 0 in 1 place inbox
r 0 app 0 rxq 0 cpu 0 pick 0 head - tail 0 tx 0 why unset at 1 port 1
queue 0 arrived 1 taken 1
cpu 0 accepted 0 pulled 0 delivered 0 retired 0 dropped 0
cpu 1 accepted 1 pulled 1 delivered 1 retired 1 dropped 0
tx 0 accepted 1 pulled 1 delivered 1 retired 1
end 1 of 1
";

const OTHERWISE: &[u8] = b"steer 1
p 0 q 0 via reta class - want - head - tail - cpu 1 why unset at 1 app 0 in 1 place inbox
r 0 app 0 rxq 0 cpu 0 pick 0 head - tail 0 tx 0 why unset at 1 port 1
queue 0 arrived 1 taken 1
cpu 0 accepted 0 pulled 0 delivered 0 retired 0 dropped 0
cpu 1 accepted 1 pulled 1 delivered 1 retired 1 dropped 0
tx 0 accepted 1 pulled 1 delivered 1 retired 1
end 1 of 1
";

fn is_of(rt: &impl Abort, alloc: Global, bytes: &[u8], start: u32, h: &History) -> bool {
    is_report(alloc, bytes, &[segment()], 1, start, h, &[]).expect(rt, "memory")
}

const CASES: [(&[u8], bool); 5] = [
    (REPORT, true),
    (UNENDED, false),
    (LONGER, false),
    (ELSEWHERE, false),
    (OTHERWISE, false),
];

#[test]
fn a_report_is_its_bytes(rt: HostRuntime) {
    let alloc = rt.alloc();
    let h = replied(&rt, alloc);
    for (case, (bytes, wanted)) in CASES.iter().enumerate() {
        same(&rt, &is_of(&rt, alloc, *bytes, 0, &h), wanted, case);
    }
    // The counters of the history begin at 0.
    same(&rt, &is_of(&rt, alloc, REPORT, 1, &h), &false, CASES.len());
}

#[test]
fn a_report_is_read_back(rt: HostRuntime) -> Result<(), Fail> {
    let alloc = rt.alloc();
    let printed = read_report(alloc, REPORT, &[segment()], 1, 0)
        .ok()
        .expect(&rt, "a report");
    same(
        &rt,
        &is_of(&rt, alloc, REPORT, 0, &printed.history),
        &true,
        0,
    );
    same(&rt, &printed.texts.len(), &0, 1);
    for (case, bytes) in [UNENDED, LONGER, ELSEWHERE].iter().enumerate() {
        let none = match read_report(alloc, bytes, &[segment()], 1, 0) {
            Ok(_) => false,
            Err(fault) => fault == ReportFault::NoReport,
        };
        same(&rt, &none, &true, case);
    }
    Ok(())
}

#[test]
fn a_report_shows_its_parts(rt: HostRuntime) -> Result<(), Fail> {
    let parts = read_parts(&InTurn, rt.alloc(), REPORT, 1)?;
    let plain = Choice {
        class: None,
        want: None,
        head: None,
        tail: None,
        lane: 1,
        why: Why::Plain,
    };
    for seen in &parts.packets {
        let way = (seen.queue, seen.via, seen.choice, seen.put);
        let wanted = (RxQueue(0), Via::Reta, Some(plain), Some(Put::At(1)));
        same(&rt, &way, &wanted, 0);
        same(&rt, &(seen.app, seen.inbox), &(AppId(0), Some(1)), 1);
    }
    let unset = Choice {
        want: Some(0),
        tail: Some(0),
        lane: 0,
        why: Why::Unset,
        ..plain
    };
    for seen in &parts.replies {
        let from = (seen.id, seen.rxq, seen.cpu);
        same(&rt, &from, &(PacketId(0), RxQueue(0), Cpu(0)), 2);
        let way = (seen.choice, seen.put, seen.port);
        same(&rt, &way, &(Some(unset), Some(1), Some(1)), 3);
    }
    let idle = LaneSums {
        pulled: 0,
        delivered: 0,
        retired: 0,
    };
    let busy = LaneSums {
        pulled: 1,
        delivered: 1,
        retired: 1,
    };
    same_items(&rt, &parts.taken, &[1]);
    same_items(&rt, &parts.cpus, &[idle, busy]);
    same_items(&rt, &parts.txs, &[busy]);
    let counts = (parts.packets.len(), parts.replies.len(), parts.writes.len());
    same(&rt, &counts, &(1, 1, 0), 4);
    let others = (parts.commands.len(), parts.texts.len());
    same(&rt, &others, &(0, 0), 5);
    let last = LastLine {
        total: 1,
        cut: None,
    };
    same(&rt, &parts.last, &last, 6);
    Ok(())
}

// A number and a dash of each width.
const NUMBERS: &[u8] = b"cpu 255 at 4294967295 in - to -\n";

#[test]
fn fields_are_numbers(rt: HostRuntime) -> Result<(), Fail> {
    let mut fields = Fields::make();
    let next = fields.read(NUMBERS, 0);
    same(&rt, &next, &NUMBERS.len(), 0);
    same(
        &rt,
        &(fields.byte(1), fields.word(3)),
        &(255, 4_294_967_295),
        1,
    );
    let numbers = (fields.maybe_byte(1), fields.maybe_word(3));
    same(&rt, &numbers, &(Some(255), Some(4_294_967_295)), 2);
    let dashes = (fields.maybe_byte(5), fields.maybe_word(7));
    same(&rt, &dashes, &(None, None), 3);
    Ok(())
}
