//! Whole reports, by texts that were worked out by hand.
ghost use Rattle.report.specs.Made.{AreLinesOf};

use crate::equal::same_items;
use crate::histories::{
    delivered, filtered, full, lane, limited, lines_of, list, moved, one, other_segment, received,
    replied, replying, segments, waiting,
};
use history::{Commanded, History, Lines};
use outside_io::MemorySink;
use report::{LineBuf, render};
use std::alloc::{AllocError, Global};
use std::process::Abort;
use steer_base::{
    Answer, AppId, Busy, Command, Cpu, CpuMask, Detach, Idle, Packet, RxQueue, TxQueue, User,
};
use taps::{PerCpu, PerFlow, Tap, TapText, feed};

// The report as a sink takes it that fails the writes with these numbers.
fn written(
    rt: &impl Abort,
    alloc: Global,
    h: &History,
    lines: &Lines,
    texts: &[TapText],
    failing: &[u64],
) -> (bool, MemorySink)
    requires { AreLinesOf lines.now h.now }
{
    let failing = Vec::from_slice(alloc, failing).expect(rt, "memory");
    let mut out = MemorySink::make(alloc, 65536, failing).expect(rt, "memory");
    let mut buf = LineBuf::make(alloc).expect(rt, "memory");
    let answer = render(h, lines, texts, &mut buf, &mut out);
    (answer.is_ok(), out)
}

// The report of a history with one application, without taps, is this text.
fn reads(rt: &impl Abort, alloc: Global, h: &History, packets: &[Packet], wanted: &[u8]) {
    let lines = lines_of(rt, alloc, h, packets, 1);
    let (done, out) = written(rt, alloc, h, &lines, &[], &[]);
    assert!(rt; done);
    same_items(rt, out.bytes(), wanted);
}

#[test]
fn a_flow_moves_when_its_packets_are_retired(rt: HostRuntime) {
    let alloc = rt.alloc();
    let wanted = b"steer 1
p 0 q 0 via reta class 0 want - head - tail 0 cpu 1 why unset at 1 app 0 in 1 place inbox
p 1 q 0 via reta class 0 want 2 head 0 tail 1 cpu 1 why kept at 2 app 0 in 2 place inbox
p 2 q 0 via reta class 0 want 2 head 0 tail 2 cpu 1 why kept at 3 app 0 in 3 place inbox
p 3 q 0 via reta class 0 want 2 head 3 tail 3 cpu 2 why passed at 1 app 0 in - place backlog
queue 0 arrived 4 taken 4
cpu 0 accepted 0 pulled 0 delivered 0 retired 0 dropped 0
cpu 1 accepted 3 pulled 3 delivered 3 retired 3 dropped 0
cpu 2 accepted 1 pulled 0 delivered 0 retired 0 dropped 0
cpu 3 accepted 0 pulled 0 delivered 0 retired 0 dropped 0
tx 0 accepted 0 pulled 0 delivered 0 retired 0
w app 0 entry 0 cpu 2
end 4 of 4
";
    reads(
        &rt,
        alloc,
        &moved(&rt, alloc, 0),
        &segments(&rt, alloc, 4),
        wanted.as_slice(),
    );
    let wanted = b"steer 1
p 0 q 0 via reta class 0 want - head - tail 4294967294 cpu 1 why unset at 4294967295 \
app 0 in 1 place inbox
p 1 q 0 via reta class 0 want 2 head 4294967294 tail 4294967295 cpu 1 why kept at 0 \
app 0 in 2 place inbox
p 2 q 0 via reta class 0 want 2 head 4294967294 tail 0 cpu 1 why kept at 1 app 0 in 3 place inbox
p 3 q 0 via reta class 0 want 2 head 1 tail 1 cpu 2 why passed at 4294967295 app 0 \
in - place backlog
queue 0 arrived 4 taken 4
cpu 0 accepted 0 pulled 0 delivered 0 retired 0 dropped 0
cpu 1 accepted 3 pulled 3 delivered 3 retired 3 dropped 0
cpu 2 accepted 1 pulled 0 delivered 0 retired 0 dropped 0
cpu 3 accepted 0 pulled 0 delivered 0 retired 0 dropped 0
tx 0 accepted 0 pulled 0 delivered 0 retired 0
w app 0 entry 0 cpu 2
end 4 of 4
";
    reads(
        &rt,
        alloc,
        &moved(&rt, alloc, 4294967294),
        &segments(&rt, alloc, 4),
        wanted.as_slice(),
    );
}

#[test]
fn a_full_backlog_drops(rt: HostRuntime) {
    let alloc = rt.alloc();
    let wanted = b"steer 1
p 0 q 0 via reta class - want - head - tail - cpu 1 why plain at 1 app 0 in - place hand
p 1 q 0 via reta class - want - head - tail - cpu 1 why plain at drop 1 1 0 app 0 in - place drop
p 2 q 0 via reta class - want - head - tail - cpu 1 why plain at 2 app 0 in - place backlog
queue 0 arrived 3 taken 3
cpu 0 accepted 0 pulled 0 delivered 0 retired 0 dropped 0
cpu 1 accepted 2 pulled 1 delivered 0 retired 0 dropped 1
cpu 2 accepted 0 pulled 0 delivered 0 retired 0 dropped 0
cpu 3 accepted 0 pulled 0 delivered 0 retired 0 dropped 0
tx 0 accepted 0 pulled 0 delivered 0 retired 0
end 3 of 3
";
    reads(
        &rt,
        alloc,
        &full(&rt, alloc),
        &segments(&rt, alloc, 3),
        wanted.as_slice(),
    );
}

#[test]
fn a_packet_is_delivered(rt: HostRuntime) {
    let alloc = rt.alloc();
    let wanted = b"steer 1
p 0 q 0 via reta class - want - head - tail - cpu 1 why plain at 1 app 0 in 1 place inbox
queue 0 arrived 1 taken 1
cpu 0 accepted 0 pulled 0 delivered 0 retired 0 dropped 0
cpu 1 accepted 1 pulled 1 delivered 1 retired 1 dropped 0
cpu 2 accepted 0 pulled 0 delivered 0 retired 0 dropped 0
cpu 3 accepted 0 pulled 0 delivered 0 retired 0 dropped 0
tx 0 accepted 0 pulled 0 delivered 0 retired 0
end 1 of 1
";
    reads(
        &rt,
        alloc,
        &delivered(&rt, alloc, 4),
        &segments(&rt, alloc, 1),
        wanted.as_slice(),
    );
}

#[test]
fn a_reply_is_sent(rt: HostRuntime) {
    let alloc = rt.alloc();
    let wanted = b"steer 1
p 0 q 0 via reta class - want - head - tail - cpu 1 why plain at 1 app 0 in 1 place inbox
r 0 app 0 rxq 0 cpu 2 pick 0 head - tail 0 tx 0 why unset at 1 port 1
queue 0 arrived 1 taken 1
cpu 0 accepted 0 pulled 0 delivered 0 retired 0 dropped 0
cpu 1 accepted 1 pulled 1 delivered 1 retired 1 dropped 0
cpu 2 accepted 0 pulled 0 delivered 0 retired 0 dropped 0
tx 0 accepted 1 pulled 1 delivered 1 retired 1
end 1 of 1
";
    reads(
        &rt,
        alloc,
        &replied(&rt, alloc, 0),
        &segments(&rt, alloc, 1),
        wanted.as_slice(),
    );
    let wanted = b"steer 1
p 0 q 0 via reta class - want - head - tail - cpu 1 why plain at 0 app 0 in 1 place inbox
r 0 app 0 rxq 0 cpu 2 pick 0 head - tail 4294967295 tx 0 why unset at 0 port 1
queue 0 arrived 1 taken 1
cpu 0 accepted 0 pulled 0 delivered 0 retired 0 dropped 0
cpu 1 accepted 1 pulled 1 delivered 1 retired 1 dropped 0
cpu 2 accepted 0 pulled 0 delivered 0 retired 0 dropped 0
tx 0 accepted 1 pulled 1 delivered 1 retired 1
end 1 of 1
";
    reads(
        &rt,
        alloc,
        &replied(&rt, alloc, 4294967295),
        &segments(&rt, alloc, 1),
        wanted.as_slice(),
    );
}

// What the flow limit leaves of 201 packets, of which the last is of another flow.
fn limited_text(alloc: Global) -> Result<String, AllocError> {
    let mut text = String::new(alloc);
    text.push_str("steer 1\n")?;
    let head = "q 0 via reta class - want - head - tail - cpu 1 why plain at";
    for id in 0u32..151 {
        let position = id + 1;
        write!(text, "p {id} {head} {position} app 0 in - place backlog\n")?;
    }
    for id in 151u32..200 {
        let number = id - 150;
        let offers = id + 1;
        write!(
            text,
            "p {id} {head} drop {number} 151 0 flow {offers} app 0 in - place drop\n"
        )?;
    }
    write!(text, "p 200 {head} 152 app 0 in - place backlog\n")?;
    text.push_str(
        "queue 0 arrived 201 taken 201
cpu 0 accepted 0 pulled 0 delivered 0 retired 0 dropped 0
cpu 1 accepted 152 pulled 0 delivered 0 retired 0 dropped 49
cpu 2 accepted 0 pulled 0 delivered 0 retired 0 dropped 0
cpu 3 accepted 0 pulled 0 delivered 0 retired 0 dropped 0
tx 0 accepted 0 pulled 0 delivered 0 retired 0
end 201 of 201
",
    )?;
    Ok(text)
}

#[test]
fn the_flow_limit_drops(rt: HostRuntime) {
    let alloc = rt.alloc();
    let mut packets = segments(&rt, alloc, 200);
    packets.push(other_segment()).expect(&rt, "memory");
    let wanted = limited_text(alloc).expect(&rt, "memory");
    reads(
        &rt,
        alloc,
        &limited(&rt, alloc),
        &packets,
        wanted.as_bytes(),
    );
}

#[test]
fn packets_come_by_each_way(rt: HostRuntime) {
    let alloc = rt.alloc();
    let wanted = b"steer 1
p 0 q 0 via none class - want - head - tail - cpu 0 why plain at 1 app 0 in - place backlog
p 1 q 1 via filter class 0 want 1 head - tail 0 cpu 1 why unset at 1 app 0 in 1 place inbox
p 2 q 1 via filter class 0 want 1 head - tail 1 cpu 1 why same at 2 app 0 in - place backlog
p 3 q 1 via reta class 0 want 0 head - tail 2 cpu 0 why offline at 2 app 0 in - place backlog
p 4 q 0 via reta class - want - head - tail - cpu - why - at - app 0 in - place poller
queue 0 arrived 2 taken 2
queue 1 arrived 3 taken 3
cpu 0 accepted 2 pulled 0 delivered 0 retired 0 dropped 0
cpu 1 accepted 2 pulled 1 delivered 1 retired 1 dropped 0
tx 0 accepted 0 pulled 0 delivered 0 retired 0
end 5 of 5
";
    reads(
        &rt,
        alloc,
        &filtered(&rt, alloc),
        &segments(&rt, alloc, 5),
        wanted.as_slice(),
    );
}

#[test]
fn replies_are_at_each_stage(rt: HostRuntime) {
    let alloc = rt.alloc();
    let wanted = b"steer 1
p 0 q 0 via reta class - want - head - tail - cpu 1 why plain at 1 app 0 in 1 place inbox
p 1 q 0 via reta class - want - head - tail - cpu 1 why plain at 2 app 0 in 2 place inbox
p 2 q 0 via reta class - want - head - tail - cpu 1 why plain at 3 app 0 in 3 place inbox
r 0 app 0 rxq 0 cpu 2 pick 0 head - tail 0 tx 0 why unset at 1 port 1
r 1 app 0 rxq 0 cpu 3 pick 1 head 2 tail 2 tx 1 why passed at 1 port -
r 2 app 0 rxq 0 cpu 2 pick - head - tail - tx - why - at - port -
queue 0 arrived 3 taken 3
cpu 0 accepted 0 pulled 0 delivered 0 retired 0 dropped 0
cpu 1 accepted 3 pulled 3 delivered 3 retired 3 dropped 0
tx 0 accepted 1 pulled 1 delivered 1 retired 1
tx 1 accepted 1 pulled 0 delivered 0 retired 0
end 3 of 3
";
    reads(
        &rt,
        alloc,
        &replying(&rt, alloc),
        &segments(&rt, alloc, 3),
        wanted.as_slice(),
    );
}

fn mask(cpus: u32) -> Command {
    Command::Mask(RxQueue(0), CpuMask(cpus))
}

fn not_empty(head: u32, tail: u32) -> Answer {
    Answer::Busy(Busy::NotEmpty {
        lane: 1,
        head,
        tail,
    })
}

fn commanded(command: Command, answer: Answer) -> Commanded {
    Commanded { command, answer }
}

#[test]
fn commands_are_listed_with_their_answers(rt: HostRuntime) {
    let alloc = rt.alloc();
    let commands = [
        commanded(mask(4), not_empty(0, 1)),
        commanded(mask(4), not_empty(4294967295, 0)),
        commanded(mask(4), Answer::Busy(Busy::Inside(1))),
        commanded(mask(4), Answer::Done),
        commanded(
            Command::Offline(Cpu(0)),
            Answer::CpuInUse(User::Queue(RxQueue(0))),
        ),
        commanded(
            Command::Offline(Cpu(2)),
            Answer::CpuInUse(User::App(AppId(0))),
        ),
        commanded(Command::Stand(AppId(0), Cpu(2)), Answer::CpuOffline),
        commanded(Command::Online(Cpu(3)), Answer::Idle(Idle::AlreadyOnline)),
        commanded(Command::Expire, Answer::Expired(0)),
        commanded(Command::Expire, Answer::Expired(1)),
        commanded(Command::Reta(120, RxQueue(1)), Answer::Done),
        commanded(Command::Flows(RxQueue(1), 3), Answer::Done),
        commanded(Command::Sock(16), Answer::Done),
        commanded(
            Command::XCpus(TxQueue(0), CpuMask(0x8000_0009)),
            Answer::Done,
        ),
        commanded(Command::XQueues(TxQueue(1), 0x8001), Answer::Done),
        commanded(mask(0), Answer::Done),
    ];
    let lanes = one(&rt, alloc, lane(&rt, alloc, &[], 0));
    let mut h = received(&rt, alloc, &[], &[], lanes, &[]);
    h.commands = list(&rt, alloc, &commands);
    let wanted = b"steer 1
queue 0 arrived 0 taken 0
cpu 0 accepted 0 pulled 0 delivered 0 retired 0 dropped 0
tx 0 accepted 0 pulled 0 delivered 0 retired 0
c 0 mask 0 2 busy lane 1 head 0 tail 1
c 1 mask 0 2 busy lane 1 head 4294967295 tail 0
c 2 mask 0 2 busy inside 1
c 3 mask 0 2 done
c 4 offline 0 in use queue 0
c 5 offline 2 in use app 0
c 6 stand 0 2 cpu offline
c 7 online 3 idle online
c 8 expire expired 0
c 9 expire expired 1
c 10 reta 120 1 done
c 11 flows 1 3 done
c 12 sock 16 done
c 13 xcpus 0 0,3,31 done
c 14 xqueues 1 0,15 done
c 15 mask 0 - done
end 0 of 0
";
    reads(&rt, alloc, &h, &[], wanted.as_slice());
}

// The texts of a tap of processors, which is shown two lines of four, and a tap of flows.
fn two_texts(rt: &impl Abort, alloc: Global, lines: &Lines) -> Vec<TapText> {
    assert_eq!(rt; lines.len(), 4);
    let cpus: Box<dyn Tap> = Box::new(alloc, PerCpu::make(alloc)).expect(rt, "memory");
    let flows: Box<dyn Tap> = Box::new(alloc, PerFlow::make(alloc)).expect(rt, "memory");
    let mut taps = Vec::new(alloc);
    taps.push(cpus).expect(rt, "memory");
    taps.push(flows).expect(rt, "memory");
    feed(alloc, taps, lines, 4, &[Detach { tap: 0, after: 2 }]).expect(rt, "memory")
}

#[test]
fn two_taps_stand_before_the_end(rt: HostRuntime) {
    let alloc = rt.alloc();
    let h = moved(&rt, alloc, 0);
    let packets = segments(&rt, alloc, 4);
    let lines = lines_of(&rt, alloc, &h, &packets, 1);
    let texts = two_texts(&rt, alloc, &lines);
    let (done, out) = written(&rt, alloc, &h, &lines, &texts, &[]);
    assert!(&rt; done);
    let wanted = b"w app 0 entry 0 cpu 2
tap 0 bytes 16
cpu 1 packets 2
tap 1 bytes 17
flow 0 packets 4
end 4 of 4
";
    assert!(&rt; out.bytes().ends_with(wanted.as_slice()));
}

// Where the write of this number fails, the report stops behind these bytes.
fn stops_behind(
    rt: &impl Abort,
    alloc: Global,
    h: &History,
    lines: &Lines,
    texts: &[TapText],
    failing: u64,
    wanted: &[u8],
)
    requires { AreLinesOf lines.now h.now }
{
    let (done, out) = written(rt, alloc, h, lines, texts, &[failing]);
    assert!(rt; !done);
    same_items(rt, out.bytes(), wanted);
}

fn goes_out_whole(
    rt: &impl Abort,
    alloc: Global,
    h: &History,
    lines: &Lines,
    texts: &[TapText],
    wanted: &[u8],
)
    requires { AreLinesOf lines.now h.now }
{
    let (done, out) = written(rt, alloc, h, lines, texts, &[]);
    assert!(rt; done);
    same_items(rt, out.bytes(), wanted);
}

// The report goes out as these pieces, one a write, and nothing goes out from a write that fails
// on.
fn goes_out(
    rt: &impl Abort,
    alloc: Global,
    h: &History,
    lines: &Lines,
    texts: &[TapText],
    pieces: &[&[u8]],
)
    requires { AreLinesOf lines.now h.now }
{
    let mut wanted = Vec::new(alloc);
    for (taken, piece) in pieces.iter().enumerate() {
        stops_behind(rt, alloc, h, lines, texts, taken as u64 + 1, &wanted);
        wanted.extend_from_slice(piece).expect(rt, "memory");
    }
    goes_out_whole(rt, alloc, h, lines, texts, &wanted);
}

#[test]
fn a_report_goes_out_line_by_line(rt: HostRuntime) {
    let alloc = rt.alloc();
    let h = moved(&rt, alloc, 0);
    let packets = segments(&rt, alloc, 4);
    let lines = lines_of(&rt, alloc, &h, &packets, 1);
    let pieces = [
        b"steer 1\n".as_slice(),
        b"p 0 q 0 via reta class 0 want - head - tail 0 cpu 1 why unset at 1 \
            app 0 in 1 place inbox\n"
            .as_slice(),
        b"p 1 q 0 via reta class 0 want 2 head 0 tail 1 cpu 1 why kept at 2 app \
            0 in 2 place inbox\n"
            .as_slice(),
        b"p 2 q 0 via reta class 0 want 2 head 0 tail 2 cpu 1 why kept at 3 app \
            0 in 3 place inbox\n"
            .as_slice(),
        b"p 3 q 0 via reta class 0 want 2 head 3 tail 3 cpu 2 why passed at 1 \
            app 0 in - place backlog\n"
            .as_slice(),
        b"queue 0 arrived 4 taken 4\n".as_slice(),
        b"cpu 0 accepted 0 pulled 0 delivered 0 retired 0 dropped 0\n".as_slice(),
        b"cpu 1 accepted 3 pulled 3 delivered 3 retired 3 dropped 0\n".as_slice(),
        b"cpu 2 accepted 1 pulled 0 delivered 0 retired 0 dropped 0\n".as_slice(),
        b"cpu 3 accepted 0 pulled 0 delivered 0 retired 0 dropped 0\n".as_slice(),
        b"tx 0 accepted 0 pulled 0 delivered 0 retired 0\n".as_slice(),
        b"w app 0 entry 0 cpu 2\n".as_slice(),
        b"end 4 of 4\n".as_slice(),
    ];
    goes_out(&rt, alloc, &h, &lines, &[], &pieces);
}

#[test]
fn each_section_goes_out_line_by_line(rt: HostRuntime) {
    let alloc = rt.alloc();
    let h = waiting(&rt, alloc);
    let packets = segments(&rt, alloc, 3);
    let lines = lines_of(&rt, alloc, &h, &packets, 1);
    let texts = [TapText {
        bytes: Vec::from_slice(alloc, b"flow 0 packets 2\nflow 1 packets 1\n").expect(
            &rt, "memory",
        ),
    }];
    let pieces = [
        b"steer 1\n".as_slice(),
        b"p 0 q 0 via reta class - want - head - tail - cpu - why - at - app 0 \
            in - place ring\n"
            .as_slice(),
        b"p 1 q 0 via reta class - want - head - tail - cpu - why - at - app 0 \
            in - place ring\n"
            .as_slice(),
        b"queue 0 arrived 2 taken 0\n".as_slice(),
        b"cpu 0 accepted 0 pulled 0 delivered 0 retired 0 dropped 0\n".as_slice(),
        b"cpu 1 accepted 0 pulled 0 delivered 0 retired 0 dropped 0\n".as_slice(),
        b"tx 0 accepted 0 pulled 0 delivered 0 retired 0\n".as_slice(),
        b"w app 0 entry 3 cpu 1\n".as_slice(),
        b"c 0 mask 0 1 done\n".as_slice(),
        b"tap 0 bytes 34\n".as_slice(),
        b"flow 0 packets 2\nflow 1 packets 1\n".as_slice(),
        b"end 2 of 3 cut 9\n".as_slice(),
    ];
    goes_out(&rt, alloc, &h, &lines, &texts, &pieces);
}
