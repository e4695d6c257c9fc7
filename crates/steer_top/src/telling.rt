//! The line that says how a command ended. It is written in pieces and takes no memory.
ghost use Rattle.std.specs.Prelude.{◌++◌, codes, decimal};
ghost use Rattle.std.specs.List.{flat_map};
ghost use Rattle.steer_top.specs.Calls.{TakesLine};
ghost use Rattle.steer_top.specs.Endings.{SentOn, line_of, line_of_fault, line_of_ng_fault};
ghost use Rattle.steer_top.specs.Endings.{line_of_plan_fault, line_of_refusal};

use crate::ending::{Ending, Refusal};
use itoa::Buffer;
use outside_io::{Sink, WriteFault, write_whole};
use pcap_reader::CaptureFault;
use pcapng_reader::NgFault;
use plan_reader::PlanFault;
use report::hex8;

const USAGE: &[u8] =
    b"usage: steer hash CAPTURE [QUEUES [KINDS]] | replay PLAN CAPTURE | run PLAN CAPTURE | gen \
        SEED PACKETS FLOWS | check PLAN CAPTURE REPORT | place RULES CAPTURE\n";

/// Writes the line of an ending, as much of it as the sink takes, and sends on what the sink took.
pub fn tell<E: Sink>(err: &mut E, ending: &Ending)
    ensures line { TakesLine E.faults E.written err.old err.new (line_of ending.now) }
    ensures sent { SentOn (E.faults err.old) (E.faults err.new) (E.unsent err.new) }
{
    tell_ending(err, ending);
    match err.flush() {
        Ok(()) | Err(WriteFault) => {}
    }
}

fn tell_ending<E: Sink>(err: &mut E, ending: &Ending)
    ensures { TakesLine E.faults E.written err.old err.new (line_of ending.now) }
{
    match ending {
        Ending::Done => {}
        Ending::Usage => say(err, &[USAGE]),
        Ending::Refuses(refusal) => tell_refusal(err, refusal),
        Ending::ReadFault => say(err, &[b"read fault\n"]),
        Ending::WriteFault => say(err, &[b"write fault\n"]),
        Ending::OutOfMemory => say(err, &[b"out of memory\n"]),
    }
}

fn tell_refusal<E: Sink>(err: &mut E, refusal: &Refusal)
    ensures { TakesLine E.faults E.written err.old err.new (line_of_refusal refusal.now) }
{
    match refusal {
        Refusal::TooLong(role) => say(err, &[role.name(), b" too long\n"]),
        Refusal::Plan(fault) => tell_plan_fault(err, b"plan", fault),
        Refusal::Rules(fault) => tell_plan_fault(err, b"rules", fault),
        Refusal::Capture(fault) => tell_fault(err, *fault),
        Refusal::Pcapng(fault) => tell_ng_fault(err, *fault),
    }
}

fn tell_plan_fault<E: Sink>(err: &mut E, word: &[u8], fault: &PlanFault)
    ensures { TakesLine E.faults E.written err.old err.new (line_of_plan_fault word.now fault.now) }
{
    let mut buffer = Buffer::new();
    match fault {
        PlanFault::NotJson => say(err, &[word, b": not json\n"]),
        PlanFault::Missing { path } => say(err, &[word, b": missing ", path.as_slice(), b"\n"]),
        PlanFault::WrongKind { path } => {
            say(err, &[word, b": wrong kind ", path.as_slice(), b"\n"]);
        }
        PlanFault::Range { path, value } => {
            let digits = buffer.format(*value).as_bytes();
            say(
                err,
                &[word, b": range ", path.as_slice(), b" ", digits, b"\n"],
            );
        }
        PlanFault::UnknownKey { path } => {
            say(err, &[word, b": unknown key ", path.as_slice(), b"\n"]);
        }
        PlanFault::TooLong { steps } => {
            let digits = buffer.format(*steps).as_bytes();
            say(err, &[word, b": too long ", digits, b"\n"]);
        }
        PlanFault::OutOfMemory => say(err, &[b"out of memory\n"]),
    }
}

fn tell_fault<E: Sink>(err: &mut E, fault: CaptureFault)
    ensures { TakesLine E.faults E.written err.old err.new (line_of_fault fault) }
{
    match fault {
        CaptureFault::ShortHeader { len } => {
            say_one(err, b"capture: short header ", len as u64);
        }
        CaptureFault::BadMagic { magic } => {
            say(err, &[b"capture: bad magic ", &hex8(magic), b"\n"]);
        }
        CaptureFault::BadVersion { major, minor } => {
            let minor = u32::from(minor);
            say_two(err, b"capture: bad version ", u64::from(major), b" ", minor);
        }
        CaptureFault::BadLink { link } => say_one(err, b"capture: bad link ", u64::from(link)),
        CaptureFault::RecordTooLong { at, len } => {
            say_two(err, b"capture: packet ", u64::from(at), b" too long ", len);
        }
        CaptureFault::TooManyPackets => say(err, &[b"capture: too many packets\n"]),
        CaptureFault::OutOfMemory => say(err, &[b"out of memory\n"]),
    }
}

fn tell_ng_fault<E: Sink>(err: &mut E, fault: NgFault)
    ensures { TakesLine E.faults E.written err.old err.new (line_of_ng_fault fault) }
{
    match fault {
        NgFault::BadOrder { magic } => say(err, &[b"capture: bad order ", &hex8(magic), b"\n"]),
        NgFault::BadBlock { block, len } => {
            say_two(err, b"capture: bad block ", block, b" ", len);
        }
        NgFault::BadTail { block, len } => {
            say_two(err, b"capture: bad tail ", block, b" ", len);
        }
        NgFault::BadMajor { major } => say_one(err, b"capture: bad major ", u64::from(major)),
        NgFault::TooManyPackets => say(err, &[b"capture: too many packets\n"]),
        NgFault::BadInterface { block, id } => {
            say_two(err, b"capture: bad interface ", block, b" ", id);
        }
        NgFault::BadNgLink { block, link } => {
            say_two(err, b"capture: bad ng link ", block, b" ", link);
        }
        NgFault::RecordTooLong { at, len } => {
            say_two(err, b"capture: packet ", u64::from(at), b" too long ", len);
        }
        NgFault::OutOfMemory => say(err, &[b"out of memory\n"]),
    }
}

// Writes a text, a number and a line feed.
fn say_one<E: Sink>(err: &mut E, text: &[u8], number: u64)
    ensures { TakesLine E.faults E.written err.old err.new
        (text.now ++ (decimal number ++ codes "\n")) }
{
    let mut buffer = Buffer::new();
    say(err, &[text, buffer.format(number).as_bytes(), b"\n"]);
}

// Writes a text and a number, another text and number, and a line feed.
fn say_two<E: Sink>(err: &mut E, text: &[u8], number: u64, then: &[u8], other: u32)
    ensures { TakesLine E.faults E.written err.old err.new
        (text.now ++ (decimal number ++ (then.now ++ (decimal other ++ codes "\n")))) }
{
    let mut buffer = Buffer::new();
    let mut second = Buffer::new();
    let number = buffer.format(number).as_bytes();
    let other = second.format(other).as_bytes();
    say(err, &[text, number, then, other, b"\n"]);
}

// Writes a line in pieces, as far as the sink takes them.
fn say<E: Sink>(err: &mut E, pieces: &[&[u8]])
    ensures { TakesLine E.faults E.written err.old err.new
        (flat_map (λ piece. piece.now) pieces.now) }
{
    for piece in pieces {
        match write_whole(err, piece) {
            Ok(()) => {}
            Err(WriteFault) => return,
        }
    }
}
