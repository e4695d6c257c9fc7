//! The lines of commands with their answers.
ghost use Rattle.std.specs.Prelude.{◌≡◌, ◌≤◌, ◌<◌, ◌+◌, ◌++◌, [], ◌∷◌, Bool, codes, decimal};
ghost use Rattle.std.specs.Prelude.{length};
ghost use Rattle.steer_base.specs.Sets.{in_bits, those_below};
ghost use Rattle.report.specs.Commands.{answer_fields, busy_fields, command_fields, command_row};
ghost use Rattle.report.specs.Commands.{idle_fields, set_field, user_fields};
ghost use Rattle.report.specs.Pieces.{separator as separator_of, spaced};
ghost use Rattle.report.specs.Texts.{row_text};

use crate::fields::{begin, push_named, push_number};
use crate::line::LineBuf;
use history::Commanded;
use itoa::Buffer;
use steer_base::{Answer, Busy, Command, Idle, User};

/// The line of a command with its number.
pub(crate) fn command_line(buf: &mut LineBuf, number: u64, commanded: &Commanded)
    ensures { buf.new ≡ row_text (command_row number commanded.now) }
{
    begin(buf, b"c", number);
    push_command(buf, commanded.command);
    push_answer(buf, commanded.answer);
    buf.push(b"\n");
}

fn push_command(buf: &mut LineBuf, command: Command)
    requires { length buf.old ≤ 40 }
    ensures text { buf.new ≡ buf.old ++ spaced (command_fields command) }
    ensures grows { length buf.new ≤ length buf.old + 140 }
{
    match command {
        Command::Mask(queue, cpus) => {
            push_named(buf, b"mask", u64::from(queue.0));
            push_set(buf, 32, cpus.0);
        }
        Command::Flows(queue, count) => {
            push_named(buf, b"flows", u64::from(queue.0));
            push_number(buf, u64::from(count));
        }
        Command::Sock(size) => push_named(buf, b"sock", u64::from(size)),
        Command::Offline(cpu) => push_named(buf, b"offline", u64::from(cpu.0)),
        Command::Online(cpu) => push_named(buf, b"online", u64::from(cpu.0)),
        Command::XCpus(tx, cpus) => {
            push_named(buf, b"xcpus", u64::from(tx.0));
            push_set(buf, 32, cpus.0);
        }
        Command::XQueues(tx, queues) => {
            push_named(buf, b"xqueues", u64::from(tx.0));
            push_set(buf, 16, u32::from(queues));
        }
        Command::Reta(place, queue) => {
            push_named(buf, b"reta", u64::from(place));
            push_number(buf, u64::from(queue.0));
        }
        Command::Stand(app, cpu) => {
            push_named(buf, b"stand", u64::from(app.0));
            push_number(buf, u64::from(cpu.0));
        }
        Command::Expire => buf.push(b" expire"),
    }
}

fn push_set(buf: &mut LineBuf, width: u8, bits: u32)
    requires width { width ≤ 32 }
    requires room { length buf.old ≤ 300 }
    ensures text { buf.new
        ≡ buf.old ++ spaced (set_field (those_below width (in_bits width bits)) ∷ []) }
    ensures grows { length buf.new ≤ length buf.old + 98 }
{
    let mut first = true;
    for n in 0..width {
        if is_member(width, bits, n) {
            push_member(buf, first, n);
            first = false;
        }
    }
    if first {
        buf.push(b" -");
    }
}

fn is_member(width: u8, bits: u32, n: u8) -> bool
    requires { n < 32 }
    ensures { result ≡ in_bits width bits n }
{
    n < width && bits >> n & 1 == 1
}

fn push_member(buf: &mut LineBuf, first: bool, n: u8)
    requires small { n < 32 }
    requires room { length buf.old + 3 ≤ 512 }
    ensures text { buf.new ≡ buf.old ++ separator_of first ∷ decimal n }
    ensures grows { length buf.new ≤ length buf.old + 3 }
{
    buf.push(&[separator(first)]);
    let mut buffer = Buffer::new();
    buf.push(buffer.format(n).as_bytes());
}

fn separator(first: bool) -> u8
    ensures { result ≡ separator_of first }
{
    if first { b' ' } else { b',' }
}

fn push_answer(buf: &mut LineBuf, answer: Answer)
    requires { length buf.old ≤ 300 }
    ensures text { buf.new ≡ buf.old ++ spaced (answer_fields answer) }
    ensures grows { length buf.new ≤ length buf.old + 100 }
{
    match answer {
        Answer::Done => buf.push(b" done"),
        Answer::Idle(idle) => push_idle(buf, idle),
        Answer::Busy(busy) => push_busy(buf, busy),
        Answer::CpuInUse(user) => push_user(buf, user),
        Answer::CpuOffline => buf.push(b" cpu offline"),
        Answer::Expired(filters) => push_named(buf, b"expired", u64::from(filters)),
    }
}

fn push_idle(buf: &mut LineBuf, idle: Idle)
    requires { length buf.old ≤ 300 }
    ensures text { buf.new ≡ buf.old ++ spaced (codes "idle" ∷ idle_fields idle) }
    ensures grows { length buf.new ≤ length buf.old + 12 }
{
    match idle {
        Idle::AlreadyOnline => buf.push(b" idle online"),
        _ => buf.push(b" idle"),
    }
}

fn push_busy(buf: &mut LineBuf, busy: Busy)
    requires { length buf.old ≤ 300 }
    ensures text { buf.new ≡ buf.old ++ spaced (codes "busy" ∷ busy_fields busy) }
    ensures grows { length buf.new ≤ length buf.old + 90 }
{
    match busy {
        Busy::Inside(actors) => push_named(buf, b"busy inside", u64::from(actors)),
        Busy::NotEmpty { lane, head, tail } => {
            push_named(buf, b"busy lane", u64::from(lane));
            push_named(buf, b"head", u64::from(head));
            push_named(buf, b"tail", u64::from(tail));
        }
    }
}

fn push_user(buf: &mut LineBuf, user: User)
    requires { length buf.old ≤ 300 }
    ensures text { buf.new ≡ buf.old ++ spaced (codes "in" ∷ codes "use" ∷ user_fields user) }
    ensures grows { length buf.new ≤ length buf.old + 40 }
{
    match user {
        User::Queue(queue) => push_named(buf, b"in use queue", u64::from(queue.0)),
        User::App(app) => push_named(buf, b"in use app", u64::from(app.0)),
    }
}
