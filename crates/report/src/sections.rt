//! The sections of a report.
ghost use Rattle.std.specs.Prelude.{◌≡◌, ◌≤◌, ◌++◌, length, map, OnOk, OnErr};
ghost use Rattle.report.specs.Lines.{write_row};
ghost use Rattle.report.specs.Pieces.{reply_text};
ghost use Rattle.report.specs.Report.{command_rows, cpu_rows, packet_rows, queue_rows, reply_rows};
ghost use Rattle.report.specs.Report.{tap_rows, tx_rows, write_rows};
ghost use Rattle.report.specs.Texts.{row_text, text_of};
ghost use Rattle.report.specs.Texts.Row.{Tap};
ghost use Rattle.report.specs.Written.{Stopped, Wrote};

use crate::commands::command_line;
use crate::line::LineBuf;
use crate::packets::{packet_line, reply_line};
use crate::sums::{cpu_line, queue_line, tap_line, tx_line, write_line};
use history::{Commanded, LaneList, Lines, PacketLines, ReplyLine, ReplyLines, SockWrite};
use outside_io::{Sink, WriteFault, write_whole};
use steer_base::{List, PacketId};
use taps::TapText;

/// Writes the line that was built.
pub(crate) fn put_line<K: Sink>(buf: &mut LineBuf, out: &mut K) -> Result<(), WriteFault>
    ensures whole { OnOk result
        (Wrote (K.written out.old) (K.written out.new) (K.faults out.old) (K.faults out.new)
        buf.old) }
    ensures part { OnErr result
        (Stopped (K.written out.old) (K.written out.new) (K.faults out.old) (K.faults out.new)
        buf.old) }
{
    buf.write(out)
}

/// The packets that arrived, in packet order.
pub(crate) fn write_packets<K: Sink>(
    lines: &Lines,
    arrived: u32,
    buf: &mut LineBuf,
    out: &mut K,
) -> Result<(), WriteFault>
    requires { arrived ≡ length lines.now.packets }
    ensures whole { OnOk result
        (Wrote (K.written out.old) (K.written out.new) (K.faults out.old) (K.faults out.new)
        (text_of (packet_rows lines.now.packets))) }
    ensures part { OnErr result
        (Stopped (K.written out.old) (K.written out.new) (K.faults out.old) (K.faults out.new)
        (text_of (packet_rows lines.now.packets))) }
{
    let mut packets = PacketLines::of(lines);
    for id in 0..arrived {
        packet_line(buf, &packets.line(PacketId(id)));
        put_line(buf, out)?;
    }
    Ok(())
}

/// The replies that were begun, in packet order.
pub(crate) fn write_replies<K: Sink>(
    lines: &Lines,
    arrived: u32,
    buf: &mut LineBuf,
    out: &mut K,
) -> Result<(), WriteFault>
    requires { arrived ≡ length lines.now.replies }
    ensures whole { OnOk result
        (Wrote (K.written out.old) (K.written out.new) (K.faults out.old) (K.faults out.new)
        (text_of (reply_rows lines.now.replies))) }
    ensures part { OnErr result
        (Stopped (K.written out.old) (K.written out.new) (K.faults out.old) (K.faults out.new)
        (text_of (reply_rows lines.now.replies))) }
{
    let mut replies = ReplyLines::of(lines);
    for id in 0..arrived {
        write_reply(replies.line(PacketId(id)), buf, out)?;
    }
    Ok(())
}

fn write_reply<K: Sink>(
    line: Option<ReplyLine>,
    buf: &mut LineBuf,
    out: &mut K,
) -> Result<(), WriteFault>
    ensures whole { OnOk result
        (Wrote (K.written out.old) (K.written out.new) (K.faults out.old) (K.faults out.new)
        (reply_text line)) }
    ensures part { OnErr result
        (Stopped (K.written out.old) (K.written out.new) (K.faults out.old) (K.faults out.new)
        (reply_text line)) }
{
    match line {
        None => Ok(()),
        Some(line) => {
            reply_line(buf, &line);
            put_line(buf, out)
        }
    }
}

/// The receive queues.
pub(crate) fn write_queues<K: Sink>(
    lines: &Lines,
    taken: &List<u32>,
    buf: &mut LineBuf,
    out: &mut K,
) -> Result<(), WriteFault>
    requires { length lines.now.arrived ≡ length taken.now }
    ensures whole { OnOk result
        (Wrote (K.written out.old) (K.written out.new) (K.faults out.old) (K.faults out.new)
        (text_of (queue_rows lines.now.arrived taken.now))) }
    ensures part { OnErr result
        (Stopped (K.written out.old) (K.written out.new) (K.faults out.old) (K.faults out.new)
        (text_of (queue_rows lines.now.arrived taken.now))) }
{
    for queue in 0..taken.len() {
        queue_line(
            buf,
            queue as u64,
            u64::from(lines.arrived_at(queue)),
            u64::from(*taken.get(queue)),
        );
        put_line(buf, out)?;
    }
    Ok(())
}

/// The processors.
pub(crate) fn write_cpus<K: Sink>(
    lanes: &List<LaneList>,
    buf: &mut LineBuf,
    out: &mut K,
) -> Result<(), WriteFault>
    ensures whole { OnOk result
        (Wrote (K.written out.old) (K.written out.new) (K.faults out.old) (K.faults out.new)
        (text_of (cpu_rows lanes.now))) }
    ensures part { OnErr result
        (Stopped (K.written out.old) (K.written out.new) (K.faults out.old) (K.faults out.new)
        (text_of (cpu_rows lanes.now))) }
{
    for cpu in 0..lanes.len() {
        cpu_line(buf, cpu as u64, lanes.get(cpu));
        put_line(buf, out)?;
    }
    Ok(())
}

/// The transmit queues.
pub(crate) fn write_txs<K: Sink>(
    lanes: &List<LaneList>,
    buf: &mut LineBuf,
    out: &mut K,
) -> Result<(), WriteFault>
    ensures whole { OnOk result
        (Wrote (K.written out.old) (K.written out.new) (K.faults out.old) (K.faults out.new)
        (text_of (tx_rows lanes.now))) }
    ensures part { OnErr result
        (Stopped (K.written out.old) (K.written out.new) (K.faults out.old) (K.faults out.new)
        (text_of (tx_rows lanes.now))) }
{
    for tx in 0..lanes.len() {
        tx_line(buf, tx as u64, lanes.get(tx));
        put_line(buf, out)?;
    }
    Ok(())
}

/// The socket writes of the applications, those of each in order.
pub(crate) fn write_sock_writes<K: Sink>(
    writes: &List<List<SockWrite>>,
    buf: &mut LineBuf,
    out: &mut K,
) -> Result<(), WriteFault>
    ensures whole { OnOk result
        (Wrote (K.written out.old) (K.written out.new) (K.faults out.old) (K.faults out.new)
        (text_of (write_rows 0 writes.now))) }
    ensures part { OnErr result
        (Stopped (K.written out.old) (K.written out.new) (K.faults out.old) (K.faults out.new)
        (text_of (write_rows 0 writes.now))) }
{
    for app in 0..writes.len() {
        write_writes_of(app as u64, writes.get(app), buf, out)?;
    }
    Ok(())
}

fn write_writes_of<K: Sink>(
    app: u64,
    writes: &List<SockWrite>,
    buf: &mut LineBuf,
    out: &mut K,
) -> Result<(), WriteFault>
    ensures whole { OnOk result
        (Wrote (K.written out.old) (K.written out.new) (K.faults out.old) (K.faults out.new)
        (text_of (map (write_row app) writes.now))) }
    ensures part { OnErr result
        (Stopped (K.written out.old) (K.written out.new) (K.faults out.old) (K.faults out.new)
        (text_of (map (write_row app) writes.now))) }
{
    for i in 0..writes.len() {
        write_line(buf, app, writes.get(i));
        put_line(buf, out)?;
    }
    Ok(())
}

/// The commands, in order.
pub(crate) fn write_commands<K: Sink>(
    commands: &List<Commanded>,
    buf: &mut LineBuf,
    out: &mut K,
) -> Result<(), WriteFault>
    ensures whole { OnOk result
        (Wrote (K.written out.old) (K.written out.new) (K.faults out.old) (K.faults out.new)
        (text_of (command_rows commands.now))) }
    ensures part { OnErr result
        (Stopped (K.written out.old) (K.written out.new) (K.faults out.old) (K.faults out.new)
        (text_of (command_rows commands.now))) }
{
    for number in 0..commands.len() {
        command_line(buf, number as u64, commands.get(number));
        put_line(buf, out)?;
    }
    Ok(())
}

/// The taps, each with its text.
pub(crate) fn write_taps<K: Sink>(
    texts: &[TapText],
    buf: &mut LineBuf,
    out: &mut K,
) -> Result<(), WriteFault>
    ensures whole { OnOk result
        (Wrote (K.written out.old) (K.written out.new) (K.faults out.old) (K.faults out.new)
        (text_of (tap_rows texts.now))) }
    ensures part { OnErr result
        (Stopped (K.written out.old) (K.written out.new) (K.faults out.old) (K.faults out.new)
        (text_of (tap_rows texts.now))) }
{
    for tap in 0..texts.len() {
        write_tap(tap as u64, &texts[tap], buf, out)?;
    }
    Ok(())
}

fn write_tap<K: Sink>(
    tap: u64,
    text: &TapText,
    buf: &mut LineBuf,
    out: &mut K,
) -> Result<(), WriteFault>
    ensures whole { OnOk result
        (Wrote (K.written out.old) (K.written out.new) (K.faults out.old) (K.faults out.new)
        (row_text (Tap tap text.now))) }
    ensures part { OnErr result
        (Stopped (K.written out.old) (K.written out.new) (K.faults out.old) (K.faults out.new)
        (row_text (Tap tap text.now))) }
{
    let bytes = text.bytes.as_slice();
    tap_line(buf, tap, bytes);
    put_line(buf, out)?;
    put_text(bytes, out)?;
    Ok(())
}

fn put_text<K: Sink>(text: &[u8], out: &mut K) -> Result<(), WriteFault>
    ensures whole { OnOk result
        (Wrote (K.written out.old) (K.written out.new) (K.faults out.old) (K.faults out.new)
        text.now) }
    ensures part { OnErr result
        (Stopped (K.written out.old) (K.written out.new) (K.faults out.old) (K.faults out.new)
        text.now) }
{
    write_whole(out, text)
}
