//! The first and the last line, and the lines of queues, lanes, socket writes and taps.
ghost use Rattle.std.specs.Prelude.{◌≡◌, ◌≤◌, ◌+◌, ◌++◌, codes, length};
ghost use Rattle.report.specs.Lines.{cpu_row, cut_fields, end_row, lane_fields, queue_row, tx_row};
ghost use Rattle.report.specs.Lines.{write_row};
ghost use Rattle.report.specs.Pieces.{spaced};
ghost use Rattle.report.specs.Report.{first_row};
ghost use Rattle.report.specs.Texts.{fields, further, row_text};
ghost use Rattle.report.specs.Texts.Row.{Tap};

use crate::fields::{begin, push_after, push_named};
use crate::line::LineBuf;
use history::{LaneList, SockWrite};

/// The first line of a report.
pub(crate) fn first_line(buf: &mut LineBuf)
    ensures { buf.new ≡ row_text first_row }
{
    buf.clear();
    buf.push(b"steer 1\n");
}

/// The line of a receive queue.
pub(crate) fn queue_line(buf: &mut LineBuf, queue: u64, arrived: u64, taken: u64)
    ensures { buf.new ≡ row_text (queue_row queue arrived taken) }
{
    begin(buf, b"queue", queue);
    push_named(buf, b"arrived", arrived);
    push_named(buf, b"taken", taken);
    buf.push(b"\n");
}

fn push_lane_sums(buf: &mut LineBuf, lane: &LaneList)
    requires { length buf.old ≤ 300 }
    ensures text { buf.new ≡ buf.old ++ spaced (lane_fields lane.now) }
    ensures grows { length buf.new ≤ length buf.old + 120 }
{
    push_named(buf, b"accepted", lane.accepted.len() as u64);
    push_named(buf, b"pulled", u64::from(lane.pulled));
    push_named(buf, b"delivered", u64::from(lane.delivered));
    push_named(buf, b"retired", u64::from(lane.retired));
}

/// The line of a processor.
pub(crate) fn cpu_line(buf: &mut LineBuf, cpu: u64, lane: &LaneList)
    ensures { buf.new ≡ row_text (cpu_row cpu lane.now) }
{
    begin(buf, b"cpu", cpu);
    push_lane_sums(buf, lane);
    push_named(buf, b"dropped", lane.drops.len() as u64);
    buf.push(b"\n");
}

/// The line of a transmit queue.
pub(crate) fn tx_line(buf: &mut LineBuf, tx: u64, lane: &LaneList)
    ensures { buf.new ≡ row_text (tx_row tx lane.now) }
{
    begin(buf, b"tx", tx);
    push_lane_sums(buf, lane);
    buf.push(b"\n");
}

/// The line of a socket write.
pub(crate) fn write_line(buf: &mut LineBuf, app: u64, write: &SockWrite)
    ensures { buf.new ≡ row_text (write_row app write.now) }
{
    buf.clear();
    push_after(buf, b"w app ", app);
    push_after(buf, b" entry ", u64::from(write.entry));
    push_after(buf, b" cpu ", u64::from(write.cpu.0));
    buf.push(b"\n");
}

/// The line before the text of a tap.
pub(crate) fn tap_line(buf: &mut LineBuf, tap: u64, text: &[u8])
    ensures { buf.new ≡ codes "tap" ++ further (fields (Tap tap text.now)) }
{
    begin(buf, b"tap", tap);
    push_named(buf, b"bytes", text.len() as u64);
    buf.push(b"\n");
}

/// The last line of a report.
pub(crate) fn end_line(buf: &mut LineBuf, arrived: u64, total: u32, cut: Option<u32>)
    ensures { buf.new ≡ row_text (end_row arrived total cut) }
{
    begin(buf, b"end", arrived);
    push_named(buf, b"of", u64::from(total));
    push_cut(buf, cut);
    buf.push(b"\n");
}

fn push_cut(buf: &mut LineBuf, cut: Option<u32>)
    requires { length buf.old ≤ 300 }
    ensures text { buf.new ≡ buf.old ++ spaced (cut_fields cut) }
    ensures grows { length buf.new ≤ length buf.old + 25 }
{
    match cut {
        None => {}
        Some(bytes) => push_named(buf, b"cut", u64::from(bytes)),
    }
}
