//! Writes the report of a history.
ghost use Rattle.std.specs.Prelude.{◌≤◌, ◌++◌, OnOk, OnErr};
ghost use Rattle.std.specs.Io.KnownBytes.{Appends};
ghost use Rattle.outside_io.specs.Counts.{Rose};
ghost use Rattle.outside_io.specs.Sink.{AppendsSome};
ghost use Rattle.report.specs.Made.{AreLinesOf};
ghost use Rattle.report.specs.Parts.{events_text, packets_text, sums_text};
ghost use Rattle.report.specs.Report.{rows_of};
ghost use Rattle.report.specs.Texts.{text_of};
ghost use Rattle.report.specs.Written.{Stopped, Wrote};

use crate::line::LineBuf;
use crate::sections::{
    put_line, write_commands, write_cpus, write_packets, write_queues, write_replies,
    write_sock_writes, write_taps, write_txs,
};
use crate::sums::{end_line, first_line};
use history::{History, Lines};
use outside_io::{Sink, WriteFault};
use taps::TapText;

/// Writes the report of a history, from the lines that were made from it and the texts of the taps.
/// Each line with its line feed is one piece for the sink, and so is each text of a tap. Allocates
/// nothing.
pub fn render<K: Sink>(
    h: &History,
    lines: &Lines,
    texts: &[TapText],
    buf: &mut LineBuf,
    out: &mut K,
) -> Result<(), WriteFault>
    requires { AreLinesOf lines.now h.now }
    ensures whole { OnOk result
        (Appends (K.written out.old) (K.written out.new)
        (text_of (rows_of lines.now h.now texts.now))) }
    ensures part { OnErr result
        (AppendsSome (K.written out.old) (K.written out.new)
        (text_of (rows_of lines.now h.now texts.now))) }
    ensures fault { OnErr result (Rose (K.faults out.old) (K.faults out.new)) }
    ensures later { K.faults out.old ≤ K.faults out.new }
{
    render_packets(h, lines, buf, out)?;
    render_sums(h, lines, buf, out)?;
    render_events(h, texts, buf, out)?;
    Ok(())
}

// The first line, and the lines of the packets and the replies.
fn render_packets<K: Sink>(
    h: &History,
    lines: &Lines,
    buf: &mut LineBuf,
    out: &mut K,
) -> Result<(), WriteFault>
    requires { AreLinesOf lines.now h.now }
    ensures whole { OnOk result
        (Wrote (K.written out.old) (K.written out.new) (K.faults out.old) (K.faults out.new)
        (packets_text lines.now)) }
    ensures part { OnErr result
        (Stopped (K.written out.old) (K.written out.new) (K.faults out.old) (K.faults out.new)
        (packets_text lines.now)) }
{
    let arrived = h.arrivals.len() as u32;
    first_line(buf);
    put_line(buf, out)?;
    write_packets(lines, arrived, buf, out)?;
    write_replies(lines, arrived, buf, out)?;
    Ok(())
}

// The lines of the receive queues, the processors and the transmit queues.
fn render_sums<K: Sink>(
    h: &History,
    lines: &Lines,
    buf: &mut LineBuf,
    out: &mut K,
) -> Result<(), WriteFault>
    requires { AreLinesOf lines.now h.now }
    ensures whole { OnOk result
        (Wrote (K.written out.old) (K.written out.new) (K.faults out.old) (K.faults out.new)
        (sums_text lines.now h.now)) }
    ensures part { OnErr result
        (Stopped (K.written out.old) (K.written out.new) (K.faults out.old) (K.faults out.new)
        (sums_text lines.now h.now)) }
{
    write_queues(lines, &h.taken, buf, out)?;
    write_cpus(&h.lanes, buf, out)?;
    write_txs(&h.tx_lanes, buf, out)?;
    Ok(())
}

// The lines of the socket writes, the commands and the taps, and the last line.
fn render_events<K: Sink>(
    h: &History,
    texts: &[TapText],
    buf: &mut LineBuf,
    out: &mut K,
) -> Result<(), WriteFault>
    ensures whole { OnOk result
        (Wrote (K.written out.old) (K.written out.new) (K.faults out.old) (K.faults out.new)
        (events_text h.now texts.now)) }
    ensures part { OnErr result
        (Stopped (K.written out.old) (K.written out.new) (K.faults out.old) (K.faults out.new)
        (events_text h.now texts.now)) }
{
    write_sock_writes(&h.writes, buf, out)?;
    write_commands(&h.commands, buf, out)?;
    write_taps(texts, buf, out)?;
    end_line(buf, h.arrivals.len() as u64, h.total, h.cut);
    put_line(buf, out)?;
    Ok(())
}
