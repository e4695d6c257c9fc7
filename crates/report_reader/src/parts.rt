//! What the sections of a report show.
ghost use Rattle.std.specs.Prelude.{◌≤◌, IfOk, length};
ghost use Rattle.report_reader.specs.Parts.{AreParts, FitInto};

use crate::beside::ReadsSections;
use crate::bodies::read_texts;
use crate::commands::Commands;
use crate::fields::Fields;
use crate::last::{LastLine, read_last};
use crate::packets::{SeenPacket, SeenReply};
use crate::sections::read_section;
use crate::sums::{AppWrite, Cpus, LaneSums, Queues, Txs, Writes};
use history::{Commanded, lines_fit};
use std::alloc::Global;
use steer_base::OutOfMemory;
use taps::TapText;

/// What the sections of a report show.
#[derive(Drop)]
pub struct Parts {
    /// The packets that arrived.
    pub packets: Vec<SeenPacket>,
    /// The replies that were begun.
    pub replies: Vec<SeenReply>,
    /// For each receive queue, the number of packets that were taken.
    pub taken: Vec<u32>,
    /// The sums of the processors.
    pub cpus: Vec<LaneSums>,
    /// The sums of the transmit queues.
    pub txs: Vec<LaneSums>,
    /// The writes of the socket flow table.
    pub writes: Vec<AppWrite>,
    /// The commands with their answers.
    pub commands: Vec<Commanded>,
    /// The texts of the taps.
    pub texts: Vec<TapText>,
    /// The last line.
    pub last: LastLine,
}

/// Reads the sections of a report with at most so many packets. Of bytes that are no report too,
/// no more is kept than rows of a report would fit into them. `work` says whether the packets and
/// the replies, nearly all of a long report, are read one after the other.
pub fn read_parts<W: ReadsSections>(
    work: &W,
    alloc: Global,
    bytes: &[u8],
    most: usize,
) -> Result<Parts, OutOfMemory>
    ensures parts { IfOk result (λ p. AreParts bytes.now most p) }
    ensures fit { IfOk result (λ p. FitInto (length bytes.now) p) }
    ensures few { IfOk result (λ p. length p.packets.items ≤ most) }
{
    lines_fit();
    let mut fields = Fields::make();
    let first = fields.read(bytes, 0);
    let (packets, replies) = work.packets_and_replies(alloc, bytes, first, most)?;
    let queues = read_section(alloc, bytes, replies.next, bytes.len(), &Queues)?;
    let cpus = read_section(alloc, bytes, queues.next, bytes.len(), &Cpus)?;
    let txs = read_section(alloc, bytes, cpus.next, bytes.len(), &Txs)?;
    let writes = read_section(alloc, bytes, txs.next, bytes.len(), &Writes)?;
    let commands = read_section(alloc, bytes, writes.next, bytes.len(), &Commands)?;
    let texts = read_texts(alloc, bytes, commands.next)?;
    let last = read_last(bytes, texts.next);
    Ok(Parts {
        packets: packets.items,
        replies: replies.items,
        taken: queues.items,
        cpus: cpus.items,
        txs: txs.items,
        writes: writes.items,
        commands: commands.items,
        texts: texts.items,
        last,
    })
}
