//! The lines of the packets of a capture, and the line that counts them.
ghost use Rattle.std.specs.Prelude.{◌≡◌, ◌≤◌, ◌<◌, [], ℕ, List, OnOk, OnErr};
ghost use Rattle.std.specs.Io.KnownBytes.{Appends};
ghost use Rattle.outside_io.specs.Counts.{Rose};
ghost use Rattle.outside_io.specs.Sink.{AppendsSome};
ghost use Rattle.steer_top.specs.Endings.{EndsWriting};
ghost use Rattle.steer_top.specs.HashText.{numbered_lines, numbered_text};

use crate::ending::Ending;
use crate::hash_line::push_count;
use outside_io::{Sink, WriteFault};
use report::LineBuf;
use std::alloc::Global;

/// What a command writes of each packet.
pub trait PacketLine {
    // The number of packets.
    ghost count: { Self → ℕ };

    // The line of the packet with this number.
    ghost text: { Self → ℕ → List ℕ };

    /// The number of packets.
    fn len(&self) -> usize
        ensures { result ≡ count self.now };

    /// Puts the line of the packet with this number in an empty line.
    fn push_line(&self, line: &mut LineBuf, number: usize)
        requires empty { line.old ≡ [] }
        requires within { number < count self.now }
        ensures { line.new ≡ text self.now number };
}

/// Takes the memory for a line, and writes the lines of all packets and the line that counts them.
pub fn write_lines<P: PacketLine, K: Sink>(
    alloc: Global,
    packets: &P,
    cut: Option<u32>,
    out: &mut K,
) -> Ending
    ensures ends { EndsWriting result
        (numbered_text (P.text packets.now) (P.count packets.now) cut)
        (K.faults out.old) (K.faults out.new) (K.written out.old) (K.written out.new) }
    ensures later { K.faults out.old ≤ K.faults out.new }
{
    let Ok(mut line) = LineBuf::make(alloc) else {
        return Ending::OutOfMemory;
    };
    match write_text(packets, cut, &mut line, out) {
        Ok(()) => Ending::Done,
        Err(WriteFault) => Ending::WriteFault,
    }
}

/// Writes the lines of all packets and the line that counts them.
#[tactic(auto, unfolding(crate::specs::HashText::numbered_text))]
fn write_text<P: PacketLine, K: Sink>(
    packets: &P,
    cut: Option<u32>,
    line: &mut LineBuf,
    out: &mut K,
) -> Result<(), WriteFault>
    requires empty { line.old ≡ [] }
    ensures whole { OnOk result (Appends (K.written out.old) (K.written out.new)
        (numbered_text (P.text packets.now) (P.count packets.now) cut)) }
    ensures part { OnErr result (AppendsSome (K.written out.old) (K.written out.new)
        (numbered_text (P.text packets.now) (P.count packets.now) cut)) }
    ensures fault { OnErr result (Rose (K.faults out.old) (K.faults out.new)) }
    ensures later { K.faults out.old ≤ K.faults out.new }
{
    write_packets(packets, line, out)?;
    push_count(line, packets.len() as u64, cut);
    line.write(out)
}

/// Writes the lines of all packets.
fn write_packets<P: PacketLine, K: Sink>(
    packets: &P,
    line: &mut LineBuf,
    out: &mut K,
) -> Result<(), WriteFault>
    requires empty { line.old ≡ [] }
    ensures empty { line.new ≡ [] }
    ensures whole { OnOk result (Appends (K.written out.old) (K.written out.new)
        (numbered_lines (P.text packets.now) (P.count packets.now))) }
    ensures part { OnErr result (AppendsSome (K.written out.old) (K.written out.new)
        (numbered_lines (P.text packets.now) (P.count packets.now))) }
    ensures fault { OnErr result (Rose (K.faults out.old) (K.faults out.new)) }
    ensures later { K.faults out.old ≤ K.faults out.new }
{
    for number in 0..packets.len() {
        packets.push_line(line, number);
        line.write(out)?;
    }
    Ok(())
}
